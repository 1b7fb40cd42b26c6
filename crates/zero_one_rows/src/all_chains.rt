//! All chains of a voyage's calls, one after the other.
//!
//! A rising row of numbers is told by its place among all of them, in lexical order. A chain is one of an even length of at least 4.
ghost use Rattle.std.specs.Prelude.{◌≡◌, ℕ, ◌≤◌, [], ◌∷◌, length, MatchOption, true, false};
ghost use Rattle.zero_one_rows.specs.Chains.{EachOnce, is_length};
ghost use Rattle.zero_one_rows.specs.ToCome.{row_at};

use arrayvec::ArrayVec;
use std::marker::Model;
use stow_data::Short;

/// A chain of at most 12 calls. Contracts see the list of its numbers; chains are ordered as lists, a prefix first.
pub type Chain = Short<u32, 12>;

/// The chains of the calls 0 to `calls`, one after the other. Contracts see the list of those still to come.
#[derive(Drop)]
pub struct Chains {
    calls: u32,
    place: u32,
}

impl Model for Chains {
    ghost use Rattle.std.specs.Prelude.{ℕ, List};

    ghost Value = { List (List ℕ) };

    ghost use Rattle.zero_one_rows.specs.ToCome.{to_come, IsWithin};

    ghost view = { to_come };

    ghost invariant = { IsWithin };
}

// The rising row of numbers below `count` that has `place` such rows before it.
fn numbers_at(count: u32, place: u32) -> ArrayVec<u32, 13>
    requires { count ≤ 13 }
    ensures { result.items ≡ row_at 0 count place }
{
    let mut numbers = ArrayVec::new();
    let mut rest = place;
    let mut half: u32 = 1 << count;
    for number in 0..count {
        half /= 2;
        if rest > half {
            rest -= half;
        } else if rest > 0 {
            numbers.push(number);
            rest -= 1;
        }
    }
    numbers
}

// The row at a place, where it is a chain.
fn chain_at(count: u32, place: u32) -> Option<Chain>
    requires { count ≤ 13 }
    ensures { MatchOption result (is_length (length (row_at 0 count place)) ≡ false) (λ c. (c ≡ row_at 0 count place) × (is_length (length (row_at 0 count place)) ≡ true)) }
{
    let numbers = numbers_at(count, place);
    if numbers.len() % 2 == 0 && numbers.len() >= 4 {
        Some(Chain::of(numbers.as_slice()))
    } else {
        None
    }
}

impl Chains {
    /// Every chain of the calls 0 to `calls`, which are at most 12: each once, in lexical order, a prefix first.
    pub fn over(calls: u32) -> Chains
        requires { calls ≤ 12 }
        ensures { EachOnce calls result }
    {
        Chains { calls, place: 0 }
    }

    /// The next chain; None where all were given.
    pub fn next(&mut self) -> Option<Chain>
        ensures { MatchOption result ((self.old ≡ []) × (self.new ≡ [])) (λ c. self.old ≡ c ∷ self.new) }
    {
        let end = 1 << (self.calls + 1);
        while self.place < end {
            let chain = chain_at(self.calls + 1, self.place);
            self.place += 1;
            if chain.is_some() {
                return chain;
            }
        }
        None
    }
}
