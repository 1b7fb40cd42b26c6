//! Amounts that are all cleared at once.
ghost use Rattle.std.specs.Prelude.{◌≡◌, ◌<◌, IfOk, Some, length, replicate, slice_get, slice_set};

use std::alloc::Global;
use std::marker::Model;
use stow_data::NoMemory;

/// An amount, and the round in which it was set.
#[derive(Clone, Copy)]
pub struct Stamped {
    pub round: u64,
    pub amount: u64,
}

/// A list of amounts. Contracts see the list of numbers.
///
/// An amount counts in the round in which it was set, and is 0 in later ones. So a new round clears all of them, whatever their number.
#[derive(Drop)]
pub struct Amounts {
    stamped: Vec<Stamped>,
    round: u64,
}

impl Model for Amounts {
    ghost use Rattle.std.specs.Prelude.{ℕ, ◌≤◌, All, List, map};
    ghost use Rattle.event_search.specs.Rounds.{amount_in};

    ghost Value = { List ℕ };

    ghost view = { λ a. map (amount_in a.round) a.stamped.items };

    ghost invariant = { λ a. All (λ s. s.round ≤ a.round) a.stamped.items };
}

/// An amount that no round has set.
const UNSET: Stamped = Stamped {
    round: 0,
    amount: 0,
};

impl Amounts {
    /// So many amounts, all 0.
    pub fn zero(alloc: Global, count: usize) -> Result<Amounts, NoMemory>
        ensures { IfOk result (λ a. a ≡ replicate count 0) }
    {
        Ok(Amounts {
            stamped: Vec::from_elem(alloc, UNSET, count)?,
            round: 0,
        })
    }

    /// The amount at a place.
    pub fn at(&self, k: usize) -> u64
        requires { k < length self.now }
        ensures { slice_get self.now k ≡ Some result }
    {
        let stamped = self.stamped[k];
        if stamped.round == self.round {
            stamped.amount
        } else {
            0
        }
    }

    /// Puts an amount at a place.
    pub fn set(&mut self, k: usize, amount: u64)
        requires { k < length self.old }
        ensures { self.new ≡ slice_set self.old k amount }
    {
        self.stamped[k] = Stamped {
            round: self.round,
            amount,
        };
    }

    // Begins with the first round again.
    fn wipe(&mut self)
        ensures { self.new ≡ replicate (length self.old) 0 }
    {
        self.stamped.fill(UNSET);
        self.round = 0;
    }

    /// Makes all amounts 0. It takes constant time, but for once in 2^64 times.
    pub fn clear(&mut self)
        ensures { self.new ≡ replicate (length self.old) 0 }
    {
        match self.round.checked_add(1) {
            Some(round) => self.round = round,
            None => self.wipe(),
        }
    }
}
