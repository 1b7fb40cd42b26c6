//! A chain whose pairs bring the most together. It is a guess, of which nothing is claimed.
ghost use Rattle.std.specs.Prelude.{◌+◌, ◌<◌, ◌≤◌, length, IfSome};
ghost use Rattle.crossing_pricing.specs.Climbs.{AreWorths};

use crate::best_pairs::{Best, best_from, most_at, most_of};
use arrayvec::ArrayVec;
use zero_one_rows::Chain;

// The calls of the pairs so far, and the least destination of the next one.
#[derive(Drop)]
struct Trail {
    loads: ArrayVec<u32, 6>,
    dests: ArrayVec<u32, 6>,
    dest: usize,
}

impl Trail {
    // Appends a pair, if there is one.
    fn take(&mut self, load: usize, found: Option<usize>)
        requires dest { self.old.dest ≤ 13 }
        requires load { load ≤ 12 }
        requires found { IfSome found (λ d. d ≤ 12) }
        ensures { self.new.dest ≤ 13 }
    {
        let Some(dest) = found else {
            return;
        };
        if self.loads.is_full() || self.dests.is_full() {
            return;
        }
        self.loads.push(load as u32);
        self.dests.push(dest as u32);
        self.dest = dest + 1;
    }

    // The chain of the pairs, where they are two or more.
    fn chain(&self) -> Option<Chain> {
        if self.loads.len() < 2 {
            return None;
        }
        let mut numbers: ArrayVec<u32, 12> = ArrayVec::new();
        let _ = numbers.try_extend_from_slice(self.loads.as_slice());
        let _ = numbers.try_extend_from_slice(self.dests.as_slice());
        Some(Chain::of(numbers.as_slice()))
    }
}

// What counts where so many pairs are taken: of the first pair two or more, of the others one or more.
fn wanted(best: Best, taken: usize) -> i64 {
    if taken == 0 { best.two } else { best.one }
}

// The destination of the pair of a call that belongs to the best ones, if there is one.
fn dest_at(
    here: &[Best; 14],
    below: &[Best; 14],
    last: usize,
    dest: usize,
    taken: usize,
) -> Option<usize>
    requires last { last ≤ 12 }
    requires dest { dest ≤ 13 }
    ensures { IfSome result (λ d. d ≤ 12) }
{
    if wanted(here[dest], taken) == wanted(below[dest], taken) {
        return None;
    }
    if taken >= 2 && here[dest].one <= 0 {
        return None;
    }
    (dest..last + 1).find(|d| wanted(here[*d], taken) != wanted(here[*d + 1], taken))
}

// A chain of the best pairs of calls below a floor and of calls from it on.
fn chain_at(sides: &[i64], gaps: &[i64], from: usize, last: usize, floor: usize) -> Option<Chain>
    requires worths { AreWorths sides.now gaps.now from }
    requires last { last ≤ 12 }
    requires floor { floor ≤ last }
{
    let mut trail = Trail {
        loads: ArrayVec::new(),
        dests: ArrayVec::new(),
        dest: floor,
    };
    for load in 0..floor {
        let here = best_from(sides, gaps, from, last, floor, load);
        let below = best_from(sides, gaps, from, last, floor, load + 1);
        let found = dest_at(&here, &below, last, trail.dest, trail.loads.len());
        trail.take(load, found);
    }
    trail.chain()
}

/// A chain of two or more pairs that bring the most, by the sides and gaps of `most_of`. It is a guess, of which nothing is claimed; there is none where no two pairs were found.
pub fn chain_of(sides: &[i64], gaps: &[i64], from: usize, last: usize) -> Option<Chain>
    requires worths { AreWorths sides.now gaps.now from }
    requires last { last ≤ 12 }
{
    let most = most_of(sides, gaps, from, last);
    for floor in 0..last + 1 {
        if most_at(sides, gaps, from, last, floor) == most {
            return chain_at(sides, gaps, from, last, floor);
        }
    }
    None
}
