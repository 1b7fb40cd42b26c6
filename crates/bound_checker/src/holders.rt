//! Which of the boxes that wait with costs lets go of them.
ghost use Rattle.std.specs.Prelude.{◌<◌, ◌^◌};

use std::alloc::Global;
use stow_data::NoMemory;

/// A box lets go of its costs where those of the next box above took an eighth of what its own took, or more.
///
/// There is room for the costs of twenty boxes at least. If each took more than eight times what the next did, the lowest took more than 2^57:
/// more variables than the rows of any certificate have.
const MOST_TIMES: usize = 8;

// A box that waits with costs: its place among the frames, and what its costs took to make.
#[derive(Clone, Copy)]
struct Holder {
    place: usize,
    work: usize,
}

/// The boxes that wait with costs, looked at from the lowest on.
///
/// What it takes to let go is paid by what the next box above took. That one is gone before the lower comes back into hand, so it pays once for
/// each box below, and each of them took more than eight times what the one paid for before it did: ten times its own in all.
#[derive(Drop)]
pub struct Holders {
    // Those that were looked at, the lowest first: each took more than eight times what the next did.
    heavy: Vec<Holder>,

    /// Those before this place were looked at.
    pub next: usize,
}

impl Holders {
    /// None so far.
    pub fn none(alloc: Global) -> Holders {
        Holders {
            heavy: Vec::new(alloc),
            next: 0,
        }
    }

    /// The boxes from this place on are gone, or others by now.
    pub fn look_again(&mut self, place: usize) {
        self.next = self.next.min(place);
        while let Some(highest) = self.heavy.pop() {
            if highest.place < place {
                let _ = self.heavy.push(highest);
                return;
            }
        }
    }

    /// Looks at the next box that waits with costs; the place of the box below it, where that lets go of its own.
    pub fn look_at(&mut self, place: usize, work: usize) -> Result<Option<usize>, NoMemory>
        requires { place < 2 ^ 63 }
    {
        self.next = place;
        if let Some(below) = self.heavy.pop() {
            if below.work / MOST_TIMES <= work {
                return Ok(Some(below.place));
            }
            self.heavy.push(below)?;
        }
        self.heavy.push(Holder { place, work })?;
        self.next = place + 1;
        Ok(None)
    }

    /// The highest box lets go of its costs, where all before this place were looked at.
    pub fn take_highest(&mut self, next: usize) -> Option<usize> {
        self.next = next;
        let highest = self.heavy.pop()?;
        Some(highest.place)
    }
}
