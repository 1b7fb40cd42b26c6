//! A gate at which two workers wait for each other.

use std::sync::atomic::{AtomicBool, Ordering};
use std::thread;
use stow_io::Gate;

/// How often a worker looks for the other.
const LOOKS: u64 = 100_000_000;

/// A gate at which each of two workers waits, at its second turn, until the other has come to its first.
#[derive(Drop)]
pub struct Meeting {
    first_came: AtomicBool,
    second_came: AtomicBool,
    in_vain: AtomicBool,
}

/// Waits until the other has come; whether it has.
fn has_come(other: &AtomicBool) -> bool {
    for _ in 0..LOOKS {
        if other.load(Ordering::SeqCst) {
            return true;
        }
        thread::yield_now();
    }
    false
}

impl Meeting {
    pub fn new() -> Meeting {
        Meeting {
            first_came: AtomicBool::new(false),
            second_came: AtomicBool::new(false),
            in_vain: AtomicBool::new(false),
        }
    }

    /// Whether both have come.
    pub fn is_held(&self) -> bool {
        self.first_came.load(Ordering::SeqCst) && self.second_came.load(Ordering::SeqCst)
    }

    /// Whether a worker gave up.
    pub fn is_in_vain(&self) -> bool {
        self.in_vain.load(Ordering::SeqCst)
    }

    fn pass(&self, own: &AtomicBool, other: &AtomicBool, turn: u64) {
        if turn == 1 {
            own.store(true, Ordering::SeqCst);
        }
        if turn == 2 && !has_come(other) {
            self.in_vain.store(true, Ordering::SeqCst);
        }
    }
}

impl Gate for Meeting {
    fn before(&self, worker: u32, turn: u64) {
        match worker {
            1 => self.pass(&self.first_came, &self.second_came, turn),
            _ => self.pass(&self.second_came, &self.first_came, turn),
        }
    }
}
