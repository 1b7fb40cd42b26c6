//! The stacks that covers named so far.
ghost use Rattle.std.specs.Prelude.{◌≡◌, [], ◌∷◌, ◌++◌, is_ok, if◌then◌else◌};
ghost use Rattle.ship_profile.specs.Stacks.{is_among};

use std::alloc::Global;
use std::collections::BTreeSet;
use std::marker::Model;
use stow_data::{NoMemory, StackList, StackNo};

/// The stacks that covers named so far. Contracts see their list.
#[derive(Drop)]
pub struct NamedStacks {
    list: StackList,
    numbers: BTreeSet<u32>,
}

impl Model for NamedStacks {
    ghost use Rattle.std.specs.Prelude.{ℕ, List};
    ghost use Rattle.ship_profile.specs.Positions.{HasNumbers};

    ghost Value = { List ℕ };

    ghost view = { λ s. s.list };

    ghost invariant = { λ s. HasNumbers s.numbers s.list };
}

impl NamedStacks {
    /// No stacks yet.
    pub fn new(alloc: Global) -> Self
        ensures { result ≡ [] }
    {
        NamedStacks {
            list: StackList::new(alloc),
            numbers: BTreeSet::new(alloc),
        }
    }

    /// Whether a stack is among these.
    pub fn has(&self, stack: StackNo) -> bool
        ensures { result ≡ is_among self.now stack }
    {
        self.numbers.contains(&stack.0)
    }

    /// Appends a stack. The list stays as it was where memory is wanting.
    pub fn push(&mut self, stack: StackNo) -> Result<(), NoMemory>
        ensures { self.new ≡ (if is_ok result then self.old ++ stack ∷ [] else self.old) }
    {
        let is_new = self.numbers.insert(stack.0)?;
        let pushed = self.list.push(stack);
        if pushed.is_err() && is_new {
            self.numbers.remove(&stack.0);
        }
        pushed
    }
}
