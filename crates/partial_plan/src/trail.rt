//! Variables that were fixed, and how they are freed again.
ghost use Rattle.std.specs.Prelude.{◌≡◌, ℕ, ◌+◌, ◌<◌, ◌≤◌, All, [], ◌∷◌, ◌++◌, drop, length, take, None, slice_set, is_ok, if◌then◌else◌};
ghost use Rattle.partial_plan.specs.Fixing.{released};

use std::alloc::Global;
use std::marker::Model;
use stow_data::{NoMemory, VarNo};
use zero_one_model::Box01;

/// The variables that were fixed, in order.
#[derive(Drop)]
pub struct UndoList {
    vars: Vec<VarNo>,
}

impl Model for UndoList {
    ghost use Rattle.std.specs.Prelude.{ℕ, List};

    ghost Value = { List ℕ };

    ghost view = { λ u. u.vars.items };
}

impl UndoList {
    /// No variables. It takes no memory.
    pub fn new(alloc: Global) -> UndoList
        ensures { result ≡ [] }
    {
        UndoList {
            vars: Vec::new(alloc),
        }
    }

    /// The number of variables.
    pub fn len(&self) -> usize
        ensures { result ≡ length self.now }
    {
        self.vars.len()
    }

    /// The variables.
    pub fn as_slice(&self) -> &[VarNo]
        ensures { result.now ≡ self.now }
    {
        self.vars.as_slice()
    }

    /// Appends a variable. The list stays as it was where memory is wanting.
    pub fn push(&mut self, x: VarNo) -> Result<(), NoMemory>
        ensures { self.new ≡ (if is_ok result then self.old ++ x ∷ [] else self.old) }
    {
        self.vars.push(x)?;
        Ok(())
    }
}

// Frees what was fixed past a place of the list, the last first, where what stands there is of the box.
pub(crate) fn take_back(b: &mut Box01, undo: &mut UndoList, to: usize)
    requires to { to ≤ length undo.old }
    requires inside { All (λ v. v < length b.old) (drop to undo.old) }
    ensures freed { b.new ≡ released b.old undo.old to }
    ensures kept { undo.new ≡ take to undo.old }
{
    while undo.vars.len() > to {
        if let Some(x) = undo.vars.pop() {
            b.release(x);
        }
    }
}

/// Frees what was fixed past a place of the list, the last first. It takes no memory.
pub fn undo(b: &mut Box01, undo: &mut UndoList, to: usize)
    requires to { to ≤ length undo.old }
    requires inside { All (λ v. v < length b.old) undo.old }
    ensures freed { b.new ≡ released b.old undo.old to }
    ensures kept { undo.new ≡ take to undo.old }
{
    take_back(b, undo, to);
}
