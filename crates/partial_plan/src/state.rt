//! The propagation state of a kept box: how variables are fixed and freed.
ghost use Rattle.std.specs.Prelude.{◌≡◌, ◌+◌, ◌≤◌, ◌++◌, ◌∷◌, [], IfOk, None, Some, length, replicate, slice_get, take, true};
ghost use Rattle.proof_trees.specs.Boxes.{fixed};
ghost use Rattle.zero_one_rows.specs.Variables.{variables};
ghost use Rattle.partial_plan.specs.Fixing.{released};
ghost use Rattle.zero_one_rows.specs.Tightening.{IsQuiet};
ghost use Rattle.row_matrix.specs.Following.{ChangedRowsWait};
ghost use Rattle.partial_plan.specs.PropagationState.{IsState, Rests};

use row_matrix::{BaseMatrix, Slacks, lift_by, lower_by};
use std::alloc::Global;
use stow_data::{NoMemory, Seq, VarNo};
use zero_one_model::Box01;
use zero_one_rows::rows_are_listed;

// A box, the variables that were fixed in order, whether the box was quiet when so many were fixed, and the slacks.
#[derive(Drop)]
pub(crate) struct PropagationState {
    pub b: Box01,
    pub undo: Vec<VarNo>,
    pub quiet: Vec<bool>,
    pub slacks: Slacks,
}

impl PropagationState {
    // The free box, in which nothing was fixed; all rows wait.
    pub(crate) fn free(alloc: Global, matrix: &BaseMatrix) -> Result<PropagationState, NoMemory>
        ensures state { IfOk result (IsState matrix.now) }
        ensures rests { IfOk result (λ d. Rests matrix.now d.b d.slacks) }
        ensures known { IfOk result (λ d. d.b ≡ replicate (length (variables matrix.now)) None) }
        ensures undo { IfOk result (λ d. d.undo.items ≡ []) }
    {
        let b = Box01::free(alloc, matrix.model())?;
        let vars = matrix.model().vars() as usize;
        let undo = Vec::with_capacity(alloc, vars)?;
        let quiet = Seq::filled(alloc, false, vars + 1)?.into_items();
        let slacks = Slacks::of(alloc, matrix.slacks())?;
        Ok(PropagationState {
            b,
            undo,
            quiet,
            slacks,
        })
    }

    // Fixes a free variable.
    pub(crate) fn fix(&mut self, matrix: &BaseMatrix, x: VarNo, value: bool)
        requires state { IsState matrix.now self.old }
        requires free { slice_get self.old.b x ≡ Some None }
        ensures state { IsState matrix.now self.new }
        ensures known { self.new.b ≡ fixed self.old.b x value }
        ensures undo { self.new.undo.items ≡ self.old.undo.items ++ x ∷ [] }
        ensures marks { ChangedRowsWait matrix.now self.old.slacks self.new.slacks }
    {
        lower_by(matrix, &mut self.b, &mut self.slacks, x, value);
        self.undo.push(x).unwrap();
        self.quiet[self.undo.len()] = false;
    }

    // Frees what was fixed past a place of the list, the last first.
    fn take_back(&mut self, matrix: &BaseMatrix, to: usize)
        requires state { IsState matrix.now self.old }
        requires to { to ≤ length self.old.undo.items }
        ensures state { IsState matrix.now self.new }
        ensures freed { self.new.b ≡ released self.old.b self.old.undo.items to }
        ensures kept { self.new.undo.items ≡ take to self.old.undo.items }
    {
        while self.undo.len() > to {
            if let Some(x) = self.undo.pop() {
                lift_by(matrix, &mut self.b, &mut self.slacks, x);
            }
        }
    }

    // Frees what was fixed past a place of the list; where the box was quiet then, no row waits, and else all do.
    pub(crate) fn undo_to(&mut self, matrix: &BaseMatrix, to: usize)
        requires state { IsState matrix.now self.old }
        requires to { to ≤ length self.old.undo.items }
        ensures state { IsState matrix.now self.new }
        ensures rests { Rests matrix.now self.new.b self.new.slacks }
        ensures freed { self.new.b ≡ released self.old.b self.old.undo.items to }
        ensures kept { self.new.undo.items ≡ take to self.old.undo.items }
    {
        rows_are_listed();
        self.take_back(matrix, to);
        if self.quiet[to] {
            self.slacks.rest();
        } else {
            self.slacks.rouse();
        }
    }

    // Marks the box as quiet.
    pub(crate) fn settle(&mut self, matrix: &BaseMatrix)
        requires state { IsState matrix.now self.old }
        requires quiet { IsQuiet matrix.now self.old.b }
        ensures state { IsState matrix.now self.new }
        ensures known { self.new.b ≡ self.old.b }
        ensures undo { self.new.undo ≡ self.old.undo }
        ensures slacks { self.new.slacks ≡ self.old.slacks }
    {
        self.quiet[self.undo.len()] = true;
    }
}
