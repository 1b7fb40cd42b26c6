//! A box with its slacks.
ghost use Rattle.std.specs.Prelude.{◌≡◌, ℕ, ◌<◌, ◌≤◌, ◌++◌, ◌∷◌, [], List, All, IfOk, OnOk, None, Some, length, replicate, slice_get, take, true};
ghost use Rattle.proof_trees.specs.Boxes.{fixed, tight, violated};
ghost use Rattle.zero_one_rows.specs.declared.program.Row.{Row};
ghost use Rattle.zero_one_rows.specs.Variables.{variables};
ghost use Rattle.zero_one_rows.specs.Rows.{base, whole};
ghost use Rattle.zero_one_rows.specs.Counted.{base_rows};
ghost use Rattle.partial_plan.specs.Fixing.{Fixes, released};
ghost use Rattle.zero_one_rows.specs.Tightening.{IsQuiet};
ghost use Rattle.partial_plan.specs.Tightening.{Tightens};

use crate::state::PropagationState;
use crate::tightening::Tightened;
use row_matrix::{BaseMatrix, Term};
use std::alloc::Global;
use stow_data::{NoMemory, VarNo};
use zero_one_model::Box01;
use zero_one_rows::RowList;

/// A box of a program's variables with the variables that were fixed in order, which keeps by how much each base row is met, and room for the terms of one row. Contracts see the voyage, the box and what was fixed.
#[derive(Drop)]
pub struct KeptBox<'a> {
    matrix: &'a BaseMatrix<'a>,
    state: PropagationState,
    terms: Vec<Term>,
}

impl<'a> std::marker::Model for KeptBox<'a> {
    ghost use Rattle.partial_plan.specs.Kept.{Kept};

    ghost Value = { Kept };

    ghost use Rattle.partial_plan.specs.Keeping.{kept_of, IsKept};

    ghost view = { kept_of };

    ghost invariant = { IsKept };
}

impl<'a> KeptBox<'a> {
    /// The free box, in which nothing was fixed.
    pub fn free(alloc: Global, matrix: &'a BaseMatrix<'a>) -> Result<KeptBox<'a>, NoMemory>
        ensures { IfOk result (λ k. k ≡ record { voyage = matrix.now; known = replicate (length (variables matrix.now)) None; undo = [] }) }
    {
        let state = PropagationState::free(alloc, matrix)?;
        Ok(KeptBox {
            matrix,
            state,
            terms: Vec::new(alloc),
        })
    }

    /// The box has each variable of the program, and what was fixed is of them: a law, which costs nothing when it runs.
    pub fn is_whole(&self)
        ensures whole { length self.now.known ≡ length (variables self.now.voyage) }
        ensures inside { All (λ v. v < length self.now.known) self.now.undo }
    {
        let _opened = &self.state;
    }

    /// The box.
    pub fn now(&self) -> &Box01
        ensures { result.now ≡ self.now.known }
    {
        &self.state.b
    }

    /// The variables that were fixed, in order.
    pub fn fixed(&self) -> &[VarNo]
        ensures { result.now ≡ self.now.undo }
    {
        self.state.undo.as_slice()
    }

    /// Fixes a free variable. It takes no memory.
    pub fn fix(&mut self, x: VarNo, value: bool)
        requires { slice_get self.old.known x ≡ Some None }
        ensures { self.new ≡ record { voyage = self.old.voyage; known = fixed self.old.known x value; undo = self.old.undo ++ x ∷ [] } }
    {
        self.state.fix(self.matrix, x, value);
    }

    /// Fixes all variables that the base row with this number forces, at once; a violated row fixes nothing. Where memory is wanting, nothing is fixed.
    pub fn force(&mut self, k: usize) -> Result<(), NoMemory>
        requires { k < length (base_rows self.old.voyage) }
        ensures same { self.new.voyage ≡ self.old.voyage }
        ensures tight { OnOk result ((r : Row) → slice_get (base_rows self.old.voyage) k ≡ Some r → self.new.known ≡ tight (whole self.old.voyage) self.old.known r) }
        ensures noted { (xs : List ℕ) × (self.new.undo ≡ self.old.undo ++ xs) × Fixes self.old.known self.new.known xs }
    {
        self.state.force(self.matrix, &mut self.terms, k)
    }

    /// Frees what was fixed past a place of the list. It takes no memory.
    pub fn undo_to(&mut self, to: usize)
        requires { to ≤ length self.old.undo }
        ensures { self.new ≡ record { voyage = self.old.voyage; known = released self.old.known self.old.undo to; undo = take to self.old.undo } }
    {
        self.state.undo_to(self.matrix, to);
    }

    /// Tightens the box by base rows until none forces a free variable, or one is violated. Appends the rows that forced one, in order, to `steps`. It looks only at rows of variables that were fixed since the box was last quiet.
    pub fn tighten(&mut self, steps: &mut RowList) -> Tightened
        ensures same { self.new.voyage ≡ self.old.voyage }
        ensures steps { Tightens self.old.voyage self.old.known self.new.known steps.old steps.new }
        ensures noted { (xs : List ℕ) × (self.new.undo ≡ self.old.undo ++ xs) × Fixes self.old.known self.new.known xs }
        ensures quiet { result ≡ Tightened.Quiet → IsQuiet self.old.voyage self.new.known }
        ensures violated { (r : Row) → result ≡ Tightened.Violated r → ((base self.old.voyage).has r ≡ true) × (violated (whole self.old.voyage) self.new.known r ≡ true) }
    {
        self.state.tighten(self.matrix, &mut self.terms, steps)
    }
}
