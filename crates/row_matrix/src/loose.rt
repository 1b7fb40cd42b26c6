//! A box whose variables are set in any order.
ghost use Rattle.std.specs.Prelude.{◌≡◌, ℕ, ◌<◌, IfOk, None, Some, length, not, replicate, slice_get, slice_set, true};
ghost use Rattle.proof_trees.specs.Boxes.{at, violated};
ghost use Rattle.zero_one_rows.specs.declared.program.Row.{Row};
ghost use Rattle.zero_one_rows.specs.Variables.{variables};
ghost use Rattle.zero_one_rows.specs.Rows.{whole};
ghost use Rattle.zero_one_rows.specs.Counted.{base_rows};
ghost use Rattle.row_matrix.specs.Leaning.{cheaper, reduced_at, Leans};

use crate::following::{lift_by, lower_by};
use crate::matrix::BaseMatrix;
use crate::slacks::Slacks;
use std::alloc::Global;
use stow_data::{NoMemory, VarNo};
use zero_one_model::Box01;

/// A box of a program whose variables are set in any order, which keeps by how much each base row is met. Contracts see the voyage and the box.
#[derive(Drop)]
pub struct LooseBox<'a> {
    matrix: &'a BaseMatrix<'a>,
    b: Box01,
    slacks: Slacks,
}

impl<'a> std::marker::Model for LooseBox<'a> {
    ghost use Rattle.row_matrix.specs.Loose.{Loose};

    ghost Value = { Loose };

    ghost use Rattle.row_matrix.specs.LooseRule.{loose_of, IsLoose};

    ghost view = { loose_of };

    ghost invariant = { IsLoose };
}

// What a variable of a box has where its cost is least: a free one whose reduced cost isn't 0 has the cheaper value.
fn cheaper_of(allowed: Option<bool>, reduced: i128) -> Option<bool>
    ensures { result ≡ cheaper allowed reduced }
{
    match allowed {
        Some(value) => Some(value),
        None => {
            if reduced > 0 {
                return Some(false);
            }
            if reduced < 0 { Some(true) } else { None }
        }
    }
}

// The reduced cost of a variable.
fn reduced_of(reduced: &[i128], x: VarNo) -> i128
    requires { x < length reduced.now }
    ensures { result ≡ reduced_at reduced.now x }
{
    reduced[x.0 as usize]
}

#[tactic(auto, using(std::proofs::lemmas::Option::get_or_from_slice_get))]
// What a variable of a box has where its cost is least.
fn cheaper_at(b: &Box01, reduced: &[i128], x: VarNo) -> Option<bool>
    requires inside { x < length b.now }
    requires reduced { length reduced.now ≡ length b.now }
    ensures { result ≡ cheaper (at b.now x) (reduced_at reduced.now x) }
{
    cheaper_of(b.at(x), reduced_of(reduced, x))
}

// Whether two values are the same.
fn alike(a: Option<bool>, b: Option<bool>) -> bool
    ensures { result ≡ true → a ≡ b }
{
    match (a, b) {
        (None, None) => true,
        (Some(x), Some(y)) => x == y,
        _ => false,
    }
}

impl<'a> LooseBox<'a> {
    /// The free box.
    pub fn free(alloc: Global, matrix: &'a BaseMatrix<'a>) -> Result<LooseBox<'a>, NoMemory>
        ensures { IfOk result (λ k. k ≡ record { voyage = matrix.now; known = replicate (length (variables matrix.now)) None }) }
    {
        let b = Box01::free(alloc, matrix.model())?;
        let slacks = Slacks::of(alloc, matrix.slacks())?;
        Ok(LooseBox { matrix, b, slacks })
    }

    /// The box has each variable of the program: a law, which costs nothing when it runs.
    pub fn is_whole(&self)
        ensures { length self.now.known ≡ length (variables self.now.voyage) }
    {
        let _opened = &self.b;
    }

    /// The box.
    pub fn now(&self) -> &Box01
        ensures { result.now ≡ self.now.known }
    {
        &self.b
    }

    /// Fixes or frees a variable. It takes no memory.
    pub fn set(&mut self, x: VarNo, allowed: Option<bool>)
        requires { x < length self.old.known }
        ensures { self.new ≡ record { voyage = self.old.voyage; known = slice_set self.old.known x allowed } }
    {
        lift_by(self.matrix, &mut self.b, &mut self.slacks, x);
        match allowed {
            Some(value) => lower_by(self.matrix, &mut self.b, &mut self.slacks, x, value),
            None => {}
        }
    }

    /// Whether the base row with this number isn't violated. It takes constant time.
    pub fn is_met(&self, k: usize) -> bool
        requires { k < length (base_rows self.now.voyage) }
        ensures { (r : Row) → slice_get (base_rows self.now.voyage) k ≡ Some r → violated (whole self.now.voyage) self.now.known r ≡ not result }
    {
        self.slacks.slack[k] >= 0
    }

    // Sets a variable as it is cheapest in a box.
    fn lean_one(&mut self, b: &Box01, reduced: &[i128], x: VarNo)
        requires inside { x < length self.old.known }
        requires whole { length b.now ≡ length self.old.known }
        requires reduced { length reduced.now ≡ length self.old.known }
        ensures { self.new ≡ record { voyage = self.old.voyage; known = slice_set self.old.known x (cheaper (at b.now x) (reduced_at reduced.now x)) } }
    {
        let allowed = cheaper_at(b, reduced, x);
        if alike(self.b.at(x), allowed) {
            return;
        }
        self.set(x, allowed);
    }

    /// Goes to where the reduced costs are least in another box: a variable that is free there and has a reduced cost other than 0 gets the cheaper value. It takes no memory.
    pub fn lean(&mut self, b: &Box01, reduced: &[i128])
        requires whole { length b.now ≡ length self.old.known }
        requires reduced { length reduced.now ≡ length self.old.known }
        ensures same { self.new.voyage ≡ self.old.voyage }
        ensures leans { Leans b.now reduced.now self.new.known }
    {
        let vars = self.matrix.model().vars();
        self.is_whole();
        for v in 0..vars {
            self.lean_one(b, reduced, VarNo(v));
        }
    }
}
