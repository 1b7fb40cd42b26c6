//! The laws, called on a program of one variable.
ghost use Rattle.std.specs.Prelude.{ℕ, Bool, length, pos, ◌≤ℤ◌, ◌≡◌, true, [], ◌∷◌};
ghost use Rattle.proof_trees.specs.Program.{Solution, cost_of};
ghost use Rattle.proof_trees.specs.Boxes.{Inside, tightened, free_box, at};
ghost use Rattle.proof_trees.specs.OneVariable.{one_variable};

use crate::{lesser_bounds, tightening_keeps_solutions, weak_duality};

/// A leaf with multiplier 16 for the one row proves that each solution costs at least 1.
fn costs_at_least_one()
    ensures { (x : ℕ → Bool) → Solution one_variable x → pos 1 ≤ℤ cost_of one_variable x }
{
    weak_duality::<u32>();
}

/// The same leaf proves the lesser bound 0.
fn costs_at_least_nothing()
    ensures { (x : ℕ → Bool) → Solution one_variable x → pos 0 ≤ℤ cost_of one_variable x }
{
    lesser_bounds::<u32>();
    weak_duality::<u32>();
}

/// Tightened by its row, the box has the variable at 1, and each solution with it.
fn is_fixed_at_one()
    ensures { (x : ℕ → Bool) → Solution one_variable x → x 0 ≡ true }
{
    tightening_keeps_solutions::<u32>();
}

#[test]
fn laws_hold_of_one_variable(rt: HostRuntime) {
    costs_at_least_one();
    costs_at_least_nothing();
    is_fixed_at_one();
}
