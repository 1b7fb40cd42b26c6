//! A box whose dual value is kept, brought to where another box is.
ghost use Rattle.std.specs.Prelude.{◌≡◌, ℕ, ◌<◌, All, length, slice_set};
ghost use Rattle.proof_trees.specs.Multipliers.{Multipliers};
ghost use Rattle.zero_one_rows.specs.declared.program.Row.{Row as Rows};
ghost use Rattle.partial_plan.specs.Fixing.{freed};
ghost use Rattle.bound_checker.specs.Sums.{Carries, CarriesSome};

use crate::sums::Sums;
use stow_data::VarNo;
use zero_one_model::{Box01, Model};

/// A variable of the box is fixed so, or free. It takes constant time.
pub fn allow(model: &Model, b: &mut Box01, sums: &mut Sums, x: VarNo, allowed: Option<bool>)
    requires var { x < length b.old }
    requires carries { CarriesSome model.now b.old sums.old }
    ensures there { b.new ≡ slice_set b.old x allowed }
    ensures carries { (ms : Multipliers Rows) → Carries model.now b.old ms sums.old → Carries model.now b.new ms sums.new }
{
    sums.costs.allow(model, b, x, allowed);
    sums.blank.allow(model, b, x, allowed);
    b.release(x);
    if let Some(value) = allowed {
        b.fix(x, value);
    }
}

/// Goes to another box, in which these variables are fixed besides.
pub fn follow(model: &Model, to: &Box01, xs: &[VarNo], b: &mut Box01, sums: &mut Sums)
    requires inside { All (λ v. v < length b.old) xs.now }
    requires back { freed to.now xs.now ≡ b.old }
    requires carries { CarriesSome model.now b.old sums.old }
    ensures there { b.new ≡ to.now }
    ensures carries { (ms : Multipliers Rows) → Carries model.now b.old ms sums.old → Carries model.now b.new ms sums.new }
{
    for x in xs {
        allow(model, b, sums, *x, to.at(*x));
    }
}

/// Frees these variables.
pub fn free_all(model: &Model, xs: &[VarNo], b: &mut Box01, sums: &mut Sums)
    requires inside { All (λ v. v < length b.old) xs.now }
    requires carries { CarriesSome model.now b.old sums.old }
    ensures there { b.new ≡ freed b.old xs.now }
    ensures carries { (ms : Multipliers Rows) → Carries model.now b.old ms sums.old → Carries model.now b.new ms sums.new }
{
    for x in xs {
        allow(model, b, sums, *x, None);
    }
}
