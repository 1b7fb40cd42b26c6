//! Packing rows, by which at most one of some variables is at 1: while none is, such a row forces nothing.
ghost use Rattle.std.specs.Prelude.{◌≡◌, ◌≢◌, ◌<◌, All, IfOk, Some, false, length, pos, true};
ghost use Rattle.proof_trees.specs.Boxes.{at};
ghost use Rattle.zero_one_rows.specs.Variables.{variables};
ghost use Rattle.zero_one_rows.specs.Rows.{whole};
ghost use Rattle.partial_plan.specs.Packing.{is_packing, AreOnes};
ghost use Rattle.zero_one_rows.specs.Tightening.{IsCalm};

use std::alloc::Global;
use stow_data::{NoMemory, Seq, VarNo};
use zero_one_model::{Box01, Model};
use zero_one_rows::{Row, VarList};

// Whether a row is of a family whose coefficients are 0 or -1, and whose right sides are -1.
fn is_packing_row(r: &Row) -> bool
    ensures { result ≡ is_packing r.now }
{
    match r {
        Row::Cell { .. } | Row::Block { .. } | Row::Hatch { .. } | Row::Apart { .. } => true,
        Row::Flow { .. }
        | Row::Start { .. }
        | Row::Support { .. }
        | Row::Twenty { .. }
        | Row::Weight { .. }
        | Row::Cross { .. } => false,
    }
}

#[tactic(auto, using(std::proofs::lemmas::Option::get_or_from_slice_get))]
// Whether a box has a variable at 1.
fn is_at_one(b: &Box01, x: VarNo) -> bool
    requires { x < length b.now }
    ensures yes { at b.now x ≡ Some true → result ≡ true }
{
    b.at(x) == Some(true)
}

// The variables that a box has at 1.
pub(crate) fn ones_of(alloc: Global, model: &Model, b: &Box01) -> Result<VarList, NoMemory>
    requires { length b.now ≡ length (variables model.now) }
    ensures { IfOk result (AreOnes b.now) }
{
    let mut ones = Seq::new(alloc);
    for v in 0..model.vars() {
        if is_at_one(b, VarNo(v)) {
            ones.push(VarNo(v))?;
        }
    }
    Ok(ones)
}

// Whether a variable's coefficient in a row is 0.
fn is_left_out(model: &Model, r: &Row, x: VarNo) -> bool
    requires row { (whole model.now).has r.now ≡ true }
    requires var { x < length (variables model.now) }
    ensures { result ≡ true → (whole model.now).coef r.now x ≡ pos 0 }
{
    model.coefficient(r, x) == 0
}

// Whether the coefficients of all these variables in a row are 0.
fn leaves_out(model: &Model, r: &Row, vars: &[VarNo]) -> bool
    requires row { (whole model.now).has r.now ≡ true }
    requires inside { All (λ v. v < length (variables model.now)) vars.now }
    ensures { result ≡ true → All (λ v. (whole model.now).coef r.now v ≡ pos 0) vars.now }
{
    vars.iter().all(|x| is_left_out(model, r, *x))
}

// Whether a row is a packing row none of whose variables is at 1. Then it isn't violated, and forces nothing.
pub(crate) fn is_idle(model: &Model, b: &Box01, r: &Row, ones: &[VarNo]) -> bool
    requires row { (whole model.now).has r.now ≡ true }
    requires whole { length b.now ≡ length (variables model.now) }
    requires ones { AreOnes b.now ones.now }
    ensures { result ≡ true → IsCalm model.now b.now r.now }
{
    if !is_packing_row(r) {
        return false;
    }
    leaves_out(model, r, ones)
}
