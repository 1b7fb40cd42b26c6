//! What one row forces in a box.
ghost use Rattle.std.specs.Prelude.{◌≡◌, ◌≢◌, ℕ, ◌+◌, ◌<◌, ◌≤◌, ◌^◌, ◌↔◌, List, ◌++◌, ◌∷◌, [], cond, true, length, All, OnOk, IfOk, Contains, pos, ◌-ℤ◌, ◌≤ℤ◌, unsigned_abs};
ghost use Rattle.proof_trees.specs.Boxes.{at, fixed, most, violated, tight};
ghost use Rattle.zero_one_rows.specs.Variables.{variables};
ghost use Rattle.zero_one_rows.specs.Rows.{whole};
ghost use Rattle.zero_one_model.specs.Indexed.{Touches};
ghost use Rattle.partial_plan.specs.Fixing.{Fixes};
ghost use Rattle.partial_plan.specs.Forced.{forces, is_above, stepped};

use crate::trail::UndoList;
use row_matrix::{slack_among, slack_of};
use std::alloc::Global;
use stow_data::{NoMemory, VarNo};
use zero_one_model::{Box01, Model};
use zero_one_rows::Row;

/// Whether nothing in a box meets a row. It takes no memory.
pub fn violates(model: &Model, b: &Box01, r: &Row) -> bool
    requires row { (whole model.now).has r.now ≡ true }
    requires whole { length b.now ≡ length (variables model.now) }
    ensures { result ≡ violated (whole model.now) b.now r.now }
{
    slack_of(model, b, r) < 0
}

// Whether a row with this slack forces a variable that is free.
fn is_forced(allowed: Option<bool>, slack: i128, by: i64) -> bool
    ensures { result ≡ forces slack allowed by }
{
    allowed.is_none() && slack < by.unsigned_abs() as i128
}

#[tactic(auto, using(std::proofs::lemmas::Option::get_or_from_slice_get, crate::proofs::Walking::not_stepped))]
// Fixes a variable where a row with this slack forces it.
fn fix_one(model: &Model, b: &mut Box01, r: &Row, slack: i128, x: VarNo)
    requires row { (whole model.now).has r.now ≡ true }
    requires var { x < length (variables model.now) }
    requires whole { length b.old ≡ length (variables model.now) }
    ensures { b.new ≡ stepped slack b.old x ((whole model.now).coef r.now x) }
{
    let by = model.coefficient(r, x);
    if is_forced(b.at(x), slack, by) {
        b.fix(x, by > 0);
    }
}

// Fixes all variables that a row with this slack forces.
fn fix_all(model: &Model, b: &mut Box01, r: &Row, slack: i128)
    requires row { (whole model.now).has r.now ≡ true }
    requires whole { length b.old ≡ length (variables model.now) }
    requires slack { slack ≡ most (whole model.now) b.old r.now -ℤ (whole model.now).rhs r.now }
    requires met { pos 0 ≤ℤ slack }
    ensures { b.new ≡ tight (whole model.now) b.old r.now }
{
    for v in 0..model.vars() {
        fix_one(model, b, r, slack, VarNo(v));
    }
}

#[tactic(auto, using(crate::proofs::Landing::tight_violated))]
/// Fixes all variables that a row forces, at once; a violated row fixes nothing. It takes no memory.
pub fn force(model: &Model, b: &mut Box01, r: &Row)
    requires row { (whole model.now).has r.now ≡ true }
    requires whole { length b.old ≡ length (variables model.now) }
    ensures { b.new ≡ tight (whole model.now) b.old r.now }
{
    let slack = slack_of(model, b, r);
    if slack >= 0 {
        fix_all(model, b, r, slack);
    }
}

#[tactic(auto, using(std::proofs::lemmas::Option::get_or_from_slice_get, crate::proofs::Walking::not_stepped, crate::proofs::Freeing::noted_none))]
// Fixes a variable where a row with this slack forces it, and notes it.
fn note_one(
    model: &Model,
    b: &mut Box01,
    undo: &mut UndoList,
    r: &Row,
    slack: i128,
    x: VarNo,
) -> Result<(), NoMemory>
    requires row { (whole model.now).has r.now ≡ true }
    requires var { x < length (variables model.now) }
    requires whole { length b.old ≡ length (variables model.now) }
    ensures stepped { OnOk result (b.new ≡ stepped slack b.old x ((whole model.now).coef r.now x)) }
    ensures noted { (xs : List ℕ) × (undo.new ≡ undo.old ++ xs) × Fixes b.old b.new xs }
{
    let by = model.coefficient(r, x);
    if is_forced(b.at(x), slack, by) {
        undo.push(x)?;
        b.fix(x, by > 0);
    }
    Ok(())
}

// Fixes all variables that a row with this slack forces, and notes them.
pub(crate) fn note_all(
    model: &Model,
    b: &mut Box01,
    undo: &mut UndoList,
    r: &Row,
    slack: i128,
    vars: &[VarNo],
) -> Result<(), NoMemory>
    requires row { (whole model.now).has r.now ≡ true }
    requires whole { length b.old ≡ length (variables model.now) }
    requires slack { slack ≡ most (whole model.now) b.old r.now -ℤ (whole model.now).rhs r.now }
    requires met { pos 0 ≤ℤ slack }
    requires each { (x : ℕ) → Contains vars.now x ↔ Touches model.now r.now x }
    ensures tight { OnOk result (b.new ≡ tight (whole model.now) b.old r.now) }
    ensures noted { (xs : List ℕ) × (undo.new ≡ undo.old ++ xs) × Fixes b.old b.new xs }
{
    for x in vars {
        note_one(model, b, undo, r, slack, *x)?;
    }
    Ok(())
}

#[tactic(auto, using(crate::proofs::Landing::tight_violated, crate::proofs::Freeing::noted_none))]
/// Fixes all variables that a row forces, at once, and notes what was fixed; a violated row fixes nothing.
pub fn tighten_by(
    alloc: Global,
    model: &Model,
    b: &mut Box01,
    undo: &mut UndoList,
    r: &Row,
) -> Result<(), NoMemory>
    requires row { (whole model.now).has r.now ≡ true }
    requires whole { length b.old ≡ length (variables model.now) }
    ensures tight { OnOk result (b.new ≡ tight (whole model.now) b.old r.now) }
    ensures noted { (xs : List ℕ) × (undo.new ≡ undo.old ++ xs) × Fixes b.old b.new xs }
{
    let vars = model.vars_of(alloc, r)?;
    let slack = slack_among(model, b, r, vars.as_slice());
    if slack >= 0 {
        note_all(model, b, undo, r, slack, vars.as_slice())?;
    }
    Ok(())
}
