//! Tightening a box by the base rows until none of them forces anything.
ghost use Rattle.std.specs.Prelude.{◌≡◌, ◌≢◌, ℕ, ◌+◌, ◌<◌, ◌≤◌, ◌↔◌, List, [], ◌∷◌, ◌++◌, All, Contains, OnErr, OnOk, cond, nat_eq, true, length, drop, take, pos, ◌-ℤ◌, ◌≤ℤ◌, MatchResult};
ghost use Rattle.std.specs.List.{AllPairs};
ghost use Rattle.proof_trees.specs.Boxes.{most, tight, violated};
ghost use Rattle.zero_one_rows.specs.declared.program.Row.{Row};
ghost use Rattle.zero_one_rows.specs.Variables.{variables};
ghost use Rattle.zero_one_rows.specs.Rows.{base, whole};
ghost use Rattle.zero_one_model.specs.Indexed.{Touches};
ghost use Rattle.partial_plan.specs.Fixing.{Fixes, released};
ghost use Rattle.partial_plan.specs.Packing.{AreOnes};
ghost use Rattle.partial_plan.specs.Stopping.{Stops};
ghost use Rattle.zero_one_rows.specs.Tightening.{IsCalm, IsQuiet};
ghost use Rattle.partial_plan.specs.Tightening.{Tightens};

use crate::forcing::note_all;
use crate::packing::{is_idle, ones_of};
use crate::trail::{UndoList, take_back};
use row_matrix::{base_row, slack_among};
use std::alloc::Global;
use stow_data::{NoMemory, VarNo};
use zero_one_model::{Box01, Model};
use zero_one_rows::{Row, RowList, VarList, rows_are_listed};

/// How tightening ends.
#[derive(Drop)]
pub enum Tightened {
    /// No base row is violated or forces a free variable.
    Quiet,
    /// Nothing in the box meets this base row.
    Violated(Row),
    /// Memory was wanting. The steps up to then stand.
    NoMemory,
}

// What ends tightening before the box is quiet.
#[derive(Drop)]
pub(crate) enum Stop {
    Violated(Row),
    NoMemory,
}

// Appends a row to the steps where variables were fixed past a place of the list; where memory is wanting, it frees them.
fn keep_step(
    b: &mut Box01,
    undo: &mut UndoList,
    steps: &mut RowList,
    r: Row,
    before: usize,
) -> Result<(), NoMemory>
    requires before { before ≤ length undo.old }
    requires inside { All (λ v. v < length b.old) (drop before undo.old) }
    ensures stays { OnOk result ((b.new ≡ b.old) × (undo.new ≡ undo.old)) }
    ensures added { OnOk result (steps.new ≡ steps.old ++ cond (nat_eq (length undo.old) before) [] (r ∷ [])) }
    ensures freed { OnErr result ((b.new ≡ released b.old undo.old before) × (undo.new ≡ take before undo.old)) }
    ensures none { OnErr result (steps.new ≡ steps.old) }
{
    if undo.len() == before {
        return Ok(());
    }
    match steps.push(r) {
        Ok(()) => Ok(()),
        Err(no) => {
            take_back(b, undo, before);
            Err(no)
        }
    }
}

// Fixes all variables that a row with this slack forces, and keeps it as a step where it forced one. Where memory is wanting, all stays as it was.
fn force_by(
    model: &Model,
    b: &mut Box01,
    undo: &mut UndoList,
    steps: &mut RowList,
    r: Row,
    slack: i128,
    vars: &[VarNo],
) -> Result<(), NoMemory>
    requires row { (whole model.now).has r ≡ true }
    requires base { (base model.now).has r ≡ true }
    requires whole { length b.old ≡ length (variables model.now) }
    requires slack { slack ≡ most (whole model.now) b.old r -ℤ (whole model.now).rhs r }
    requires met { pos 0 ≤ℤ slack }
    requires each { (x : ℕ) → Contains vars.now x ↔ Touches model.now r x }
    ensures steps { Tightens model.now b.old b.new steps.old steps.new }
    ensures noted { (xs : List ℕ) × (undo.new ≡ undo.old ++ xs) × Fixes b.old b.new xs }
    ensures calm { OnOk result (steps.new ≡ steps.old → (b.new ≡ b.old) × IsCalm model.now b.old r) }
{
    let before = undo.len();
    match note_all(model, b, undo, &r, slack, vars) {
        Ok(()) => keep_step(b, undo, steps, r, before),
        Err(no) => {
            take_back(b, undo, before);
            Err(no)
        }
    }
}

// Looks at one base row.
fn look(
    alloc: Global,
    model: &Model,
    b: &mut Box01,
    undo: &mut UndoList,
    steps: &mut RowList,
    r: Row,
) -> Result<(), Stop>
    requires row { (whole model.now).has r ≡ true }
    requires base { (base model.now).has r ≡ true }
    requires whole { length b.old ≡ length (variables model.now) }
    ensures steps { Tightens model.now b.old b.new steps.old steps.new }
    ensures noted { (xs : List ℕ) × (undo.new ≡ undo.old ++ xs) × Fixes b.old b.new xs }
    ensures ends { MatchResult result (λ _. steps.new ≡ steps.old → (b.new ≡ b.old) × IsCalm model.now b.old r) (Stops model.now b.new) }
{
    let vars = match model.vars_of(alloc, &r) {
        Ok(vars) => vars,
        Err(_) => return Err(Stop::NoMemory),
    };
    let slack = slack_among(model, b, &r, vars.as_slice());
    if slack < 0 {
        return Err(Stop::Violated(r));
    }
    match force_by(model, b, undo, steps, r, slack, vars.as_slice()) {
        Ok(()) => Ok(()),
        Err(_) => Err(Stop::NoMemory),
    }
}

// The variables that a box has at 1.
fn ones_now(alloc: Global, model: &Model, b: &Box01) -> Result<VarList, Stop>
    requires { length b.now ≡ length (variables model.now) }
    ensures { MatchResult result (AreOnes b.now) (Stops model.now b.now) }
{
    match ones_of(alloc, model, b) {
        Ok(ones) => Ok(ones),
        Err(_) => Err(Stop::NoMemory),
    }
}

// Looks at one base row, unless it is idle. What the box has at 1 follows.
fn visit(
    alloc: Global,
    model: &Model,
    b: &mut Box01,
    undo: &mut UndoList,
    steps: &mut RowList,
    ones: &mut VarList,
    r: Row,
) -> Result<(), Stop>
    requires row { (whole model.now).has r ≡ true }
    requires base { (base model.now).has r ≡ true }
    requires whole { length b.old ≡ length (variables model.now) }
    requires ones { AreOnes b.old ones.old }
    ensures steps { Tightens model.now b.old b.new steps.old steps.new }
    ensures noted { (xs : List ℕ) × (undo.new ≡ undo.old ++ xs) × Fixes b.old b.new xs }
    ensures ones { OnOk result (AreOnes b.new ones.new) }
    ensures ends { MatchResult result (λ _. steps.new ≡ steps.old → (b.new ≡ b.old) × IsCalm model.now b.old r) (Stops model.now b.new) }
{
    if is_idle(model, b, &r, ones.as_slice()) {
        return Ok(());
    }
    let before = undo.len();
    look(alloc, model, b, undo, steps, r)?;
    if undo.len() > before {
        *ones = ones_now(alloc, model, b)?;
    }
    Ok(())
}

// Looks at each base row once.
fn sweep(
    alloc: Global,
    model: &Model,
    b: &mut Box01,
    undo: &mut UndoList,
    steps: &mut RowList,
) -> Result<(), Stop>
    requires whole { length b.old ≡ length (variables model.now) }
    ensures steps { Tightens model.now b.old b.new steps.old steps.new }
    ensures noted { (xs : List ℕ) × (undo.new ≡ undo.old ++ xs) × Fixes b.old b.new xs }
    ensures ends { MatchResult result (λ _. length steps.new ≡ length steps.old → IsQuiet model.now b.new) (Stops model.now b.new) }
{
    rows_are_listed();
    let mut ones = ones_now(alloc, model, b)?;
    for k in 0..model.base_rows() {
        let row = base_row(model, k);
        visit(alloc, model, b, undo, steps, &mut ones, row)?;
    }
    Ok(())
}

/// Tightens a box by base rows until none forces a free variable, or one is violated. Appends the rows that forced one, in order, to `steps`, and what was fixed to `undo`.
pub fn tighten(
    alloc: Global,
    model: &Model,
    b: &mut Box01,
    undo: &mut UndoList,
    steps: &mut RowList,
) -> Tightened
    requires whole { length b.old ≡ length (variables model.now) }
    ensures steps { Tightens model.now b.old b.new steps.old steps.new }
    ensures noted { (xs : List ℕ) × (undo.new ≡ undo.old ++ xs) × Fixes b.old b.new xs }
    ensures quiet { result ≡ Tightened.Quiet → IsQuiet model.now b.new }
    ensures violated { (r : Row) → result ≡ Tightened.Violated r → ((base model.now).has r ≡ true) × (violated (whole model.now) b.new r ≡ true) }
{
    'sweeps: loop {
        let before = steps.len();
        match sweep(alloc, model, b, undo, steps) {
            Ok(()) => {
                if steps.len() == before {
                    return Tightened::Quiet;
                }
            }
            Err(Stop::Violated(r)) => return Tightened::Violated(r),
            Err(Stop::NoMemory) => return Tightened::NoMemory,
        }
    }
}
