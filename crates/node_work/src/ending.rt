//! How a node ends, once its box is tightened.
ghost use Rattle.std.specs.Prelude.{◌≡◌, ℕ, ◌+◌, ◌*◌, ◌<◌, ◌≤◌, ◌^◌, All, IfOk, IsSome, List, None, Some, [], ◌∷◌, ◌++◌, length, slice_get, pos, true};
ghost use Rattle.stow_data.specs.Shipment.{IsCargo, most_cost};
ghost use Rattle.proof_trees.specs.Trees.{Pending};
ghost use Rattle.zero_one_rows.specs.declared.program.Row.{Row as Rows};
ghost use Rattle.zero_one_rows.specs.Variables.{variables};
ghost use Rattle.partial_plan.specs.Fixing.{Fixes};
ghost use Rattle.zero_one_rows.specs.Tightening.{IsQuiet};
ghost use Rattle.node_work.specs.DualStates.{IsDualState};
ghost use Rattle.node_work.specs.Starts.{IsTight, HasSteps, IsAfterSteps};
ghost use Rattle.node_solver.specs.Work.{Works};

use crate::choosing::{first_free, planned_or};
use crate::dual_state::DualState;
use certificate::{End, Record};
use dual_bound::{Raised, RowTable};
use heuristic::{HeuristicLimits, Planner};
use node_solver::Worked;
use partial_plan::{KeptBox, Tightened, cost_of};
use std::alloc::Global;
use stow_data::{NoMemory, VarNo};
use zero_one_model::{Box01, Model};
use zero_one_rows::{Raise, RaiseList, Row, RowList, rows_are_listed};

// 16 times the most that a voyage needs to cost, and 1: a violated row raised by this closes at every cut.
fn closing_amount(most_cost: u64) -> i64
    requires { 16 * most_cost + 1 ≤ 2 ^ 40 }
    ensures { result ≡ pos (16 * most_cost + 1) }
{
    (16 * most_cost + 1) as i64
}

/// The least cost that a dual value allows: a sixteenth of it, rounded up.
pub fn least_cost(value: i128) -> u64 {
    u64::try_from(value.saturating_add(15) / 16).unwrap_or(0)
}

// The leaf of a box in which a row is violated: that row is raised from zero, once.
#[tactic(auto, using(crate::proofs::Ends::cost_low))]
fn violated_leaf(alloc: Global, model: &Model, steps: RowList, row: Row) -> Result<Record, NoMemory>
    requires { IsCargo model.now.cargo }
    ensures { IfOk result (λ r. r ≡ record { from_zero = true; steps = steps; raises = record { row = row; amount = pos (16 * most_cost model.now.cargo + 1) } ∷ []; end = End.Leaf }) }
{
    let mut raises = RaiseList::new(alloc);
    raises.push(Raise {
        row,
        amount: closing_amount(model.limit()),
    })?;
    Record::of(alloc, true, steps, raises, End::Leaf)
}

// Ends a node whose box is full: its leaf closes from zero at what the box costs.
fn end_full(
    alloc: Global,
    model: &Model,
    b: &Box01,
    steps: RowList,
    cut: u64,
) -> Result<Worked, NoMemory>
    requires vars { length b.now ≡ length (variables model.now) }
    requires full { All IsSome b.now }
    requires quiet { IsQuiet model.now b.now }
    ensures steps { IfOk result (HasSteps steps) }
    ensures worked { IfOk result (λ w. (q : Pending Rows) (most : ℕ) → IsTight model.now q b.now steps → Works model.now q most cut w) }
{
    rows_are_listed();
    let entry = Record::of(alloc, true, steps, RaiseList::new(alloc), End::Leaf)?;
    let cost = cost_of(model, b);
    if cost < cut {
        let full = b.copy(alloc)?;
        Ok(Worked::Full { entry, full, cost })
    } else {
        Ok(Worked::Closed(entry))
    }
}

// Ends a node whose box has a free variable, of which `first` is the first: by multipliers that close the box, or by two halves.
fn end_open(
    alloc: Global,
    model: &Model,
    table: &RowTable,
    planner: &mut Planner,
    b: &Box01,
    dual_state: &mut DualState,
    steps: RowList,
    first: VarNo,
    most: u32,
    limits: HeuristicLimits,
) -> Result<Worked, NoMemory>
    requires table { table.now ≡ model.now }
    requires vars { length b.now ≡ length (variables model.now) }
    requires dual_state { IsDualState model.now dual_state.old }
    requires quiet { IsQuiet model.now b.now }
    requires inside { first < length (variables model.now) }
    requires free { slice_get b.now first ≡ Some None }
    ensures dual_state { IsDualState model.now dual_state.new }
    ensures steps { IfOk result (HasSteps steps) }
    ensures worked { IfOk result (λ w. (q : Pending Rows) → q.multipliers ≡ dual_state.old.gauge.multipliers → IsTight model.now q b.now steps → Works model.now q most limits.cut w) }
{
    let mut raises = RaiseList::new(alloc);
    dual_state.set_box(model, b);
    match dual_state.raise(alloc, model, table, limits.cut, most, &mut raises) {
        Raised::Reached => {
            let leaf = Record::of(alloc, false, steps, raises, End::Leaf)?;
            Ok(Worked::Closed(leaf))
        }
        Raised::Stuck | Raised::Spent => {
            let enough = least_cost(dual_state.gauge.value());
            let x = planned_or(
                planner,
                model,
                b,
                first,
                HeuristicLimits { enough, ..limits },
            )?;
            let branch = Record::of(alloc, false, steps, raises, End::Branch(model.var(x)))?;
            Ok(Worked::Branched(branch))
        }
        Raised::NoMemory => Err(NoMemory),
    }
}

// Ends a node in whose box no row is violated or forces a variable.
fn end_quiet(
    alloc: Global,
    model: &Model,
    table: &RowTable,
    planner: &mut Planner,
    b: &Box01,
    dual_state: &mut DualState,
    steps: RowList,
    most: u32,
    limits: HeuristicLimits,
) -> Result<Worked, NoMemory>
    requires table { table.now ≡ model.now }
    requires vars { length b.now ≡ length (variables model.now) }
    requires dual_state { IsDualState model.now dual_state.old }
    requires quiet { IsQuiet model.now b.now }
    ensures dual_state { IsDualState model.now dual_state.new }
    ensures steps { IfOk result (HasSteps steps) }
    ensures worked { IfOk result (λ w. (q : Pending Rows) → q.multipliers ≡ dual_state.old.gauge.multipliers → IsTight model.now q b.now steps → Works model.now q most limits.cut w) }
{
    match first_free(model, b) {
        Some(first) => end_open(
            alloc, model, table, planner, b, dual_state, steps, first, most, limits,
        ),
        None => end_full(alloc, model, b, steps, limits.cut),
    }
}

/// Tightens the box of a node, and ends the node. Where that divides the box, it is the box after the record's steps.
pub fn end_box(
    alloc: Global,
    model: &Model,
    table: &RowTable,
    planner: &mut Planner,
    kept: &mut KeptBox,
    dual_state: &mut DualState,
    most: u32,
    limits: HeuristicLimits,
) -> Result<Worked, NoMemory>
    requires table { table.now ≡ model.now }
    requires program { kept.old.voyage ≡ model.now }
    requires cargo { IsCargo model.now.cargo }
    requires dual_state { IsDualState model.now dual_state.old }
    requires some { 1 ≤ most }
    requires cut { limits.cut ≤ most_cost model.now.cargo + 1 }
    ensures dual_state { IsDualState model.now dual_state.new }
    ensures same { kept.new.voyage ≡ kept.old.voyage }
    ensures noted { (xs : List ℕ) × (kept.new.undo ≡ kept.old.undo ++ xs) × Fixes kept.old.known kept.new.known xs }
    ensures tight { IfOk result (IsAfterSteps model.now kept.old.known kept.new.known) }
    ensures worked { IfOk result (Works model.now (record { box = kept.old.known; multipliers = dual_state.old.gauge.multipliers }) most limits.cut) }
{
    let mut steps = RowList::new(alloc);
    match kept.tighten(&mut steps) {
        Tightened::Quiet => {
            kept.is_whole();
            end_quiet(
                alloc,
                model,
                table,
                planner,
                kept.now(),
                dual_state,
                steps,
                most,
                limits,
            )
        }
        Tightened::Violated(row) => {
            let leaf = violated_leaf(alloc, model, steps, row)?;
            Ok(Worked::Closed(leaf))
        }
        Tightened::NoMemory => Err(NoMemory),
    }
}
