//! The solution of a voyage's departures.
ghost use Rattle.std.specs.Prelude.{◌≡◌, ◌<◌, ◌≤◌, [], ℕ, IfOk, length, slice_index_or};
ghost use Rattle.stow_data.specs.Plans.{held};
ghost use Rattle.stowage_rules.specs.Plan.{Holds};
ghost use Rattle.voyage_meaning.specs.Voyage.{HasCost};
ghost use Rattle.plan_lifts.specs.Lifted.{IsLifted};
ghost use Rattle.zero_one_rows.specs.Variables.{variables, var};
ghost use Rattle.model_bridge.specs.Laws.{IsProblem};
ghost use Rattle.model_bridge.specs.Sailed.{IsFull, BreaksNone};
ghost use Rattle.model_bridge.specs.Pairs.{each_kind};
ghost use Rattle.model_bridge.specs.Stays.{begin_in, is_of, is_run, is_stay, IsWithin};
ghost use Rattle.model_bridge.specs.Assigned.{AreStays, BreaksNoRow, Costs, IsBoxOf};

use crate::begins::{BeginTable, begin_table, plan_after};
use crate::pairs::{KindList, box_kinds};
use crossing_law::crossing_rows_hold;
use plan_lifts::Lifted;
use std::alloc::Global;
use stow_data::{CallNo, Cargo, KindNo, NoMemory, PlaceNo, Plan, PlanList, Ship, VarNo};
use zero_one_model::{Box01, Model};
use zero_one_rows::Var;

/// Whether a container of the kind stands at a place.
fn is_of_kind(kinds: &KindList, plan: &Plan, p: PlaceNo, kind: KindNo) -> bool
    requires place { p < length plan.now }
    requires known { (c : ℕ) → Holds plan.now p c → c < length kinds.now }
    ensures { result ≡ is_of (λ c. slice_index_or kinds.now c 0) kind (held plan.now p) }
{
    match plan.at(p) {
        Some(c) => *kinds.at(c.0 as usize) == kind,
        None => false,
    }
}

/// Where the stay at a place after a call began.
fn begin_in(table: &BeginTable, call: CallNo, p: PlaceNo) -> CallNo
    requires call { call < length table.now }
    requires place { p < length (slice_index_or table.now call []) }
    ensures { result ≡ begin_in table.now call p }
{
    *table.at(call.0 as usize).at(p.0 as usize)
}

/// Whether a run of departures begins where the variable is put, and ends where it is lifted.
fn is_run(table: &BeginTable, x: &Var) -> bool
    requires order { x.now.put < x.now.lifted }
    requires call { x.now.lifted ≤ length table.now }
    requires place { (i : ℕ) → i < length table.now → x.now.place < length (slice_index_or table.now i []) }
    ensures { result ≡ is_run (length table.now) (begin_in table.now) x.now }
{
    if begin_in(table, CallNo(x.lifted.0 - 1), x.place) != x.put {
        return false;
    }
    x.lifted.0 as usize == table.len() || begin_in(table, x.lifted, x.place) == x.lifted
}

/// Whether the variable is a stay of a container of its kind.
fn is_stay(cargo: &Cargo, kinds: &KindList, plans: &PlanList, table: &BeginTable, x: &Var) -> bool
    requires within { IsWithin cargo.now kinds.now plans.now table.now x.now }
    ensures { result ≡ is_stay cargo.now kinds.now plans.now (length table.now) (begin_in table.now) x.now }
{
    if !is_run(table, x) {
        return false;
    }
    is_of_kind(kinds, plan_after(cargo, plans, x.put), x.place, x.kind)
}

/// The box that fixes each variable by whether it is a stay.
fn box_of_stays(
    alloc: Global,
    cargo: &Cargo,
    model: &Model,
    kinds: &KindList,
    plans: &PlanList,
    table: &BeginTable,
) -> Result<Box01, NoMemory>
    requires within { (v : ℕ) → v < length (variables model.now) → IsWithin cargo.now kinds.now plans.now table.now (var model.now v) }
    ensures { IfOk result (IsBoxOf model.now (λ v. is_stay cargo.now kinds.now plans.now (length table.now) (begin_in table.now) (var model.now v))) }
{
    let mut full = Box01::free(alloc, model)?;
    for v in 0..model.vars() {
        let one = is_stay(cargo, kinds, plans, table, &model.var(VarNo(v)));
        full.fix(VarNo(v), one);
    }
    Ok(full)
}

/// The solution, where the kinds of the containers are at hand.
fn assigned(
    alloc: Global,
    ship: &Ship,
    cargo: &Cargo,
    model: &Model,
    kinds: &KindList,
    plans: &PlanList,
    lifted: &Lifted,
) -> Result<Box01, NoMemory>
    requires kinds { kinds.now ≡ each_kind model.now }
    requires ship { model.now.ship ≡ ship.now }
    requires cargo { model.now.cargo ≡ cargo.now }
    requires problem { IsProblem model.now }
    requires lists { IsLifted ship.now cargo.now plans.now lifted.now.lists }
    requires costs { HasCost ship.now cargo.now plans.now lifted.now.cost }
    ensures stays { IfOk result (AreStays model.now plans.now lifted.now.lists) }
    ensures full { IfOk result (IsFull model.now) }
    ensures base_rows { IfOk result (BreaksNone model.now) }
    ensures rows { IfOk result (BreaksNoRow model.now) }
    ensures cost { IfOk result (λ full. Costs model.now full lifted.now.cost) }
{
    let table = begin_table(alloc, ship, cargo, plans, &lifted.lists)?;
    crossing_rows_hold();
    let full = box_of_stays(alloc, cargo, model, kinds, plans, &table);
    drop(table);
    full
}

/// The solution of a voyage's departures: a full box that breaks no row and costs what they cost.
///
/// A variable is 1 where a container of its kind stands at its place from the departure of the call at which it is put
/// to the call at which it is lifted, and isn't lifted between. It takes time linear in places times calls, and
/// variables.
pub fn assignment_of(
    alloc: Global,
    ship: &Ship,
    cargo: &Cargo,
    model: &Model,
    plans: &PlanList,
    lifted: &Lifted,
) -> Result<Box01, NoMemory>
    requires ship { model.now.ship ≡ ship.now }
    requires cargo { model.now.cargo ≡ cargo.now }
    requires problem { IsProblem model.now }
    requires lists { IsLifted ship.now cargo.now plans.now lifted.now.lists }
    requires costs { HasCost ship.now cargo.now plans.now lifted.now.cost }
    ensures stays { IfOk result (AreStays model.now plans.now lifted.now.lists) }
    ensures full { IfOk result (IsFull model.now) }
    ensures base_rows { IfOk result (BreaksNone model.now) }
    ensures rows { IfOk result (BreaksNoRow model.now) }
    ensures cost { IfOk result (λ full. Costs model.now full lifted.now.cost) }
{
    let kinds = box_kinds(alloc, ship, cargo, model)?;
    let full = assigned(alloc, ship, cargo, model, &kinds, plans, lifted);
    drop(kinds);
    full
}
