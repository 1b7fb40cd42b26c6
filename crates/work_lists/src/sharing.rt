//! The moves of a call, shared out to cranes.
ghost use Rattle.std.specs.Prelude.{◌≡◌, ◌≤◌, ◌<◌, ◌+◌, ◌-◌, ◌^◌, IfOk, Some, length, slice_get};
ghost use Rattle.stowage_rules.specs.Departure.{HasArrival};
ghost use Rattle.plan_files.specs.Checked.{HasLifts};
ghost use Rattle.work_lists.specs.WorkLists.{IsWorkList, LeadsAt, LiftsLeast, departure_of};

use crate::printing::{shown_rounds, tasks_with};
use crane_lists::{
    containers_of, crane_lists_keep_the_work, least, least_rounds_bound_crane_lists, share,
};
use plan_files::FileSet;
use plan_lifts::{MoveLists, moves_of};
use std::alloc::Global;
use stow_data::{CallNo, Cargo, NoMemory, Plan, Ship};
use stow_report::CraneReport;
use voyage_meaning::MoveList;

/// The departure before a call from 1 on: the arrival before call 1.
fn departure_before<'a>(cargo: &'a Cargo, set: &'a FileSet, call: CallNo) -> &'a Plan
    requires from { 1 ≤ call }
    requires to { call ≤ length set.now.plans }
    ensures { result.now ≡ departure_of cargo.now set.now.plans (call - 1) }
{
    if call.0 == 1 {
        cargo.arrival()
    } else {
        set.plans.at(call.0 as usize - 2)
    }
}

/// The moves of a call, of a voyage from call 1 on.
fn moves_at(voyage: &MoveLists, call: CallNo) -> &MoveList
    requires from { 1 ≤ call }
    requires to { call ≤ length voyage.now }
    ensures { slice_get voyage.now (call - 1) ≡ Some result.now }
{
    voyage.at(call.0 as usize - 1)
}

/// Moves that lead to the departure of a call, shared out to so many cranes.
fn shared_out(
    alloc: Global,
    ship: &Ship,
    cargo: &Cargo,
    set: &FileSet,
    call: CallNo,
    cranes: u32,
    moves: &MoveList,
) -> Result<CraneReport, NoMemory>
    requires from { 1 ≤ call }
    requires to { call ≤ length set.now.plans }
    requires some_crane { 1 ≤ cranes }
    requires leads { LeadsAt ship.now cargo.now set.now.plans call moves.now }
    requires lifts { LiftsLeast ship.now cargo.now set.now.plans call moves.now }
    ensures { IfOk result (IsWorkList ship.now cargo.now set.now.plans call cranes) }
{
    crane_lists_keep_the_work();
    least_rounds_bound_crane_lists();
    if moves.len() > u32::MAX as usize {
        return Err(NoMemory);
    }
    let lifted = containers_of(alloc, departure_before(cargo, set, call), moves)?;
    let rounds = share(alloc, ship, moves, &lifted, cranes)?;
    let tasks = tasks_with(alloc, moves, &lifted)?;
    let shown = shown_rounds(alloc, ship, cargo, tasks.as_slice(), rounds.as_slice())?;
    Ok(CraneReport {
        cranes,
        moves: moves.len() as u32,
        least: least(ship, moves, cranes),
        rounds: shown,
    })
}

/// The work list of a call of the voyage with the departures of a legal file set: the moves of the call that lift what
/// must be lifted, shared out to so many cranes, and the least number of rounds.
pub fn work_list(
    alloc: Global,
    ship: &Ship,
    cargo: &Cargo,
    set: &FileSet,
    call: CallNo,
    cranes: u32,
) -> Result<CraneReport, NoMemory>
    requires arrival { HasArrival ship.now cargo.now }
    requires each_call { length set.now.plans + 1 ≡ length cargo.now.rotation }
    requires lifts { HasLifts ship.now cargo.now set.now.plans set.now.lifted }
    requires from { 1 ≤ call }
    requires to { call ≤ length set.now.plans }
    requires some_crane { 1 ≤ cranes }
    ensures { IfOk result (IsWorkList ship.now cargo.now set.now.plans call cranes) }
{
    let voyage = moves_of(alloc, ship, cargo, &set.plans, &set.lifted)?;
    shared_out(
        alloc,
        ship,
        cargo,
        set,
        call,
        cranes,
        moves_at(&voyage, call),
    )
}
