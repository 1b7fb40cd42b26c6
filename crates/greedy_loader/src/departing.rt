//! The departures that the rule makes, call by call.
ghost use Rattle.std.specs.Prelude.{◌≡◌, ◌+◌, ◌-◌, ◌≤◌, ◌<◌, IfOk, IfSome, length};
ghost use Rattle.stow_data.specs.Ship.{places};
ghost use Rattle.stowage_rules.specs.Plan.{IsWellFormed};
ghost use Rattle.stowage_rules.specs.Departure.{AreDepartures, HasArrival, HoldsAboard, IsDeparture};
ghost use Rattle.greedy_loader.specs.Calls.{DepartFrom, Departs, Restows};

use crate::boarding::load_all;
use crate::lifted::lifted_at;
use crate::taking_out::staying;
use crate::waiting::quay_of;
use std::alloc::Global;
use stow_data::{CallNo, Cargo, NoMemory, Plan, PlanList, Seq, Ship};
use stowage_rules::departure_fault;

/// The plan that the rule makes of the plan before at a call: what is lifted is taken out, and what is on the quay goes
/// aboard. None where a container finds no open place.
fn restow(
    alloc: Global,
    ship: &Ship,
    cargo: &Cargo,
    call: CallNo,
    before: &Plan,
) -> Result<Option<Plan>, NoMemory>
    requires from { 1 ≤ call }
    requires formed { IsWellFormed ship.now cargo.now before.now }
    requires aboard { HoldsAboard cargo.now (call - 1) before.now }
    ensures restows { IfOk result (λ made. Restows ship.now cargo.now call before.now made) }
    ensures formed { IfOk result (λ made. IfSome made (IsWellFormed ship.now cargo.now)) }
    ensures aboard { IfOk result (λ made. IfSome made (HoldsAboard cargo.now call)) }
{
    cargo.obeys_rules();
    let lifted = lifted_at(alloc, ship, cargo, call, before)?;
    let quay = quay_of(alloc, ship, cargo, call, before, &lifted)?;
    let mut layout = staying(alloc, ship, cargo, before, &lifted)?;
    if load_all(&mut layout, ship, cargo, quay.as_slice())? {
        Ok(Some(layout.plan))
    } else {
        Ok(None)
    }
}

/// The departure that the rule makes of the plan before at a call. None where a container finds no open place, or the
/// plan breaks a rule of departures.
pub fn depart(
    alloc: Global,
    ship: &Ship,
    cargo: &Cargo,
    call: CallNo,
    before: &Plan,
) -> Result<Option<Plan>, NoMemory>
    requires from { 1 ≤ call }
    requires formed { IsWellFormed ship.now cargo.now before.now }
    requires aboard { HoldsAboard cargo.now (call - 1) before.now }
    ensures rule { IfOk result (λ after. Departs ship.now cargo.now call before.now after) }
    ensures legal { IfOk result (λ after. IfSome after (IsDeparture ship.now cargo.now call)) }
{
    let Some(plan) = restow(alloc, ship, cargo, call, before)? else {
        return Ok(None);
    };
    match departure_fault(ship, cargo, &plan) {
        None => Ok(Some(plan)),
        Some(_) => Ok(None),
    }
}

/// The departures of calls 1 to N-1 that the rule makes, beginning with the arrival. None exactly where a container
/// finds no open place, or a plan breaks a rule of departures. The plans are legal departures.
pub fn load(alloc: Global, ship: &Ship, cargo: &Cargo) -> Result<Option<PlanList>, NoMemory>
    requires arrival { HasArrival ship.now cargo.now }
    ensures rule { IfOk result (λ plans. DepartFrom ship.now cargo.now 1 cargo.now.arrival (length cargo.now.rotation - 1) plans) }
    ensures legal { IfOk result (λ plans. IfSome plans (AreDepartures ship.now cargo.now 1)) }
    ensures each_call { IfOk result (λ plans. IfSome plans (λ departures. length departures + 1 ≡ length cargo.now.rotation)) }
{
    let mut plans = Seq::new(alloc);
    let mut before = cargo.arrival().copy(alloc)?;
    for call in 1..cargo.calls() {
        match depart(alloc, ship, cargo, CallNo(call), &before)? {
            None => return Ok(None),
            Some(after) => {
                before = after.copy(alloc)?;
                plans.push(after)?;
            }
        }
    }
    Ok(Some(plans))
}
