//! Departures: those that lines tell, and those that the loader makes.
ghost use Rattle.std.specs.Prelude.{◌≡◌, ◌+◌, ◌<◌, ◌^◌, IsTrue, length};
ghost use Rattle.stowage_rules.specs.Plan.{IsWellFormed};
ghost use Rattle.stowage_rules.specs.Departure.{HasArrival};
ghost use Rattle.plan_lifts.specs.Lifted.{ArePlans};
ghost use Rattle.voyage_files.specs.Booked.{IsBooked};

use crate::said::{say, say_call, say_plan, say_rule};
use crate::stop::Stop;
use greedy_loader::load;
use std::alloc::Global;
use stow_data::{Bytes, CallNo, Cargo, ContainerNo, NoMemory, PlaceNo, Plan, PlanList, Ship, Word};
use stowage_rules::{RuleBroken, departure_fault, holds_aboard, is_well_formed};
use voyage_files::BookedVoyage;

/// The place and the container of a word such as `4:0`.
fn pair_of(word: &str) -> Option<(PlaceNo, ContainerNo)> {
    let (place, container) = word.split_once(':')?;
    let p = place.parse::<u32>().ok()?;
    let c = container.parse::<u32>().ok()?;
    Some((PlaceNo(p), ContainerNo(c)))
}

/// Puts the container of such a word at its place.
fn stand(plan: &mut Plan, word: &str) -> Result<(), Stop> {
    let Some((p, c)) = pair_of(word) else {
        return Err(Stop::Unclear);
    };
    if p.0 as usize >= plan.len() {
        return Err(Stop::Unclear);
    }
    plan.set(p, Some(c));
    Ok(())
}

/// The plan of a text with such words.
pub fn plan_of(alloc: Global, ship: &Ship, text: &str) -> Result<Plan, Stop> {
    let mut plan = Plan::empty(alloc, ship)?;
    for word in text.split_whitespace() {
        stand(&mut plan, word)?;
    }
    Ok(plan)
}

/// What stands aboard a booked voyage at arrival is stowed.
pub fn comes_in_stowed(v: &BookedVoyage)
    requires booked { IsBooked v.now }
    ensures { HasArrival v.now.ship v.now.cargo }
{
    let _v = v;
}

/// The departures that lines tell; where there is no line, those that the loader makes, if it makes some.
pub fn departures_of(
    alloc: Global,
    v: &BookedVoyage,
    given: &[Word],
) -> Result<Option<PlanList>, Stop>
    requires { IsBooked v.now }
{
    comes_in_stowed(v);
    if given.is_empty() {
        return Ok(load(alloc, &v.ship, &v.cargo)?);
    }
    let mut plans = PlanList::new(alloc);
    for text in given {
        plans.push(plan_of(alloc, &v.ship, text.as_str())?)?;
    }
    Ok(Some(plans))
}

/// Whether a plan has an entry for each place and is well formed.
pub fn is_sound(ship: &Ship, cargo: &Cargo, plan: &Plan) -> bool
    ensures formed { IsTrue result → IsWellFormed ship.now cargo.now plan.now }
{
    plan.len() == ship.places() as usize && is_well_formed(ship, cargo, plan)
}

/// Whether these are well-formed plans of the calls from one on, of exactly what is aboard after each.
pub fn are_plans(ship: &Ship, cargo: &Cargo, call: CallNo, plans: &[Plan]) -> bool
    requires { call + length plans.now < 2 ^ 32 }
    ensures { IsTrue result → ArePlans ship.now cargo.now call plans.now }
{
    let Some((plan, others)) = plans.split_first() else {
        return true;
    };
    plan.len() == ship.places() as usize
        && is_well_formed(ship, cargo, plan)
        && holds_aboard(ship, cargo, plan, call)
        && are_plans(ship, cargo, CallNo(call.0 + 1), others)
}

/// Prints what the loader makes, once it has made it so many times.
pub fn say_load(
    alloc: Global,
    v: &BookedVoyage,
    times: u32,
    out: &mut Bytes,
) -> Result<(), NoMemory>
    requires { IsBooked v.now }
{
    comes_in_stowed(v);
    for _ in 1..times {
        drop(load(alloc, &v.ship, &v.cargo)?);
    }
    match load(alloc, &v.ship, &v.cargo)? {
        None => say(out, "no plan\n"),
        Some(plans) => say_plans(out, &v.ship, &plans),
    }
}

/// Prints departures, of which the first is that of call 1.
fn say_plans(out: &mut Bytes, ship: &Ship, plans: &PlanList) -> Result<(), NoMemory> {
    let mut call: u32 = 1;
    for plan in plans {
        say_call(out, "departure", CallNo(call))?;
        say_plan(out, ship, plan)?;
        call = call.saturating_add(1);
    }
    Ok(())
}

/// The first fault of a plan, looked for so many times; None also where it isn't well formed, which is said.
fn fault_of(
    ship: &Ship,
    cargo: &Cargo,
    plan: &Plan,
    times: u32,
    out: &mut Bytes,
) -> Result<Option<RuleBroken>, NoMemory> {
    if !is_sound(ship, cargo, plan) {
        say(out, "not well formed\n")?;
        return Ok(None);
    }
    for _ in 1..times {
        let _again = departure_fault(ship, cargo, plan);
    }
    let fault = departure_fault(ship, cargo, plan);
    if fault.is_none() {
        say(out, "all rules hold\n")?;
    }
    Ok(fault)
}

/// Prints the first fault of the departure of a call, if it has one.
pub fn say_fault(
    alloc: Global,
    v: &BookedVoyage,
    call: CallNo,
    plan: &Plan,
    times: u32,
    out: &mut Bytes,
) -> Result<(), NoMemory> {
    match fault_of(&v.ship, &v.cargo, plan, times, out)? {
        None => Ok(()),
        Some(rule) => say_rule(alloc, out, call, rule),
    }
}

/// Prints the first fault of each departure, of which the first is that of call 1.
pub fn say_faults(
    alloc: Global,
    v: &BookedVoyage,
    plans: &PlanList,
    times: u32,
    out: &mut Bytes,
) -> Result<(), NoMemory> {
    let mut call: u32 = 1;
    for plan in plans {
        say_fault(alloc, v, CallNo(call), plan, times, out)?;
        call = call.saturating_add(1);
    }
    Ok(())
}
