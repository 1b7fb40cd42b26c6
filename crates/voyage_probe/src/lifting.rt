//! What must be lifted on a voyage, and the moves that do it, done at the berths.
ghost use Rattle.std.specs.Prelude.{◌≡◌, ◌+◌, IfOk, IsTrue, length};
ghost use Rattle.stowage_rules.specs.Departure.{HasArrival};
ghost use Rattle.voyage_meaning.specs.Berths.{BelongsTo};
ghost use Rattle.voyage_meaning.specs.Voyage.{HasCost};
ghost use Rattle.plan_lifts.specs.Lifted.{ArePlans, IsLifted};
ghost use Rattle.voyage_files.specs.Booked.{IsBooked};

use crate::berths::{say_move, say_unfinished};
use crate::plans::{are_plans, comes_in_stowed, is_sound};
use crate::said::{say, say_call, say_count, say_number, say_rule};
use plan_lifts::{LiftList, Lifted, LiftsFault, lifts, moves_of};
use std::alloc::Global;
use stow_data::{Bytes, CallNo, Cargo, NoMemory, PlaceNo, Plan, PlanList, Ship};
use voyage_files::BookedVoyage;
use voyage_meaning::{Berth, Move, MoveList};

/// The lifts of departures, computed so many times.
fn lifted_of(
    alloc: Global,
    ship: &Ship,
    cargo: &Cargo,
    plans: &PlanList,
    times: u32,
) -> Result<Lifted, LiftsFault>
    requires arrival { HasArrival ship.now cargo.now }
    requires each_call { length plans.now + 1 ≡ length cargo.now.rotation }
    requires formed { ArePlans ship.now cargo.now 1 plans.now }
    ensures lists { IfOk result (λ lifted. IsLifted ship.now cargo.now plans.now lifted.lists) }
    ensures cost { IfOk result (λ lifted. HasCost ship.now cargo.now plans.now lifted.cost) }
{
    for _ in 1..times {
        drop(lifts(alloc, ship, cargo, plans)?);
    }
    lifts(alloc, ship, cargo, plans)
}

/// Prints the numbers of containers.
fn say_list(out: &mut Bytes, list: &LiftList) -> Result<(), NoMemory> {
    for c in list {
        say_number(out, u64::from(c.0))?;
    }
    say(out, "\n")
}

/// Prints the containers that are lifted at each call, and the cost.
fn say_lifted(out: &mut Bytes, lifted: &Lifted) -> Result<(), NoMemory> {
    let mut call: u32 = 1;
    for list in &lifted.lists {
        say_call(out, "lifted", CallNo(call))?;
        say_list(out, list)?;
        call = call.saturating_add(1);
    }
    say_count(out, "cost", lifted.cost)
}

/// Whether there is a departure of each call but the last, each a well-formed plan of what is aboard.
fn are_departures(ship: &Ship, cargo: &Cargo, plans: &PlanList) -> bool
    ensures each_call { IsTrue result → length plans.now + 1 ≡ length cargo.now.rotation }
    ensures formed { IsTrue result → ArePlans ship.now cargo.now 1 plans.now }
{
    if plans.len() >= 12 {
        return false;
    }
    plans.len() + 1 == cargo.calls() as usize && are_plans(ship, cargo, CallNo(1), plans.as_slice())
}

/// Prints that the departures aren't ones of the cargo.
fn say_none(out: &mut Bytes) -> Result<(), NoMemory> {
    say(out, "no departures of this cargo\n")
}

/// Prints the first departure that breaks a rule.
fn say_no_lifts(alloc: Global, out: &mut Bytes, fault: LiftsFault) -> Result<(), NoMemory> {
    match fault {
        LiftsFault::Illegal { call, rule } => say_rule(alloc, out, call, rule),
        LiftsFault::NoMemory => Err(NoMemory),
    }
}

/// Prints what must be lifted, computed so many times.
pub fn say_lifts(
    alloc: Global,
    v: &BookedVoyage,
    plans: &PlanList,
    times: u32,
    out: &mut Bytes,
) -> Result<(), NoMemory>
    requires { IsBooked v.now }
{
    comes_in_stowed(v);
    if !are_departures(&v.ship, &v.cargo, plans) {
        return say_none(out);
    }
    match lifted_of(alloc, &v.ship, &v.cargo, plans, times) {
        Ok(lifted) => say_lifted(out, &lifted),
        Err(fault) => say_no_lifts(alloc, out, fault),
    }
}

/// The price of the call for a lift of a container at a call other than its destination.
fn cost_by(cargo: &Cargo, berth: &Berth, call: CallNo, m: Move) -> u64 {
    let Move::Lift(p) = m else {
        return 0;
    };
    if p.0 as usize >= berth.plan().len() {
        return 0;
    }
    let Some(c) = berth.plan().at(p) else {
        return 0;
    };
    if c.0 >= cargo.len() || cargo.container(c).dest == call {
        return 0;
    }
    u64::from(cargo.tariff(call))
}

/// Does a move and prints it, and a mark where it is refused; Ok has its cost.
fn sail_move(
    ship: &Ship,
    cargo: &Cargo,
    call: CallNo,
    berth: &mut Berth,
    m: &Move,
    out: &mut Bytes,
) -> Result<u64, NoMemory>
    requires { BelongsTo ship.now cargo.now berth.old.state }
    ensures { BelongsTo ship.now cargo.now berth.new.state }
{
    say_move(out, *m)?;
    let cost = cost_by(cargo, berth, call, *m);
    if !berth.has(*m) {
        say(out, "?")?;
        return Ok(0);
    }
    match berth.step(ship, cargo, *m) {
        Ok(()) => Ok(cost),
        Err(_) => {
            say(out, "!")?;
            Ok(0)
        }
    }
}

/// Does the moves of a call and prints them; Ok has their cost.
fn sail_moves(
    ship: &Ship,
    cargo: &Cargo,
    call: CallNo,
    berth: &mut Berth,
    moves: &MoveList,
    out: &mut Bytes,
) -> Result<u64, NoMemory>
    requires { BelongsTo ship.now cargo.now berth.old.state }
    ensures { BelongsTo ship.now cargo.now berth.new.state }
{
    let mut cost: u64 = 0;
    for m in moves {
        let here = sail_move(ship, cargo, call, berth, m, out)?;
        cost = cost.saturating_add(here);
    }
    Ok(cost)
}

/// Whether two plans have the same at a place.
fn is_same_at(a: &Plan, b: &Plan, p: u32) -> bool {
    if p as usize >= a.len() || p as usize >= b.len() {
        return false;
    }
    a.at(PlaceNo(p)) == b.at(PlaceNo(p))
}

/// Whether two plans of a ship are the same.
fn is_same(ship: &Ship, a: &Plan, b: &Plan) -> bool {
    (0..ship.places()).all(|p| is_same_at(a, b, p))
}

/// Does the moves of a call at a berth, prints them, what is unfinished and whether the departure is the one that is given;
/// Ok has the cost.
fn sail_at(
    ship: &Ship,
    cargo: &Cargo,
    call: CallNo,
    berth: &mut Berth,
    moves: &MoveList,
    after: &Plan,
    out: &mut Bytes,
) -> Result<u64, NoMemory>
    requires { BelongsTo ship.now cargo.now berth.old.state }
{
    let cost = sail_moves(ship, cargo, call, berth, moves, out)?;
    say(
        out,
        if is_same(ship, berth.plan(), after) {
            ", departed, "
        } else {
            ", astray, "
        },
    )?;
    say_unfinished(out, berth.unfinished())?;
    Ok(cost)
}

/// The same at a berth where the call begins with this plan.
fn sail_call(
    alloc: Global,
    v: &BookedVoyage,
    call: CallNo,
    before: &Plan,
    moves: &MoveList,
    after: &Plan,
    out: &mut Bytes,
) -> Result<u64, NoMemory> {
    say_call(out, "call", call)?;
    if !is_sound(&v.ship, &v.cargo, before) {
        say(out, " not well formed\n")?;
        return Ok(0);
    }
    let plan = before.copy(alloc)?;
    let mut berth = Berth::arrive(alloc, &v.ship, &v.cargo, plan, call)?;
    let sailed = sail_at(&v.ship, &v.cargo, call, &mut berth, moves, after, out);
    drop(berth);
    sailed
}

/// Does the moves of each call at its berth, beginning with this plan.
fn sail(
    alloc: Global,
    v: &BookedVoyage,
    before: &Plan,
    voyage: &[MoveList],
    plans: &[Plan],
    out: &mut Bytes,
) -> Result<(), NoMemory> {
    let mut cost: u64 = 0;
    let mut standing = before;
    let mut call = CallNo(1);
    for (moves, after) in voyage.iter().zip(plans) {
        let here = sail_call(alloc, v, call, standing, moves, after, out)?;
        cost = cost.saturating_add(here);
        standing = after;
        call = CallNo(call.0.saturating_add(1));
    }
    say_count(out, "paid", cost)
}

/// Prints the moves of the lifts of departures, which are done at the berths, and what they cost there.
pub fn say_voyage(
    alloc: Global,
    v: &BookedVoyage,
    plans: &PlanList,
    out: &mut Bytes,
) -> Result<(), NoMemory>
    requires { IsBooked v.now }
{
    comes_in_stowed(v);
    if !are_departures(&v.ship, &v.cargo, plans) {
        return say_none(out);
    }
    match lifted_of(alloc, &v.ship, &v.cargo, plans, 1) {
        Ok(lifted) => {
            let voyage = moves_of(alloc, &v.ship, &v.cargo, plans, &lifted)?;
            sail(
                alloc,
                v,
                v.cargo.arrival(),
                voyage.as_slice(),
                plans.as_slice(),
                out,
            )
        }
        Err(fault) => say_no_lifts(alloc, out, fault),
    }
}
