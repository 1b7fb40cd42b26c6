//! Lists of crane moves at a call: plain, slow programs.
ghost use Rattle.std.specs.Prelude.{◌≡◌, ◌↔◌, ◌<◌, ◌≤◌, IfOk, IsTrue, MatchOption, MatchResult, All, length, slice_get};
ghost use Rattle.stow_data.specs.Ship.{places};
ghost use Rattle.stowage_rules.specs.Plan.{IsWellFormed};
ghost use Rattle.voyage_meaning.specs.Moves.{Allowed, after, cost_of_move};
ghost use Rattle.voyage_meaning.specs.Voyage.{IsVoyage, LeadsTo, start};
ghost use Rattle.stow_data.specs.Plans as plans;
ghost use Rattle.voyage_meaning.specs.Berths.{BelongsTo};
ghost use Rattle.voyage_meaning.specs.Runs.{EndsAt, LeadsBy, Runs, SailsBy, StopsAt};

use crate::berth::Berth;
use crate::moves::Move;
use std::alloc::Global;
use stow_data::{CallNo, Cargo, NoMemory, PlaceNo, Plan, Seq, Ship};
use stowage_rules::is_departure;

/// Does a move where it is allowed, and says its cost; where it isn't, nothing changes.
fn try_move(berth: &mut Berth, ship: &Ship, cargo: &Cargo, m: &Move) -> Option<u128>
    requires { BelongsTo ship.now cargo.now berth.old.state }
    ensures does { MatchOption result ((Allowed ship.now cargo.now berth.old.state m.now → ⊥) × (berth.new ≡ berth.old)) (λ n. Allowed ship.now cargo.now berth.old.state m.now × (berth.new ≡ record { call = berth.old.call; state = after cargo.now berth.old.call berth.old.state m.now }) × (n ≡ cost_of_move cargo.now berth.old.call berth.old.state m.now) × (n ≤ 1000)) }
    ensures belongs { BelongsTo ship.now cargo.now berth.new.state }
{
    if !berth.has(*m) {
        return None;
    }
    let cost = berth.cost_of(cargo, *m);
    match berth.step(ship, cargo, *m) {
        Ok(()) => Some(cost),
        Err(_) => None,
    }
}

/// Runs a list of moves. Ok has their cost, the price of the call for each lift of a container at a call other than its
/// destination; Err has the index of the first move that isn't allowed, and the state is the one before it.
pub fn run(berth: &mut Berth, ship: &Ship, cargo: &Cargo, moves: &[Move]) -> Result<u128, usize>
    requires { BelongsTo ship.now cargo.now berth.old.state }
    ensures does { MatchResult result (λ n. Runs ship.now cargo.now berth.old.call berth.old.state moves.now berth.new.state n) (λ i. StopsAt ship.now cargo.now berth.old.call berth.old.state moves.now berth.new.state i) }
    ensures belongs { BelongsTo ship.now cargo.now berth.new.state }
{
    let mut cost: u128 = 0;
    for (i, m) in moves.iter().enumerate() {
        match try_move(berth, ship, cargo, m) {
            None => return Err(i),
            Some(more) => cost += more,
        }
    }
    Ok(cost)
}

/// Whether two plans hold the same at a place.
fn is_same_at(a: &Plan, b: &Plan, p: PlaceNo) -> bool
    requires a_in { p < length a.now }
    requires b_in { p < length b.now }
    ensures { IsTrue result ↔ (slice_get a.now p ≡ slice_get b.now p) }
{
    a.at(p) == b.at(p)
}

/// Whether two plans of a ship are the same.
fn is_same(ship: &Ship, a: &Plan, b: &Plan) -> bool
    requires first { length a.now ≡ length (places ship.now) }
    requires second { length b.now ≡ length (places ship.now) }
    ensures { IsTrue result ↔ (a.now ≡ b.now) }
{
    (0..ship.places()).all(|p| is_same_at(a, b, PlaceNo(p)))
}

/// Whether the plan is this one, the quay is empty and all covers are on.
fn ends_at(berth: &Berth, ship: &Ship, cargo: &Cargo, plan: &Plan) -> bool
    requires belongs { BelongsTo ship.now cargo.now berth.now.state }
    requires each_place { length plan.now ≡ length (places ship.now) }
    ensures { IsTrue result ↔ EndsAt ship.now berth.now.state plan.now }
{
    if !is_same(ship, berth.plan(), plan) {
        return false;
    }
    match berth.unfinished() {
        None => true,
        Some(_) => false,
    }
}

/// The cost of the moves at a berth where they lead to this departure, or none where they don't.
fn cost_of_moves(
    berth: &mut Berth,
    ship: &Ship,
    cargo: &Cargo,
    call: CallNo,
    moves: &[Move],
    after: &Plan,
) -> Option<u128>
    requires belongs { BelongsTo ship.now cargo.now berth.old.state }
    requires departs { length after.now ≡ length (places ship.now) }
    ensures { (before : plans.Plan) → berth.old ≡ record { call = call; state = start ship.now cargo.now call before }
        → MatchOption result (LeadsTo ship.now cargo.now call before moves.now after.now → ⊥) (λ n. LeadsBy ship.now cargo.now call before moves.now after.now n) }
{
    match run(berth, ship, cargo, moves) {
        Err(_) => None,
        Ok(cost) => {
            if !ends_at(berth, ship, cargo, after) {
                return None;
            }
            if !is_departure(ship, cargo, after, call) {
                return None;
            }
            Some(cost)
        }
    }
}

/// The cost of a call whose moves lead from one departure to the next, or none where they don't.
pub fn cost_of_call(
    alloc: Global,
    ship: &Ship,
    cargo: &Cargo,
    call: CallNo,
    before: &Plan,
    moves: &[Move],
    after: &Plan,
) -> Result<Option<u128>, NoMemory>
    requires first { IsWellFormed ship.now cargo.now before.now }
    requires second { length after.now ≡ length (places ship.now) }
    ensures { IfOk result (λ o. MatchOption o (LeadsTo ship.now cargo.now call before.now moves.now after.now → ⊥) (λ n. LeadsBy ship.now cargo.now call before.now moves.now after.now n)) }
{
    let plan = before.copy(alloc)?;
    let mut berth = Berth::arrive(alloc, ship, cargo, plan, call)?;
    let cost = cost_of_moves(&mut berth, ship, cargo, call, moves, after);
    drop(berth);
    Ok(cost)
}

/// A list of moves.
pub type MoveList = Seq<Move>;

/// The cost of a voyage from a call on with these departures, or none where it isn't a legal one.
pub fn cost_of_voyage(
    alloc: Global,
    ship: &Ship,
    cargo: &Cargo,
    call: CallNo,
    before: &Plan,
    moves: &[MoveList],
    departures: &[Plan],
) -> Result<Option<u128>, NoMemory>
    requires first { IsWellFormed ship.now cargo.now before.now }
    requires each { All (λ p. length p ≡ length (places ship.now)) departures.now }
    ensures { IfOk result (λ o. MatchOption o (IsVoyage ship.now cargo.now call before.now moves.now departures.now → ⊥) (λ n. SailsBy ship.now cargo.now call before.now moves.now departures.now n)) }
{
    let next = CallNo(call.0.checked_add(1).ok_or(NoMemory)?);
    match (moves.split_first(), departures.split_first()) {
        (None, None) => Ok(Some(0)),
        (Some((first, rest)), Some((after, others))) => {
            match cost_of_call(alloc, ship, cargo, call, before, first.as_slice(), after)? {
                None => Ok(None),
                Some(here) => match cost_of_voyage(alloc, ship, cargo, next, after, rest, others)? {
                    None => Ok(None),
                    Some(later) => Ok(Some(here.checked_add(later).ok_or(NoMemory)?)),
                },
            }
        }
        _ => Ok(None),
    }
}
