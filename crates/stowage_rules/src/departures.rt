//! Departures: plain, slow tests of a plan.
ghost use Rattle.std.specs.Prelude.{◌≡◌, ◌↔◌, ◌<◌, ℕ, IsTrue, length};
ghost use Rattle.stow_data.specs.Ship.{places};
ghost use Rattle.stowage_rules.specs.Plan.{Holds, IsWellFormed};
ghost use Rattle.stowage_rules.specs.Departure.{HoldsAboard, IsDeparture};
ghost use Rattle.stowage_rules.specs.Places.{AboardAt, FitsAt, IsSomewhere, StandsAlone, StandsAloneAt};

use crate::faults::departure_fault;
use stow_data::{CallNo, Cargo, ContainerNo, PlaceNo, Plan, Ship, shares_half};

/// Whether what stands at a place is a container of the cargo whose length fits there.
fn fits_at(ship: &Ship, cargo: &Cargo, plan: &Plan, p: PlaceNo) -> bool
    requires each_place { length plan.now ≡ length (places ship.now) }
    requires inside { p < length (places ship.now) }
    ensures { IsTrue result ↔ FitsAt ship.now cargo.now plan.now p }
{
    match plan.at(p) {
        None => true,
        Some(c) => {
            if c.0 >= cargo.len() {
                return false;
            }
            ship.fits(p, cargo.container(c).long, false)
        }
    }
}

/// Whether what stands at each place is a container of the cargo whose length fits there.
fn all_fit(ship: &Ship, cargo: &Cargo, plan: &Plan) -> bool
    requires { length plan.now ≡ length (places ship.now) }
    ensures { IsTrue result ↔ ((n : ℕ) → FitsAt ship.now cargo.now plan.now n) }
{
    (0..ship.places()).all(|p| fits_at(ship, cargo, plan, PlaceNo(p)))
}

/// Whether two places, if they aren't one, hold different containers and have no half-cell in common where both are filled.
fn stands_alone(ship: &Ship, plan: &Plan, p: PlaceNo, q: PlaceNo) -> bool
    requires each_place { length plan.now ≡ length (places ship.now) }
    requires p_in { p < length (places ship.now) }
    requires q_in { q < length (places ship.now) }
    ensures { IsTrue result ↔ StandsAlone ship.now plan.now p q }
{
    if p == q {
        return true;
    }
    match (plan.at(p), plan.at(q)) {
        (Some(c), Some(d)) => c != d && !shares_half(&ship.place(p), &ship.place(q)),
        _ => true,
    }
}

/// Whether a place is so beside all others.
fn stands_alone_at(ship: &Ship, plan: &Plan, p: PlaceNo) -> bool
    requires each_place { length plan.now ≡ length (places ship.now) }
    requires inside { p < length (places ship.now) }
    ensures { IsTrue result ↔ StandsAloneAt ship.now plan.now p }
{
    (0..ship.places()).all(|q| stands_alone(ship, plan, p, PlaceNo(q)))
}

/// Whether each place is so beside all others.
fn all_stand_alone(ship: &Ship, plan: &Plan) -> bool
    requires { length plan.now ≡ length (places ship.now) }
    ensures { IsTrue result ↔ ((n : ℕ) → StandsAloneAt ship.now plan.now n) }
{
    (0..ship.places()).all(|p| stands_alone_at(ship, plan, PlaceNo(p)))
}

/// Whether a plan with an entry for each place is well formed.
pub fn is_well_formed(ship: &Ship, cargo: &Cargo, plan: &Plan) -> bool
    requires { length plan.now ≡ length (places ship.now) }
    ensures { IsTrue result ↔ IsWellFormed ship.now cargo.now plan.now }
{
    all_fit(ship, cargo, plan) && all_stand_alone(ship, plan)
}

/// Whether a container stands at this place.
fn holds(plan: &Plan, p: PlaceNo, c: ContainerNo) -> bool
    requires { p < length plan.now }
    ensures { IsTrue result ↔ Holds plan.now p c }
{
    plan.at(p) == Some(c)
}

/// Whether a container stands somewhere.
fn is_somewhere(ship: &Ship, plan: &Plan, c: ContainerNo) -> bool
    requires { length plan.now ≡ length (places ship.now) }
    ensures { IsTrue result ↔ IsSomewhere plan.now c }
{
    (0..ship.places()).any(|p| holds(plan, PlaceNo(p), c))
}

/// Whether a container stands somewhere exactly where it is aboard after the call.
fn aboard_at(ship: &Ship, cargo: &Cargo, plan: &Plan, call: CallNo, c: ContainerNo) -> bool
    requires each_place { length plan.now ≡ length (places ship.now) }
    requires inside { c < length cargo.now.containers }
    ensures { IsTrue result ↔ AboardAt cargo.now call plan.now c }
{
    is_somewhere(ship, plan, c) == cargo.container(c).is_aboard(call)
}

/// Whether a plan holds exactly the containers that are aboard after the call.
pub fn holds_aboard(ship: &Ship, cargo: &Cargo, plan: &Plan, call: CallNo) -> bool
    requires { length plan.now ≡ length (places ship.now) }
    ensures { IsTrue result ↔ HoldsAboard cargo.now call plan.now }
{
    (0..cargo.len()).all(|c| aboard_at(ship, cargo, plan, call, ContainerNo(c)))
}

/// Whether a plan is a legal departure of the call.
pub fn is_departure(ship: &Ship, cargo: &Cargo, plan: &Plan, call: CallNo) -> bool
    requires { length plan.now ≡ length (places ship.now) }
    ensures { IsTrue result ↔ IsDeparture ship.now cargo.now call plan.now }
{
    if !is_well_formed(ship, cargo, plan) {
        return false;
    }
    if !holds_aboard(ship, cargo, plan, call) {
        return false;
    }
    match departure_fault(ship, cargo, plan) {
        None => true,
        Some(_) => false,
    }
}
