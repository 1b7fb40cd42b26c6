//! What is in a place and directly below it, looked for near it.
ghost use Rattle.std.specs.Prelude.{◌≡◌, ◌↔◌, ◌≤◌, Bool, IsTrue, length};
ghost use Rattle.stow_data.specs.Ship.{places};
ghost use Rattle.stowage_rules.specs.Plan.{IsWellFormed};
ghost use Rattle.stowage_rules.specs.Places.{IsTaken};
ghost use Rattle.voyage_meaning.specs.Moves.{Bears};
ghost use Rattle.greedy_loader.specs.Sides.{IsBorneOn, IsEmptyOn};
ghost use Rattle.voyage_meaning.specs.Refusals.{IsBearing};

use stow_data::{Cargo, ContainerNo, Half, Length, Place, Plan, Ship};
use stowage_rules::{filler_near, is_twenty, takes_side};

/// Whether something fills a half-cell, looked for from a place near it.
fn is_filled(ship: &Ship, plan: &Plan, near: u32, half: &Half) -> bool
    requires each_place { length plan.now ≡ length (places ship.now) }
    requires inside { near ≤ length (places ship.now) }
    ensures { IsTrue result ↔ IsTaken ship.now plan.now half.now }
{
    match filler_near(ship, plan, near, half) {
        None => false,
        Some(_) => true,
    }
}

/// Whether nothing is in one side of a place.
fn is_empty_on(ship: &Ship, plan: &Plan, near: u32, place: &Place, aft: bool) -> bool
    requires each_place { length plan.now ≡ length (places ship.now) }
    requires inside { near ≤ length (places ship.now) }
    ensures { IsTrue result ↔ IsEmptyOn ship.now plan.now place.now aft }
{
    let half = Half {
        stack: place.stack,
        tier: place.tier,
        aft,
    };
    !takes_side(place.span, aft) || !is_filled(ship, plan, near, &half)
}

/// Whether nothing is in the half-cells of a place.
pub fn is_empty(ship: &Ship, plan: &Plan, near: u32, place: &Place) -> bool
    requires each_place { length plan.now ≡ length (places ship.now) }
    requires inside { near ≤ length (places ship.now) }
    ensures { IsTrue result ↔ ((side : Bool) → IsEmptyOn ship.now plan.now place.now side) }
{
    is_empty_on(ship, plan, near, place, false) && is_empty_on(ship, plan, near, place, true)
}

/// Whether a container of this length may stand on container `below`.
fn bears(cargo: &Cargo, long: Length, below: ContainerNo) -> bool
    ensures { IsTrue result ↔ Bears cargo.now long below }
{
    match long {
        Length::Forty => true,
        Length::Twenty => is_twenty(cargo, below),
    }
}

/// Whether what fills a half-cell bears a container of this length.
fn is_bearing(ship: &Ship, cargo: &Cargo, plan: &Plan, near: u32, long: Length, half: &Half) -> bool
    requires formed { IsWellFormed ship.now cargo.now plan.now }
    requires inside { near ≤ length (places ship.now) }
    ensures { IsTrue result ↔ IsBearing ship.now cargo.now plan.now long half.now }
{
    match filler_near(ship, plan, near, half) {
        None => false,
        Some(c) => bears(cargo, long, c),
    }
}

/// Whether what is below one side of a place, above the lowest tier, bears a container of this length.
fn is_borne_on(
    ship: &Ship,
    cargo: &Cargo,
    plan: &Plan,
    near: u32,
    place: &Place,
    long: Length,
    aft: bool,
) -> bool
    requires formed { IsWellFormed ship.now cargo.now plan.now }
    requires inside { near ≤ length (places ship.now) }
    ensures { IsTrue result ↔ IsBorneOn ship.now cargo.now plan.now place.now long aft }
{
    if !takes_side(place.span, aft) || place.tier == 0 {
        return true;
    }
    let below = Half {
        stack: place.stack,
        tier: place.tier - 1,
        aft,
    };
    is_bearing(ship, cargo, plan, near, long, &below)
}

/// Whether what is below a place, above the lowest tier, bears a container of this length.
pub fn is_borne(
    ship: &Ship,
    cargo: &Cargo,
    plan: &Plan,
    near: u32,
    place: &Place,
    long: Length,
) -> bool
    requires formed { IsWellFormed ship.now cargo.now plan.now }
    requires inside { near ≤ length (places ship.now) }
    ensures { IsTrue result ↔ ((side : Bool) → IsBorneOn ship.now cargo.now plan.now place.now long side) }
{
    is_borne_on(ship, cargo, plan, near, place, long, false)
        && is_borne_on(ship, cargo, plan, near, place, long, true)
}
