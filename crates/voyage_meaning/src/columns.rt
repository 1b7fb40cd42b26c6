//! What stands in the columns of a place: in its own tier, in the one above, and in the one below.
ghost use Rattle.std.specs.Prelude.{◌≡◌, ◌↔◌, ◌≤◌, ◌<◌, ◌-◌, ℕ, IsTrue, MatchOption, Some, length, slice_get};
ghost use Rattle.stow_data.specs.Ship.{halves, places};
ghost use Rattle.stowage_rules.specs.Plan.{Fills};
ghost use Rattle.stowage_rules.specs.Departure.{half_of};
ghost use Rattle.stowage_rules.specs.Faults.{OfHalf};
ghost use Rattle.voyage_meaning.specs.Moves.{Bears};
ghost use Rattle.voyage_meaning.specs.Refusals.{Finds, IsBearing, IsFilledIn, IsWeakBelow};

use crate::numbering::number_of;
use stow_data::{Cargo, ContainerNo, Half, HalfNo, Length, Place, PlaceNo, Plan, Ship};
use stowage_rules::{filler_near, is_twenty, takes_side};

/// The half-cell of a place's stack in a tier, on one side.
fn side_of(place: &Place, tier: u32, aft: bool) -> Half
    ensures { result ≡ half_of place.now.stack tier aft }
{
    Half {
        stack: place.stack,
        tier,
        aft,
    }
}

/// The half-cell on one side of the columns of place `p`, in a tier near it, where it is filled.
fn filled_side(
    ship: &Ship,
    plan: &Plan,
    p: PlaceNo,
    place: &Place,
    tier: u32,
    aft: bool,
) -> Option<HalfNo>
    requires each_place { length plan.now ≡ length (places ship.now) }
    requires inside { p < length (places ship.now) }
    ensures { MatchOption result (IsFilledIn ship.now plan.now place.now tier (half_of place.now.stack tier aft) → ⊥) (λ h. (slice_get (halves ship.now) h ≡ Some (half_of place.now.stack tier aft)) × IsFilledIn ship.now plan.now place.now tier (half_of place.now.stack tier aft)) }
{
    if !takes_side(place.span, aft) {
        return None;
    }
    let half = side_of(place, tier, aft);
    match filler_near(ship, plan, p.0, &half) {
        None => None,
        Some(_) => Some(number_of(ship, &half)),
    }
}

/// The first filled half-cell in the columns of place `p`, in a tier near it.
pub fn first_filled(
    ship: &Ship,
    plan: &Plan,
    p: PlaceNo,
    place: &Place,
    tier: u32,
) -> Option<HalfNo>
    requires each_place { length plan.now ≡ length (places ship.now) }
    requires inside { p < length (places ship.now) }
    ensures { Finds (OfHalf ship.now (IsFilledIn ship.now plan.now place.now tier)) result }
{
    match filled_side(ship, plan, p, place, tier, false) {
        Some(half) => Some(half),
        None => filled_side(ship, plan, p, place, tier, true),
    }
}

/// Whether a container of this length may stand on container `below`.
fn bears(cargo: &Cargo, long: Length, below: ContainerNo) -> bool
    ensures { IsTrue result ↔ Bears cargo.now long below }
{
    match long {
        Length::Forty => true,
        Length::Twenty => is_twenty(cargo, below),
    }
}

/// Whether what fills a half-cell bears a container of this length; looked for from a place near it.
fn is_bearing(
    ship: &Ship,
    cargo: &Cargo,
    plan: &Plan,
    near: PlaceNo,
    long: Length,
    half: &Half,
) -> bool
    requires each_place { length plan.now ≡ length (places ship.now) }
    requires inside { near < length (places ship.now) }
    requires apart { (h : Half) (c d : ℕ) (x : Fills ship.now plan.now h c) (y : Fills ship.now plan.now h d) → x.number ≡ y.number }
    ensures { IsTrue result ↔ IsBearing ship.now cargo.now plan.now long half.now }
{
    match filler_near(ship, plan, near.0, half) {
        None => false,
        Some(c) => bears(cargo, long, c),
    }
}

/// The half-cell directly below one side of place `p`, above the lowest tier, where it doesn't bear a container of
/// this length.
fn weak_side(
    ship: &Ship,
    cargo: &Cargo,
    plan: &Plan,
    p: PlaceNo,
    place: &Place,
    long: Length,
    aft: bool,
) -> Option<HalfNo>
    requires each_place { length plan.now ≡ length (places ship.now) }
    requires is_place { slice_get (places ship.now) p ≡ Some place.now }
    requires above { 1 ≤ place.now.tier }
    requires apart { (h : Half) (c d : ℕ) (x : Fills ship.now plan.now h c) (y : Fills ship.now plan.now h d) → x.number ≡ y.number }
    ensures { MatchOption result (IsWeakBelow ship.now cargo.now plan.now place.now long (half_of place.now.stack (place.now.tier - 1) aft) → ⊥) (λ h. (slice_get (halves ship.now) h ≡ Some (half_of place.now.stack (place.now.tier - 1) aft)) × IsWeakBelow ship.now cargo.now plan.now place.now long (half_of place.now.stack (place.now.tier - 1) aft)) }
{
    if !takes_side(place.span, aft) {
        return None;
    }
    let half = side_of(place, place.tier - 1, aft);
    if is_bearing(ship, cargo, plan, p, long, &half) {
        return None;
    }
    Some(number_of(ship, &half))
}

/// The first half-cell directly below place `p` that doesn't bear a container of this length.
pub fn first_weak_below(
    ship: &Ship,
    cargo: &Cargo,
    plan: &Plan,
    p: PlaceNo,
    place: &Place,
    long: Length,
) -> Option<HalfNo>
    requires each_place { length plan.now ≡ length (places ship.now) }
    requires is_place { slice_get (places ship.now) p ≡ Some place.now }
    requires apart { (h : Half) (c d : ℕ) (x : Fills ship.now plan.now h c) (y : Fills ship.now plan.now h d) → x.number ≡ y.number }
    ensures { Finds (OfHalf ship.now (IsWeakBelow ship.now cargo.now plan.now place.now long)) result }
{
    if place.tier == 0 {
        return None;
    }
    match weak_side(ship, cargo, plan, p, place, long, false) {
        Some(half) => Some(half),
        None => weak_side(ship, cargo, plan, p, place, long, true),
    }
}
