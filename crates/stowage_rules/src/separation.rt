//! Separations of dangerous goods.
ghost use Rattle.std.specs.Prelude.{◌≡◌, ◌<◌, ℕ, MatchOption, Some, length, slice_get};
ghost use Rattle.stow_data.specs.declared.geometry.Place.{Place};
ghost use Rattle.stow_data.specs.Ship.{places};
ghost use Rattle.stow_data.specs.Near.{near};
ghost use Rattle.stowage_rules.specs.Faults.{AreFirstNear, AreTooNear, IsFirstUnseparated, IsLeast, IsUnseparated};
ghost use Rattle.stowage_rules.specs.Places.{AreOfClass};

use crate::classes::{has_class, places_of_class};
use stow_data::{Cargo, PlaceNo, Plan, Separation, Ship, is_near};

/// Whether two places are near by the level of a separation.
fn are_near(ship: &Ship, level: u32, p: PlaceNo, q: PlaceNo) -> bool
    requires p_in { p < length (places ship.now) }
    requires q_in { q < length (places ship.now) }
    ensures { (first second : Place) → slice_get (places ship.now) p ≡ Some first → slice_get (places ship.now) q ≡ Some second → result ≡ near ship.now level first second }
{
    is_near(ship, level, &ship.place(p), &ship.place(q))
}

/// The first place, of those at which containers of the second class of a separation stand, that is too near to a place.
fn first_near_to(
    ship: &Ship,
    cargo: &Cargo,
    plan: &Plan,
    rule: &Separation,
    p: PlaceNo,
    of_second: &[u32],
) -> Option<PlaceNo>
    requires each_place { length plan.now ≡ length (places ship.now) }
    requires inside { p < length (places ship.now) }
    requires gathered { AreOfClass cargo.now plan.now rule.now.b (length (places ship.now)) of_second.now }
    ensures { MatchOption result ((q : ℕ) → AreTooNear ship.now cargo.now plan.now rule.now p q → ⊥) (λ q. IsLeast (AreTooNear ship.now cargo.now plan.now rule.now p) q) }
{
    if !has_class(cargo, plan, p, &rule.a) {
        return None;
    }
    let first = of_second
        .iter()
        .find(|q| are_near(ship, rule.level, p, PlaceNo(**q)))?;
    Some(PlaceNo(*first))
}

/// The first two places that are too near, against a separation.
fn first_near(
    ship: &Ship,
    cargo: &Cargo,
    plan: &Plan,
    rule: &Separation,
) -> Option<(PlaceNo, PlaceNo)>
    requires { length plan.now ≡ length (places ship.now) }
    ensures { MatchOption result ((p q : ℕ) → AreTooNear ship.now cargo.now plan.now rule.now p q → ⊥) (λ pair. AreFirstNear ship.now cargo.now plan.now rule.now pair) }
{
    let of_second = places_of_class(ship, cargo, plan, &rule.b);
    for p in 0..ship.places() {
        let nearest = first_near_to(ship, cargo, plan, rule, PlaceNo(p), of_second.as_slice());
        if let Some(q) = nearest {
            return Some((PlaceNo(p), q));
        }
    }
    None
}

/// The first separation that a plan doesn't keep, by its index from 0, and the first two places that are too near.
pub fn first_unseparated(ship: &Ship, cargo: &Cargo, plan: &Plan) -> Option<(u32, PlaceNo, PlaceNo)>
    requires { length plan.now ≡ length (places ship.now) }
    ensures { MatchOption result ((e p q : ℕ) → IsUnseparated ship.now cargo.now plan.now e p q → ⊥) (λ found. IsFirstUnseparated ship.now cargo.now plan.now found) }
{
    for e in 0..ship.separations() {
        if let Some((p, q)) = first_near(ship, cargo, plan, ship.separation(e)) {
            return Some((e, p, q));
        }
    }
    None
}
