//! What fills a half-cell.
ghost use Rattle.std.specs.Prelude.{◌≡◌, ◌↔◌, ◌<◌, ◌≤◌, ℕ, IsTrue, MatchOption, length};
ghost use Rattle.stow_data.specs.Ship.{places, HasHalf, TakesSide};
ghost use Rattle.stowage_rules.specs.Plan.{Fills};
ghost use Rattle.stowage_rules.specs.Departure.{IsTwenty};
ghost use Rattle.stowage_rules.specs.Places.{FillsFrom, IsTaken, IsTakenFrom};

use crate::tiers::{first_of_tier, is_in_tier};
use stow_data::{Cargo, ContainerNo, Half, Length, Place, PlaceNo, Plan, Ship, Span};

/// Whether a span takes the fore (false) or the aft (true) side.
pub fn takes_side(span: Span, aft: bool) -> bool
    ensures { IsTrue result ↔ TakesSide span aft }
{
    match span {
        Span::Fore => !aft,
        Span::Aft => aft,
        Span::Both => true,
    }
}

/// Whether the half-cell is one of the place's.
pub fn has_half(p: Place, h: &Half) -> bool
    ensures { IsTrue result ↔ HasHalf p h.now }
{
    h.stack == p.stack && h.tier == p.tier && takes_side(p.span, h.aft)
}

/// Whether a container of the cargo is a 20-foot one.
pub fn is_twenty(cargo: &Cargo, c: ContainerNo) -> bool
    ensures { IsTrue result ↔ IsTwenty cargo.now c }
{
    c.0 < cargo.len() && cargo.container(c).long == Length::Twenty
}

/// What stands at a place, where the half-cell is one of the place's.
pub fn filler(ship: &Ship, plan: &Plan, p: PlaceNo, h: &Half) -> Option<ContainerNo>
    requires each_place { length plan.now ≡ length (places ship.now) }
    requires inside { p < length (places ship.now) }
    ensures { MatchOption result ((c : ℕ) → FillsFrom ship.now plan.now p h.now c → ⊥) (λ c. FillsFrom ship.now plan.now p h.now c) }
{
    if has_half(ship.place(p), h) {
        plan.at(p)
    } else {
        None
    }
}

/// What fills a half-cell, looked for from a place near it.
pub fn filler_near(ship: &Ship, plan: &Plan, near: u32, h: &Half) -> Option<ContainerNo>
    requires each_place { length plan.now ≡ length (places ship.now) }
    requires inside { near ≤ length (places ship.now) }
    ensures { MatchOption result ((c : ℕ) → Fills ship.now plan.now h.now c → ⊥) (λ c. Fills ship.now plan.now h.now c) }
{
    for p in first_of_tier(ship, near, h.stack, h.tier)..ship.places() {
        if !is_in_tier(&ship.place(PlaceNo(p)), h) {
            return None;
        }
        if let Some(c) = filler(ship, plan, PlaceNo(p), h) {
            return Some(c);
        }
    }
    None
}

/// Whether something fills the half-cell from this place.
fn takes(ship: &Ship, plan: &Plan, h: &Half, p: PlaceNo) -> bool
    requires each_place { length plan.now ≡ length (places ship.now) }
    requires inside { p < length (places ship.now) }
    ensures { IsTrue result ↔ IsTakenFrom ship.now plan.now h.now p }
{
    match filler(ship, plan, p, h) {
        Some(_) => true,
        None => false,
    }
}

/// Whether something fills the half-cell.
pub fn is_taken(ship: &Ship, plan: &Plan, h: &Half) -> bool
    requires { length plan.now ≡ length (places ship.now) }
    ensures { IsTrue result ↔ IsTaken ship.now plan.now h.now }
{
    (0..ship.places()).any(|p| takes(ship, plan, h, PlaceNo(p)))
}
