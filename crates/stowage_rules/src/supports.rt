//! What stands on what: the first half-cell without support, and the first 20-foot container on a 40-foot one.
ghost use Rattle.std.specs.Prelude.{◌≡◌, ◌↔◌, ◌≤◌, ◌-◌, ℕ, IsTrue, MatchOption, length};
ghost use Rattle.stow_data.specs.Ship.{places};
ghost use Rattle.stowage_rules.specs.Plan.{IsWellFormed};
ghost use Rattle.stowage_rules.specs.Departure.{half_of, IsTwenty};
ghost use Rattle.stowage_rules.specs.Places.{IsTaken};
ghost use Rattle.stowage_rules.specs.Faults.{IsLeast, IsTwentyOnForty, IsUnsupported, OfHalf};

use crate::half_cells::{filler_near, is_twenty};
use crate::tiers::first_of_tier;
use stow_data::{Cargo, ContainerNo, Half, HalfNo, Plan, Ship};

/// The half-cell directly below one that isn't in the lowest tier.
fn half_below(half: &Half) -> Half
    requires { 1 ≤ half.now.tier }
    ensures { result ≡ half_of half.now.stack (half.now.tier - 1) half.now.aft }
{
    Half {
        stack: half.stack,
        tier: half.tier - 1,
        aft: half.aft,
    }
}

/// Whether something fills a half-cell, looked for from a place near it.
pub fn is_filled(ship: &Ship, plan: &Plan, near: u32, half: &Half) -> bool
    requires each_place { length plan.now ≡ length (places ship.now) }
    requires inside { near ≤ length (places ship.now) }
    ensures { IsTrue result ↔ IsTaken ship.now plan.now half.now }
{
    match filler_near(ship, plan, near, half) {
        None => false,
        Some(_) => true,
    }
}

/// Whether a half-cell is filled and the one below it isn't.
fn is_unsupported(ship: &Ship, plan: &Plan, near: u32, half: &Half) -> bool
    requires each_place { length plan.now ≡ length (places ship.now) }
    requires inside { near ≤ length (places ship.now) }
    ensures { IsTrue result ↔ IsUnsupported ship.now plan.now half.now }
{
    if half.tier == 0 {
        return false;
    }
    match filler_near(ship, plan, near, half) {
        None => false,
        Some(_) => !is_filled(ship, plan, near, &half_below(half)),
    }
}

/// The first half-cell that is filled above one that isn't.
pub fn first_unsupported(ship: &Ship, plan: &Plan) -> Option<HalfNo>
    requires { length plan.now ≡ length (places ship.now) }
    ensures { MatchOption result ((h : ℕ) → OfHalf ship.now (IsUnsupported ship.now plan.now) h → ⊥) (λ h. IsLeast (OfHalf ship.now (IsUnsupported ship.now plan.now)) h) }
{
    let mut near = 0;
    for h in 0..ship.halves() {
        let half = ship.half(HalfNo(h));
        near = first_of_tier(ship, near, half.stack, half.tier);
        if is_unsupported(ship, plan, near, &half) {
            return Some(HalfNo(h));
        }
    }
    None
}

/// Whether the one container is a 20-foot one, and the other isn't.
fn is_alone_twenty(cargo: &Cargo, c: ContainerNo, d: ContainerNo) -> bool
    ensures { IsTrue result ↔ IsTwenty cargo.now c × (IsTwenty cargo.now d → ⊥) }
{
    is_twenty(cargo, c) && !is_twenty(cargo, d)
}

/// Whether a half-cell is filled by a 20-foot container, and the one below it by another.
fn is_twenty_on_forty(ship: &Ship, cargo: &Cargo, plan: &Plan, near: u32, half: &Half) -> bool
    requires formed { IsWellFormed ship.now cargo.now plan.now }
    requires inside { near ≤ length (places ship.now) }
    ensures { IsTrue result ↔ IsTwentyOnForty ship.now cargo.now plan.now half.now }
{
    if half.tier == 0 {
        return false;
    }
    let below = half_below(half);
    match filler_near(ship, plan, near, half) {
        None => false,
        Some(c) => match filler_near(ship, plan, near, &below) {
            None => false,
            Some(d) => is_alone_twenty(cargo, c, d),
        },
    }
}

/// The first half-cell that a 20-foot container fills above one that another fills.
pub fn first_twenty_on_forty(ship: &Ship, cargo: &Cargo, plan: &Plan) -> Option<HalfNo>
    requires { IsWellFormed ship.now cargo.now plan.now }
    ensures { MatchOption result ((h : ℕ) → OfHalf ship.now (IsTwentyOnForty ship.now cargo.now plan.now) h → ⊥) (λ h. IsLeast (OfHalf ship.now (IsTwentyOnForty ship.now cargo.now plan.now)) h) }
{
    let mut near = 0;
    for h in 0..ship.halves() {
        let half = ship.half(HalfNo(h));
        near = first_of_tier(ship, near, half.stack, half.tier);
        if is_twenty_on_forty(ship, cargo, plan, near, &half) {
            return Some(HalfNo(h));
        }
    }
    None
}
