//! Weights of stacks.
ghost use Rattle.std.specs.Prelude.{◌≡◌, ◌<◌, ◌≤◌, ℕ, Option, MatchOption, Some, length, slice_get};
ghost use Rattle.stow_data.specs.Kinds.{rounded};
ghost use Rattle.stow_data.specs.Ship.{places};
ghost use Rattle.stowage_rules.specs.Departure.{stack_weight, weight_in};
ghost use Rattle.stowage_rules.specs.Tiers.{IsFirstOf};
ghost use Rattle.stowage_rules.specs.Faults.{IsOverweight, IsFirstHeavy};

use crate::tiers::{first_of_tier, is_in_stack};
use stow_data::{Cargo, Place, PlaceNo, Plan, Ship, StackNo};

/// A weight of at most 99,999 kilograms rounded up to a step of at most 10,000.
fn rounded_weight(step: u32, kg: u32) -> u64
    requires step_from { 1 ≤ step }
    requires step_to { step ≤ 10000 }
    requires kg_to { kg ≤ 99999 }
    ensures value { result ≡ rounded step kg }
    ensures small { result ≤ 110000 }
{
    let step = u64::from(step);
    step * ((u64::from(kg) + step - 1) / step)
}

/// The rounded weight of what stands at a place, where that is in the stack.
fn weight_at(ship: &Ship, cargo: &Cargo, plan: &Plan, s: StackNo, p: PlaceNo) -> u64
    requires each_place { length plan.now ≡ length (places ship.now) }
    requires inside { p < length (places ship.now) }
    ensures value { (place : Place) (o : Option ℕ) → slice_get (places ship.now) p ≡ Some place → slice_get plan.now p ≡ Some o → result ≡ weight_in ship.now.weight_step cargo.now s (place, o) }
    ensures small { result ≤ 110000 }
{
    ship.obeys_rules();
    cargo.obeys_rules();
    if ship.place(p).stack != s {
        return 0;
    }
    match plan.at(p) {
        Some(c) if c.0 < cargo.len() => rounded_weight(ship.weight_step(), cargo.container(c).kg),
        _ => 0,
    }
}

/// The sum of the rounded weights in a stack, in kilograms; its first place has the number `from`.
fn weight_of_stack(ship: &Ship, cargo: &Cargo, plan: &Plan, s: StackNo, from: u32) -> u64
    requires each_place { length plan.now ≡ length (places ship.now) }
    requires inside { from ≤ length (places ship.now) }
    requires first { IsFirstOf ship.now s 0 from }
    ensures { result ≡ stack_weight ship.now cargo.now plan.now s }
{
    let mut total: u64 = 0;
    for p in from..ship.places() {
        if !is_in_stack(&ship.place(PlaceNo(p)), s) {
            return total;
        }
        total += weight_at(ship, cargo, plan, s, PlaceNo(p));
    }
    total
}

/// The first stack that is heavier than its limit, and its weight in kilograms.
pub fn first_heavy(ship: &Ship, cargo: &Cargo, plan: &Plan) -> Option<(StackNo, u64)>
    requires { length plan.now ≡ length (places ship.now) }
    ensures { MatchOption result ((s kg : ℕ) → IsOverweight ship.now cargo.now plan.now s kg → ⊥) (λ found. IsFirstHeavy ship.now cargo.now plan.now found) }
{
    let mut from = 0;
    for s in 0..ship.stacks() {
        from = first_of_tier(ship, from, StackNo(s), 0);
        let kg = weight_of_stack(ship, cargo, plan, StackNo(s), from);
        if kg > u64::from(ship.stack(StackNo(s)).limit_kg) {
            return Some((StackNo(s), kg));
        }
    }
    None
}
