//! What stands on a hatch cover.
ghost use Rattle.std.specs.Prelude.{◌≡◌, ◌↔◌, ◌≤◌, ◌<◌, ℕ, IsTrue, Contains, MatchOption, length};
ghost use Rattle.stow_data.specs.Ship.{places};
ghost use Rattle.stowage_rules.specs.Faults.{OfHalf};
ghost use Rattle.voyage_meaning.specs.Refusals.{Finds, IsOnCover};
ghost use Rattle.voyage_meaning.specs.Stacks.{IsFilledOn, IsFilledOnAny, lesser};

use crate::numbering::first_of_stack;
use stow_data::{CoverNo, Half, HalfNo, Lengths, Plan, Ship, StackNo};
use stowage_rules::{first_of_tier, is_filled};

/// The number of a place near the first one of a stack: that place, by its bay, row and tier number.
fn place_near(ship: &Ship, s: StackNo) -> u32
    requires { s < length ship.now.stacks }
    ensures { result ≤ length (places ship.now) }
{
    ship.obeys_rules();
    let stack = ship.stack(s);
    let bay = match stack.lengths {
        Lengths::Forty => stack.bay,
        Lengths::Twenty | Lengths::Mixed | Lengths::ForeOnly => stack.bay - 1,
        Lengths::AftOnly => stack.bay + 1,
    };
    match ship.place_of_number(bay, stack.row, stack.lowest) {
        Some(p) => p.0,
        None => 0,
    }
}

/// Whether a half-cell is in the stack.
fn is_of(half: &Half, stack: StackNo) -> bool
    ensures { IsTrue result ↔ (half.now.stack ≡ stack) }
{
    half.stack == stack
}

/// The first filled half-cell of a stack.
fn first_in_stack(ship: &Ship, plan: &Plan, stack: StackNo) -> Option<HalfNo>
    requires each_place { length plan.now ≡ length (places ship.now) }
    requires is_stack { stack < length ship.now.stacks }
    ensures { Finds (OfHalf ship.now (IsFilledOn ship.now plan.now stack)) result }
{
    let mut near = place_near(ship, stack);
    for h in first_of_stack(ship, stack)..ship.halves() {
        let half = ship.half(HalfNo(h));
        if !is_of(&half, stack) {
            return None;
        }
        near = first_of_tier(ship, near, stack, half.tier);
        if is_filled(ship, plan, near, &half) {
            return Some(HalfNo(h));
        }
    }
    None
}

/// The lesser of two numbers, where there are two.
fn lesser_of(a: Option<HalfNo>, b: Option<HalfNo>) -> Option<HalfNo>
    ensures { result ≡ lesser a b }
{
    match (a, b) {
        (Some(x), Some(y)) => Some(if x <= y { x } else { y }),
        (Some(x), None) => Some(x),
        (None, b) => b,
    }
}

/// The first filled half-cell of these stacks.
fn first_on_stacks(ship: &Ship, plan: &Plan, stacks: &[StackNo]) -> Option<HalfNo>
    requires each_place { length plan.now ≡ length (places ship.now) }
    requires are_stacks { (s : ℕ) → Contains stacks.now s → s < length ship.now.stacks }
    ensures { Finds (OfHalf ship.now (IsFilledOnAny ship.now plan.now stacks.now)) result }
{
    let mut first = None;
    for stack in stacks {
        first = lesser_of(first, first_in_stack(ship, plan, *stack));
    }
    first
}

/// The first filled half-cell of the stacks on a cover.
pub fn first_standing(ship: &Ship, plan: &Plan, k: CoverNo) -> Option<HalfNo>
    requires each_place { length plan.now ≡ length (places ship.now) }
    requires is_cover { k < length ship.now.covers }
    ensures { Finds (OfHalf ship.now (IsOnCover ship.now plan.now k)) result }
{
    ship.obeys_rules();
    first_on_stacks(ship, plan, ship.cover(k).on.as_slice())
}
