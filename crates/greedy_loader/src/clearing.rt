//! Whether a place is clean for a destination.
ghost use Rattle.std.specs.Prelude.{◌≡◌, ◌↔◌, ◌<◌, ◌≤◌, ℕ, IsTrue, Some, length, slice_get};
ghost use Rattle.stow_data.specs.Ship.{places, StandsOn};
ghost use Rattle.stow_data.specs.Near.{has_column_in_common};
ghost use Rattle.greedy_loader.specs.Rule.{IsClean, IsCleanAt, IsLowerThan, NoneEarlierAt, NoneEarlierUnder};
ghost use Rattle.greedy_loader.specs.Kept.{IsKept};

use crate::layout::Layout;
use crate::opening::is_open_at;
use stow_data::{CallNo, Cargo, Container, Place, PlaceNo, Plan, Ship, Span, StackNo};

/// Whether two places of a stack have a column in common.
fn shares_column(a: Span, b: Span) -> bool
    ensures { result ≡ has_column_in_common a b }
{
    match (a, b) {
        (Span::Fore, Span::Aft) => false,
        (Span::Aft, Span::Fore) => false,
        _ => true,
    }
}

/// Whether two places are in one stack.
fn is_same_stack(a: &Place, b: &Place) -> bool
    ensures { IsTrue result ↔ (a.now.stack ≡ b.now.stack) }
{
    a.stack == b.stack
}

/// Whether a call isn't past another one.
fn is_not_past(call: CallNo, other: CallNo) -> bool
    ensures { IsTrue result ↔ (call ≤ other) }
{
    call <= other
}

/// Whether a place is lower in a column of another.
fn is_lower_than(lower: &Place, upper: &Place) -> bool
    ensures { IsTrue result ↔ IsLowerThan lower.now upper.now }
{
    lower.stack == upper.stack && lower.tier < upper.tier && shares_column(upper.span, lower.span)
}

/// Whether what stands at a place, if it is lower in a column of another one, doesn't leave before a call.
fn is_none_earlier_at(
    ship: &Ship,
    cargo: &Cargo,
    plan: &Plan,
    call: CallNo,
    place: &Place,
    q: PlaceNo,
) -> bool
    requires each_place { length plan.now ≡ length (places ship.now) }
    requires inside { q < length (places ship.now) }
    ensures { IsTrue result ↔ NoneEarlierAt ship.now cargo.now plan.now call place.now q }
{
    match plan.at(q) {
        None => true,
        Some(d) => {
            if d.0 >= cargo.len() || !is_lower_than(&ship.place(q), place) {
                return true;
            }
            call <= cargo.container(d).dest
        }
    }
}

/// Whether nothing lower in the columns of a place leaves before a call.
fn is_clean_below(
    ship: &Ship,
    cargo: &Cargo,
    plan: &Plan,
    call: CallNo,
    p: PlaceNo,
    place: &Place,
) -> bool
    requires each_place { length plan.now ≡ length (places ship.now) }
    requires at { slice_get (places ship.now) p ≡ Some place.now }
    ensures { IsTrue result ↔ ((q : ℕ) → NoneEarlierAt ship.now cargo.now plan.now call place.now q) }
{
    for steps in 0..p.0 {
        let q = PlaceNo(p.0 - 1 - steps);
        if !is_same_stack(&ship.place(q), place) {
            return true;
        }
        if !is_none_earlier_at(ship, cargo, plan, call, place, q) {
            return false;
        }
    }
    true
}

/// Whether nothing under a cover on which a stack stands leaves before a call.
fn is_clean_under(ship: &Ship, cargo: &Cargo, layout: &Layout, call: CallNo, s: StackNo) -> bool
    requires kept { IsKept ship.now cargo.now layout.now }
    requires call { call ≤ length cargo.now.rotation }
    ensures { IsTrue result ↔ ((k : ℕ) → StandsOn ship.now s k → NoneEarlierUnder ship.now cargo.now layout.now.plan call k) }
{
    match ship.cover_under(s) {
        None => true,
        Some(k) => is_not_past(call, *layout.earliest.at(k.0 as usize)),
    }
}

/// Whether a place is clean for a destination.
fn is_clean_at(
    ship: &Ship,
    cargo: &Cargo,
    layout: &Layout,
    dest: CallNo,
    p: PlaceNo,
    place: &Place,
) -> bool
    requires kept { IsKept ship.now cargo.now layout.now }
    requires dest { dest ≤ length cargo.now.rotation }
    requires at { slice_get (places ship.now) p ≡ Some place.now }
    ensures { IsTrue result ↔ IsCleanAt ship.now cargo.now layout.now.plan dest place.now }
{
    is_clean_below(ship, cargo, &layout.plan, dest, p, place)
        && is_clean_under(ship, cargo, layout, dest, place.stack)
}

/// Whether a place is open and clean for a container.
pub fn is_clean(ship: &Ship, cargo: &Cargo, layout: &Layout, x: &Container, p: PlaceNo) -> bool
    requires kept { IsKept ship.now cargo.now layout.now }
    requires kg { x.now.kg ≤ 99999 }
    requires dest { x.now.dest ≤ length cargo.now.rotation }
    requires inside { p < length (places ship.now) }
    ensures { IsTrue result ↔ IsClean ship.now cargo.now layout.now.plan x.now p }
{
    let place = ship.place(p);
    is_open_at(ship, cargo, layout, x, p, &place)
        && is_clean_at(ship, cargo, layout, x.dest, p, &place)
}
