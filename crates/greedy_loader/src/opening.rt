//! Whether a place is open for a container.
ghost use Rattle.std.specs.Prelude.{◌≡◌, ◌↔◌, ◌⊎◌, ◌+◌, ◌<◌, ◌≤◌, ℕ, Bool, IsTrue, Some, length, slice_get};
ghost use Rattle.stow_data.specs.declared.cargoes.Container.{Container};
ghost use Rattle.stow_data.specs.declared.geometry.Stack.{Stack};
ghost use Rattle.stow_data.specs.Kinds.{rounded};
ghost use Rattle.stow_data.specs.Ship.{places, LiesUnder};
ghost use Rattle.stowage_rules.specs.Departure.{stack_weight};
ghost use Rattle.voyage_meaning.specs.Moves.{IsBare};
ghost use Rattle.greedy_loader.specs.Rule.{AreSeparated, IsApartBy, IsOpen, IsOpenAt};
ghost use Rattle.greedy_loader.specs.Kept.{IsKept};

use crate::halves::{is_borne, is_empty};
use crate::layout::Layout;
use stow_data::{Cargo, Container, Name, Place, PlaceNo, Plan, Separation, Ship, StackNo, is_near};

/// Whether the stack of a place stays within its limit with one container more.
fn is_within(ship: &Ship, cargo: &Cargo, layout: &Layout, x: &Container, place: &Place) -> bool
    requires kept { IsKept ship.now cargo.now layout.now }
    requires inside { place.now.stack < length ship.now.stacks }
    requires kg { x.now.kg ≤ 99999 }
    ensures { IsTrue result ↔ ((stack : Stack) → slice_get ship.now.stacks place.now.stack ≡ Some stack → stack_weight ship.now cargo.now layout.now.plan place.now.stack + rounded ship.now.weight_step x.now.kg ≤ stack.limit_kg) }
{
    let weight = *layout.weights.at(place.stack.0 as usize);
    let limit = u64::from(ship.stack(place.stack).limit_kg);
    weight <= limit && u64::from(ship.rounded(x.kg)) <= limit - weight
}

/// Whether nothing stands on a cover over a stack.
fn is_uncovered(ship: &Ship, cargo: &Cargo, layout: &Layout, s: StackNo) -> bool
    requires { IsKept ship.now cargo.now layout.now }
    ensures { IsTrue result ↔ ((k : ℕ) → LiesUnder ship.now s k → IsBare ship.now layout.now.plan k) }
{
    match ship.cover_over(s) {
        None => true,
        Some(k) => !*layout.laden.at(k.0 as usize),
    }
}

/// Whether a container is of a class.
fn has_class(x: &Container, class: &Name) -> bool
    ensures { IsTrue result ↔ (x.now.class ≡ Some class.now) }
{
    match &x.class {
        Some(own) => own == class,
        None => false,
    }
}

/// Whether a separation names the classes of two containers, in either order.
fn are_separated(rule: &Separation, x: &Container, y: &Container) -> bool
    ensures { IsTrue result ↔ AreSeparated rule.now x.now y.now }
{
    (has_class(x, &rule.a) && has_class(y, &rule.b))
        || (has_class(x, &rule.b) && has_class(y, &rule.a))
}

/// Whether a separation names the class of a container.
fn names_class(rule: &Separation, x: &Container) -> bool
    ensures { IsTrue result ↔ ((x.now.class ≡ Some rule.now.a) ⊎ (x.now.class ≡ Some rule.now.b)) }
{
    has_class(x, &rule.a) || has_class(x, &rule.b)
}

/// Whether a separation keeps a container, at a place, from what stands at another. Classes are compared only where the
/// places are near, since names cost more.
fn is_apart_by(
    ship: &Ship,
    cargo: &Cargo,
    plan: &Plan,
    x: &Container,
    place: &Place,
    q: PlaceNo,
    e: u32,
) -> bool
    requires each_place { length plan.now ≡ length (places ship.now) }
    requires inside { place.now.stack < length ship.now.stacks }
    requires q_in { q < length (places ship.now) }
    requires e_in { e < length ship.now.separations }
    ensures { IsTrue result ↔ IsApartBy ship.now cargo.now plan.now x.now place.now q e }
{
    let rule = ship.separation(e);
    match plan.at(q) {
        None => true,
        Some(d) => {
            if d.0 >= cargo.len() || !is_near(ship, rule.level, place, &ship.place(q)) {
                return true;
            }
            !are_separated(rule, x, cargo.container(d))
        }
    }
}

/// Whether a separation keeps a container, at a place, from all that stands.
fn is_apart_under(
    ship: &Ship,
    cargo: &Cargo,
    layout: &Layout,
    x: &Container,
    place: &Place,
    e: u32,
) -> bool
    requires kept { IsKept ship.now cargo.now layout.now }
    requires inside { place.now.stack < length ship.now.stacks }
    requires e_in { e < length ship.now.separations }
    ensures { IsTrue result ↔ ((q : ℕ) → IsApartBy ship.now cargo.now layout.now.plan x.now place.now q e) }
{
    if !names_class(ship.separation(e), x) {
        return true;
    }
    let plan = &layout.plan;
    layout
        .classed
        .iter()
        .all(|q| is_apart_by(ship, cargo, plan, x, place, *q, e))
}

/// Whether all separations keep a container, at a place, from all that stands.
fn is_apart(ship: &Ship, cargo: &Cargo, layout: &Layout, x: &Container, place: &Place) -> bool
    requires kept { IsKept ship.now cargo.now layout.now }
    requires inside { place.now.stack < length ship.now.stacks }
    ensures { IsTrue result ↔ ((q e : ℕ) → IsApartBy ship.now cargo.now layout.now.plan x.now place.now q e) }
{
    if x.class.is_none() {
        return true;
    }
    (0..ship.separations()).all(|e| is_apart_under(ship, cargo, layout, x, place, e))
}

/// Whether a tier is more than one above another.
fn is_past(tier: u32, top: u32) -> bool
    ensures { IsTrue result ↔ top + 1 < tier }
{
    tier > 0 && tier - 1 > top
}

/// A tier above which nothing stands in a stack.
fn top_of(layout: &Layout, s: StackNo) -> u32
    requires { s < length layout.now.tops }
    ensures { slice_get layout.now.tops s ≡ Some result }
{
    *layout.tops.at(s.0 as usize)
}

/// Whether a place is more than a tier above all that stands in its stack, so that nothing bears what would stand there.
fn is_too_high(ship: &Ship, cargo: &Cargo, layout: &Layout, place: &Place) -> bool
    requires kept { IsKept ship.now cargo.now layout.now }
    requires inside { place.now.stack < length ship.now.stacks }
    ensures { IsTrue result → (x : Container) → IsOpenAt ship.now cargo.now layout.now.plan x place.now → ⊥ }
{
    is_past(place.tier, top_of(layout, place.stack))
}

/// Whether a place is open for none, as a first look tells of most places: something stands there, or it is too high.
fn is_barred(ship: &Ship, cargo: &Cargo, layout: &Layout, p: PlaceNo, place: &Place) -> bool
    requires kept { IsKept ship.now cargo.now layout.now }
    requires at { slice_get (places ship.now) p ≡ Some place.now }
    ensures { IsTrue result → (x : Container) → IsOpenAt ship.now cargo.now layout.now.plan x place.now → ⊥ }
{
    match layout.plan.at(p) {
        Some(_) => true,
        None => is_too_high(ship, cargo, layout, place),
    }
}

/// Whether a place, of a stack that is within its limit, is open for a container.
pub fn is_open_at(
    ship: &Ship,
    cargo: &Cargo,
    layout: &Layout,
    x: &Container,
    p: PlaceNo,
    place: &Place,
) -> bool
    requires kept { IsKept ship.now cargo.now layout.now }
    requires kg { x.now.kg ≤ 99999 }
    requires at { slice_get (places ship.now) p ≡ Some place.now }
    ensures { IsTrue result ↔ IsOpenAt ship.now cargo.now layout.now.plan x.now place.now }
{
    if is_barred(ship, cargo, layout, p, place) {
        return false;
    }
    if !ship.fits(p, x.long, x.reefer) || !is_empty(ship, &layout.plan, p.0, place) {
        return false;
    }
    if !is_borne(ship, cargo, &layout.plan, p.0, place, x.long) {
        return false;
    }
    if !is_within(ship, cargo, layout, x, place) {
        return false;
    }
    if !is_uncovered(ship, cargo, layout, place.stack) {
        return false;
    }
    is_apart(ship, cargo, layout, x, place)
}

/// Whether a place is open for a container.
pub fn is_open(ship: &Ship, cargo: &Cargo, layout: &Layout, x: &Container, p: PlaceNo) -> bool
    requires kept { IsKept ship.now cargo.now layout.now }
    requires kg { x.now.kg ≤ 99999 }
    requires inside { p < length (places ship.now) }
    ensures { IsTrue result ↔ IsOpen ship.now cargo.now layout.now.plan x.now p }
{
    is_open_at(ship, cargo, layout, x, p, &ship.place(p))
}
