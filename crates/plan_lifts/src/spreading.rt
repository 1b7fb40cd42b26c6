//! How a set of filled places spreads: upward, then from the hold onto the covers that must open. Each is one pass: what is above a place has a greater number, and what is above a place on a cover stands on the cover too.
ghost use Rattle.std.specs.Prelude.{◌≡◌, ◌↔◌, ◌<◌, ◌⊎◌, ℕ, true, IfOk, IsTrue, length};
ghost use Rattle.stow_data.specs.Ship.{places};
ghost use Rattle.plan_lifts.specs.Least.{IsFilled, IsOver};
ghost use Rattle.plan_lifts.specs.Spread.{has, IsAbove, IsAboveOne, IsFar, IsLeastSpread, IsLeastUpward, IsOnOpened, IsOpened, IsOpenedBy, OpensUnder, SharesSide};

use std::alloc::Global;
use stow_data::{FlagList, NoMemory, Place, PlaceNo, Plan, Seq, Ship, Span};

/// Adds a number to a set where that is asked.
pub fn add_where(set: &mut FlagList, n: u32, also: bool)
    requires { n < length set.old }
    ensures adds { (q : ℕ) → (has set.new q ≡ true) ↔ ((has set.old q ≡ true) ⊎ ((q ≡ n) × (also ≡ true))) }
    ensures each_flag { length set.new ≡ length set.old }
{
    let was = *set.at(n as usize);
    set.set(n as usize, was || also);
}

/// Whether two spans have a side in common.
fn shares_side(a: Span, b: Span) -> bool
    ensures { IsTrue result ↔ SharesSide a b }
{
    match a {
        Span::Fore => b != Span::Aft,
        Span::Aft => b != Span::Fore,
        Span::Both => true,
    }
}

/// Whether a place has a half-cell directly above one of another place.
fn is_over(ship: &Ship, p: PlaceNo, q: PlaceNo) -> bool
    requires upper { p < length (places ship.now) }
    requires lower { q < length (places ship.now) }
    ensures { IsTrue result ↔ IsOver ship.now p q }
{
    let upper = ship.place(p);
    let lower = ship.place(q);
    upper.stack == lower.stack
        && upper.tier.saturating_sub(lower.tier) == 1
        && shares_side(upper.span, lower.span)
}

/// Whether a place is directly above another one, which is of the set.
fn is_above(ship: &Ship, set: &FlagList, p: PlaceNo, q: PlaceNo) -> bool
    requires each_flag { length set.now ≡ length (places ship.now) }
    requires upper { p < length (places ship.now) }
    requires lower { q < length (places ship.now) }
    ensures { IsTrue result ↔ IsAbove ship.now (has set.now) p q }
{
    *set.at(q.0 as usize) && is_over(ship, p, q)
}

/// Whether the lower of two places is in another stack or more than a tier below.
fn is_far(upper: &Place, lower: &Place) -> bool
    ensures { IsTrue result ↔ IsFar upper.now lower.now }
{
    lower.stack != upper.stack || upper.tier.saturating_sub(lower.tier) > 1
}

/// Whether a place is directly above one of the set. It looks at the few places before it alone.
fn has_below(ship: &Ship, set: &FlagList, p: PlaceNo) -> bool
    requires each_flag { length set.now ≡ length (places ship.now) }
    requires inside { p < length (places ship.now) }
    ensures { IsTrue result ↔ ((q : ℕ) × IsAbove ship.now (has set.now) p q) }
{
    let upper = ship.place(p);
    let before = p.0;
    for steps in 0..before {
        let q = PlaceNo(before - steps - 1);
        if is_far(&upper, &ship.place(q)) {
            return false;
        }
        if is_above(ship, set, p, q) {
            return true;
        }
    }
    false
}

/// Whether something stands at a place directly above one of the set.
fn is_above_one(ship: &Ship, plan: &Plan, set: &FlagList, p: PlaceNo) -> bool
    requires each_place { length plan.now ≡ length (places ship.now) }
    requires each_flag { length set.now ≡ length (places ship.now) }
    requires inside { p < length (places ship.now) }
    ensures { IsTrue result ↔ IsAboveOne ship.now plan.now (has set.now) p }
{
    match plan.at(p) {
        None => false,
        Some(_) => has_below(ship, set, p),
    }
}

/// Adds what stands above a place of the set.
fn spread_up(ship: &Ship, plan: &Plan, set: &mut FlagList)
    requires each_place { length plan.now ≡ length (places ship.now) }
    requires each_flag { length set.old ≡ length (places ship.now) }
    ensures least { IsLeastUpward ship.now plan.now (has set.old) (has set.new) }
    ensures each_flag { length set.new ≡ length (places ship.now) }
{
    for p in 0..ship.places() {
        let also = is_above_one(ship, plan, set, PlaceNo(p));
        add_where(set, p, also);
    }
}

/// Opens the cover over a place of the set.
fn open_over(ship: &Ship, set: &FlagList, p: PlaceNo, opened: &mut FlagList)
    requires each_flag { length set.now ≡ length (places ship.now) }
    requires inside { p < length (places ship.now) }
    requires each_cover { length opened.old ≡ length ship.now.covers }
    ensures opens { (k : ℕ) → (has opened.new k ≡ true) ↔ ((has opened.old k ≡ true) ⊎ IsOpenedBy ship.now (has set.now) p k) }
    ensures each_cover { length opened.new ≡ length ship.now.covers }
{
    if !*set.at(p.0 as usize) {
        return;
    }
    if let Some(k) = ship.cover_over(ship.place(p).stack) {
        opened.set(k.0 as usize, true);
    }
}

/// The covers that must open for the places of a set.
pub fn covers_opened(alloc: Global, ship: &Ship, set: &FlagList) -> Result<FlagList, NoMemory>
    requires { length set.now ≡ length (places ship.now) }
    ensures opens { IfOk result (λ opened. (k : ℕ) → (has opened k ≡ true) ↔ IsOpened ship.now (has set.now) k) }
    ensures each_cover { IfOk result (λ opened. length opened ≡ length ship.now.covers) }
{
    let mut opened = Seq::filled(alloc, false, ship.covers() as usize)?;
    for p in 0..ship.places() {
        open_over(ship, set, PlaceNo(p), &mut opened);
    }
    Ok(opened)
}

/// Whether a place is on a cover that opens.
fn opens_under(ship: &Ship, opened: &FlagList, p: PlaceNo) -> bool
    requires each_cover { length opened.now ≡ length ship.now.covers }
    requires inside { p < length (places ship.now) }
    ensures { IsTrue result ↔ OpensUnder ship.now (has opened.now) p }
{
    match ship.cover_under(ship.place(p).stack) {
        None => false,
        Some(k) => *opened.at(k.0 as usize),
    }
}

/// Whether something stands at a place on a cover that opens.
fn is_on_opened(ship: &Ship, plan: &Plan, opened: &FlagList, p: PlaceNo) -> bool
    requires each_place { length plan.now ≡ length (places ship.now) }
    requires each_cover { length opened.now ≡ length ship.now.covers }
    requires inside { p < length (places ship.now) }
    ensures { IsTrue result ↔ IsOnOpened ship.now plan.now (has opened.now) p }
{
    match plan.at(p) {
        None => false,
        Some(_) => opens_under(ship, opened, p),
    }
}

/// Adds what stands on the covers that open.
pub fn add_on_opened(ship: &Ship, plan: &Plan, opened: &FlagList, set: &mut FlagList)
    requires each_place { length plan.now ≡ length (places ship.now) }
    requires each_cover { length opened.now ≡ length ship.now.covers }
    requires each_flag { length set.old ≡ length (places ship.now) }
    ensures adds { (p : ℕ) → (has set.new p ≡ true) ↔ ((has set.old p ≡ true) ⊎ IsOnOpened ship.now plan.now (has opened.now) p) }
    ensures each_flag { length set.new ≡ length (places ship.now) }
{
    for p in 0..ship.places() {
        let also = is_on_opened(ship, plan, opened, PlaceNo(p));
        add_where(set, p, also);
    }
}

/// Spreads a set of filled places, the seeds, over a plan: the least set that holds them, with each place of it every filled place directly above, and with each place under a hatch cover every filled place on that cover. It takes time linear in the places.
pub fn spread(
    alloc: Global,
    ship: &Ship,
    plan: &Plan,
    seeds: FlagList,
) -> Result<FlagList, NoMemory>
    requires each_place { length plan.now ≡ length (places ship.now) }
    requires each_flag { length seeds ≡ length (places ship.now) }
    requires filled { IsFilled plan.now (has seeds) }
    ensures least { IfOk result (λ set. IsLeastSpread ship.now plan.now (has seeds) (has set)) }
    ensures filled { IfOk result (λ set. IsFilled plan.now (has set)) }
    ensures each_flag { IfOk result (λ set. length set ≡ length (places ship.now)) }
{
    let mut set = seeds;
    spread_up(ship, plan, &mut set);
    let opened = covers_opened(alloc, ship, &set)?;
    add_on_opened(ship, plan, &opened, &mut set);
    ship.obeys_rules();
    Ok(set)
}
