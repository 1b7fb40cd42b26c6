//! Which rows a program has.
ghost use Rattle.std.specs.Prelude.{◌≡◌, ◌+◌, ◌<◌, ◌&&◌, ◌==◌, None, nat_lt, nat_le, nat_eq, length, slice_index_or};
ghost use Rattle.std.specs.List.{list_any};
ghost use Rattle.stow_data.specs.Ship.{halves, places};
ghost use Rattle.stow_data.specs.Near.{near};
ghost use Rattle.zero_one_rows.specs.Variables.{Voyage, all_kinds, kind, place};
ghost use Rattle.zero_one_rows.specs.Rows.{has, is_filled as is_filled_of, is_call as is_call_of, is_half, is_place, half, stack, separation, cover_joins};

use crate::coefficients::{half_at, kind_at, place_at, separation_at, stack_at};
use crate::crossing::is_crossing;
use crate::program::Row;
use stow_data::{
    CallNo, Cargo, Cover, CoverNo, Half, HalfNo, KindNo, Kinds, PlaceNo, Ship, StackList, StackNo,
    is_near,
};

/// Whether rows speak of the call: one but the last.
fn is_call(cargo: &Cargo, call: CallNo) -> bool
    ensures { result ≡ (nat_lt 0 call && nat_lt call (length cargo.now.rotation)) }
{
    0 < call.0 && call.0 < cargo.calls()
}

/// Whether containers of the kind are on their way after the call.
fn is_running(kinds: &Kinds, call: CallNo, g: KindNo) -> bool
    ghost m: { Voyage }
    requires { kinds.now.list ≡ all_kinds m }
    ensures { result ≡ (nat_lt g (length (all_kinds m)) && (nat_le (kind m g).first call && nat_lt call (kind m g).dest)) }
{
    if g.0 >= kinds.len() {
        return false;
    }
    let kind = kind_at(kinds, g);
    kind.first.0 <= call.0 && call.0 < kind.dest.0
}

/// Whether a container stands at the place at arrival.
#[tactic(auto, using(std::proofs::lemmas::Option::get_or_from_slice_get))]
fn is_filled(cargo: &Cargo, p: PlaceNo) -> bool
    ensures { result ≡ is_filled_of (slice_index_or cargo.now.arrival p None) }
{
    let arrival = cargo.arrival();
    if p.0 as usize >= arrival.len() {
        return false;
    }
    arrival.at(p).is_some()
}

/// Whether the half-cell has one below.
fn has_below(ship: &Ship, h: HalfNo) -> bool
    ghost m: { Voyage }
    requires { ship.now ≡ m.ship }
    ensures { result ≡ (is_half m h && nat_lt 0 (half m h).tier) }
{
    if h.0 >= ship.halves() {
        return false;
    }
    half_at(ship, h).tier > 0
}

/// Whether a tier of a stack has one above.
fn is_under(tiers: u32, tier: u32) -> bool
    ensures { result ≡ nat_lt (tier + 1) tiers }
{
    tiers > 0 && tier < tiers - 1
}

/// Whether the half-cell has one above.
fn has_above(ship: &Ship, h: HalfNo) -> bool
    ghost m: { Voyage }
    requires { ship.now ≡ m.ship }
    ensures { result ≡ (is_half m h && nat_lt ((half m h).tier + 1) (stack m (half m h).stack).tiers) }
{
    if h.0 >= ship.halves() {
        return false;
    }
    let half = half_at(ship, h);
    is_under(stack_at(ship, half.stack).tiers, half.tier)
}

fn names(stacks: &StackList, s: StackNo) -> bool
    ensures { result ≡ list_any (nat_eq s) stacks.now }
{
    stacks.as_slice().iter().any(|t| s == *t)
}

/// Whether one stack lies under the cover and the other stands on it.
fn lies_between(cover: &Cover, s: StackNo, t: StackNo) -> bool
    ensures { result ≡ (list_any (nat_eq s) cover.now.under && list_any (nat_eq t) cover.now.on) }
{
    names(&cover.under, s) && names(&cover.on, t)
}

/// Whether one stack lies under a cover on which the other stands.
fn are_joined(ship: &Ship, s: StackNo, t: StackNo) -> bool
    ensures { result ≡ cover_joins ship.now.covers s t }
{
    (0..ship.covers()).any(|c| lies_between(ship.cover(CoverNo(c)), s, t))
}

/// Whether a half-cell lies under a cover on which the other is the lowest of its column.
fn has_hatch(ship: &Ship, h: HalfNo, d: HalfNo) -> bool
    ghost m: { Voyage }
    requires { ship.now ≡ m.ship }
    ensures { result ≡ (is_half m h && (is_half m d && (((half m d).tier == 0) && cover_joins m.ship.covers (half m h).stack (half m d).stack))) }
{
    if h.0 >= ship.halves() {
        return false;
    }
    if d.0 >= ship.halves() {
        return false;
    }
    let lowest = half_at(ship, d);
    lowest.tier == 0 && are_joined(ship, half_at(ship, h).stack, lowest.stack)
}

/// Whether two places are near by a level.
fn are_near(ship: &Ship, level: u32, p: PlaceNo, q: PlaceNo) -> bool
    ghost m: { Voyage }
    requires { ship.now ≡ m.ship }
    ensures { result ≡ (is_place m p && (is_place m q && near m.ship level (place m p) (place m q))) }
{
    if p.0 >= ship.places() {
        return false;
    }
    if q.0 >= ship.places() {
        return false;
    }
    is_near(ship, level, &place_at(ship, p), &place_at(ship, q))
}

/// Whether two places are near by a separation.
fn has_apart(ship: &Ship, index: u32, p: PlaceNo, q: PlaceNo) -> bool
    ghost m: { Voyage }
    requires { ship.now ≡ m.ship }
    ensures { result ≡ (nat_lt index (length m.ship.separations) && (is_place m p && (is_place m q && near m.ship (separation m index).level (place m p) (place m q)))) }
{
    if index >= ship.separations() {
        return false;
    }
    are_near(ship, separation_at(ship, index).level, p, q)
}

/// Whether the program of a voyage has this row.
pub fn has_row(ship: &Ship, cargo: &Cargo, kinds: &Kinds, row: &Row) -> bool
    ghost m: { Voyage }
    requires ship { ship.now ≡ m.ship }
    requires cargo { cargo.now ≡ m.cargo }
    requires kinds { kinds.now.list ≡ all_kinds m }
    ensures { result ≡ has m row.now }
{
    match row {
        Row::Flow { q, call, kind } => {
            *q < 2 && (is_call(cargo, *call) && is_running(kinds, *call, *kind))
        }
        Row::Start { q, place } => *q < 2 && is_filled(cargo, *place),
        Row::Cell { call, half } => is_call(cargo, *call) && half.0 < ship.halves(),
        Row::Support { call, half } | Row::Twenty { call, half } => {
            is_call(cargo, *call) && has_below(ship, *half)
        }
        Row::Block { call, half } => is_call(cargo, *call) && has_above(ship, *half),
        Row::Hatch {
            w,
            call,
            half,
            lowest,
        } => *w < 2 && (is_call(cargo, *call) && has_hatch(ship, *half, *lowest)),
        Row::Weight { call, stack } => is_call(cargo, *call) && stack.0 < ship.stacks(),
        Row::Apart {
            call,
            index,
            first,
            second,
        } => is_call(cargo, *call) && has_apart(ship, *index, *first, *second),
        Row::Cross {
            length,
            price,
            chain,
        } => is_crossing(ship, cargo, *length, *price, chain),
    }
}
