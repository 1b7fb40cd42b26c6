//! The coefficient of a variable in a row, right sides and costs.
ghost use Rattle.std.specs.Prelude.{◌≡◌, ℕ, ◌+◌, ◌<◌, ◌≤◌, ◌^◌, ◌&&◌, ◌==◌, cond, length, ℤ, pos, ◌-ℤ◌, nat_eq, Some};
ghost use Rattle.std.specs.Option.{option_eq};
ghost use Rattle.std.specs.Cmp.Lexicographic.{pointwise};
ghost use Rattle.stow_data.specs.Ship.{halves, places};
ghost use Rattle.proof_trees.specs.Program.{where_set};
ghost use Rattle.zero_one_rows.specs.Variables.{Voyage, all_kinds, var_cost};
ghost use Rattle.zero_one_rows.specs.Rows.{covers, active, ends, half, coef, rhs};
ghost use Rattle.stow_data.specs.Kinds.{AreKinds};
ghost use Rattle.zero_one_rows.specs.Ranges.{InRange};

use crate::coefficients::{
    as_one, half_at, has_half, heavy, is_active, is_class, is_end, is_past, is_short, kind_at,
    loads_at_call, over, place_at, separation_at, stack_at, turned_of, under,
};
use crate::crossing::{crossing_right, is_crossing_variable};
use crate::program::{Row, Var};
use stow_data::{Cargo, Half, Kind, Kinds, Name, Place, Ship};

fn is_both(a: u32, b: u32, c: u32, d: u32) -> bool
    ensures { result ≡ ((a == b) && (c == d)) }
{
    a == b && c == d
}

/// Lifted (`w` 0) or put at this call, at a place of the half-cell.
fn is_moved(w: u32, p: Place, h: Half, call: u32, x: Var) -> bool
    ensures { result ≡ cond (w == 0) (covers p h && ends call x) (covers p h && (x.put == call)) }
{
    if w == 0 {
        has_half(p, h) && is_end(call, x)
    } else {
        has_half(p, h) && x.put.0 == call
    }
}

/// There after this call, at this place, of a kind of this class.
fn is_class_at(call: u32, place: u32, class: &Name, kind: &Kind, x: Var) -> bool
    ensures { result ≡ ((x.place == place) && (option_eq (pointwise nat_eq) kind.now.class (Some class.now) && active call x)) }
{
    x.place.0 == place && is_class(kind, class) && is_active(call, x)
}

/// The coefficient of a variable in a row.
pub fn coefficient(ship: &Ship, kinds: &Kinds, row: &Row, x: Var) -> i64
    ghost m: { Voyage }
    requires ship { ship.now ≡ m.ship }
    requires kinds { kinds.now.list ≡ all_kinds m }
    requires row { InRange m row.now }
    requires place { x.place < length (places m.ship) }
    requires kind { x.kind < length (all_kinds m) }
    requires low { (h : ℕ) → (half m h).tier < 40 }
    ensures { result ≡ coef m row.now x }
{
    let p = place_at(ship, x.place);
    let k = kind_at(kinds, x.kind);
    match row {
        Row::Flow { q, call, kind } => {
            turned_of(
                *q,
                as_one(is_both(x.put.0, call.0, x.kind.0, kind.0))
                    - as_one(is_both(x.lifted.0, call.0, x.kind.0, kind.0)),
            )
        }
        Row::Start { q, place } => turned_of(*q, as_one(is_both(x.put.0, 0, x.place.0, place.0))),
        Row::Cell { call, half } => {
            let h = half_at(ship, *half);
            0 - as_one(has_half(p, h) && is_active(call.0, x))
        }
        Row::Support { call, half } => {
            let h = half_at(ship, *half);
            as_one(has_half(p, under(h)) && is_active(call.0, x))
                - as_one(has_half(p, h) && is_active(call.0, x))
        }
        Row::Twenty { call, half } => {
            let h = half_at(ship, *half);
            as_one(is_short(k.long) && (has_half(p, under(h)) && is_active(call.0, x)))
                - as_one(is_short(k.long) && (has_half(p, h) && is_active(call.0, x)))
        }
        Row::Block { call, half } => {
            let h = half_at(ship, *half);
            0 - as_one(has_half(p, h) && is_end(call.0, x))
                - as_one(has_half(p, over(h)) && is_past(call.0, x))
        }
        Row::Hatch {
            w,
            call,
            half,
            lowest,
        } => {
            let h = half_at(ship, *half);
            let d = half_at(ship, *lowest);
            0 - as_one(is_moved(*w, p, h, call.0, x)) - as_one(has_half(p, d) && is_past(call.0, x))
        }
        Row::Weight { call, stack } => { heavy(p.stack.0 == stack.0 && is_active(call.0, x), k) }
        Row::Apart {
            call,
            index,
            first,
            second,
        } => {
            let e = separation_at(ship, *index);
            0 - as_one(is_class_at(call.0, first.0, &e.a, k, x))
                - as_one(is_class_at(call.0, second.0, &e.b, k, x))
        }
        Row::Cross { length, chain, .. } => {
            as_one(is_crossing_variable(kinds, *length, chain, x))
        }
    }
}

/// The right side of a row.
pub fn right_side(ship: &Ship, cargo: &Cargo, kinds: &Kinds, row: &Row) -> i64
    ghost m: { Voyage }
    requires ship { ship.now ≡ m.ship }
    requires cargo { cargo.now ≡ m.cargo }
    requires kinds { AreKinds m.ship.weight_step m.cargo.containers kinds.now }
    requires row { InRange m row.now }
    ensures { result ≡ rhs m row.now }
{
    match row {
        Row::Flow { q, call, kind } => turned_of(*q, loads_at_call(kinds, *call, *kind) as i64),
        Row::Start { q, .. } => turned_of(*q, 1),
        Row::Support { .. } | Row::Twenty { .. } => 0,
        Row::Weight { stack, .. } => {
            let limit = stack_at(ship, *stack).limit_kg;
            0 - limit as i64
        }
        Row::Cell { .. } | Row::Block { .. } | Row::Hatch { .. } | Row::Apart { .. } => -1,
        Row::Cross {
            length,
            price,
            chain,
        } => crossing_right(ship, cargo, *length, *price, chain),
    }
}

/// What a variable costs: the price of the call at which it is lifted, where that is before its kind's destination.
pub fn cost_at(cargo: &Cargo, kinds: &Kinds, x: Var) -> u32
    ghost m: { Voyage }
    requires cargo { cargo.now ≡ m.cargo }
    requires kinds { kinds.now.list ≡ all_kinds m }
    requires kind { x.kind < length (all_kinds m) }
    ensures value { result ≡ var_cost m x }
    ensures size { result ≤ 1000 }
{
    let kind = kind_at(kinds, x.kind);
    if x.lifted.0 < kind.dest.0 {
        cargo.tariff(x.lifted)
    } else {
        0
    }
}
