//! What has rows: calls and kinds, places, half-cells, pairs of half-cells and of places.
ghost use Rattle.std.specs.Prelude.{◌≡◌, ◌+◌, ◌<◌, ◌&&◌, ◌==◌, nat_lt, None, length, slice_index_or};
ghost use Rattle.stow_data.specs.Ship.{halves, places};
ghost use Rattle.stow_data.specs.Plans.{no_stack};
ghost use Rattle.zero_one_rows.specs.Variables.{Voyage, all_kinds};
ghost use Rattle.zero_one_rows.specs.Rows.{is_filled, cover_joins, no_separation};
ghost use Rattle.zero_one_rows.specs.Counted.{runs, has_below, has_above, stands_at, is_hatch, is_one};
ghost use Rattle.zero_one_rows.specs.Levels.{near_at};

use crate::coefficients::{half_at, kind_at, place_at, stack_at};
use stow_data::{CallNo, Cargo, CoverNo, HalfNo, KindNo, Kinds, PlaceNo, Ship, StackNo, is_near};

/// Whether containers of the kind are on their way after the call.
pub fn is_running(kinds: &Kinds, call: CallNo, g: KindNo) -> bool
    ghost m: { Voyage }
    requires kinds { kinds.now.list ≡ all_kinds m }
    requires kind { g < length (all_kinds m) }
    ensures { result ≡ runs m call g }
{
    let kind = kind_at(kinds, g);
    kind.first.0 <= call.0 && call.0 < kind.dest.0
}

/// Whether a container stands at the place at arrival.
#[tactic(auto, using(std::proofs::lemmas::Option::get_or_from_slice_get))]
pub fn is_taken(cargo: &Cargo, p: PlaceNo) -> bool
    requires { p < length cargo.now.arrival }
    ensures { result ≡ is_filled (slice_index_or cargo.now.arrival p None) }
{
    cargo.arrival().at(p).is_some()
}

/// Whether the half-cell has one below.
pub fn is_upper(ship: &Ship, h: HalfNo) -> bool
    ghost m: { Voyage }
    requires ship { ship.now ≡ m.ship }
    requires half { h < length (halves ship.now) }
    ensures { result ≡ has_below m h }
{
    half_at(ship, h).tier > 0
}

/// Whether the half-cell has one above.
pub fn is_lower(ship: &Ship, h: HalfNo) -> bool
    ghost m: { Voyage }
    requires ship { ship.now ≡ m.ship }
    requires half { h < length (halves ship.now) }
    ensures { result ≡ has_above m h }
{
    let half = half_at(ship, h);
    let tiers = stack_at(ship, half.stack).tiers;
    tiers > 0 && half.tier < tiers - 1
}

/// Whether two covers are there and the same.
fn is_one_cover(over: Option<CoverNo>, under: Option<CoverNo>) -> bool
    ensures { result ≡ is_one over under }
{
    match over {
        None => false,
        Some(c) => match under {
            None => false,
            Some(d) => c.0 == d.0,
        },
    }
}

/// Whether one stack lies under a cover on which the other stands.
fn are_joined(ship: &Ship, s: StackNo, t: StackNo) -> bool
    ensures { result ≡ cover_joins ship.now.covers s t }
{
    is_one_cover(ship.cover_over(s), ship.cover_under(t))
}

/// Whether one half-cell lies under a cover on which the other is the lowest of its column.
pub fn is_under_hatch(ship: &Ship, h: HalfNo, d: HalfNo) -> bool
    ghost m: { Voyage }
    requires ship { ship.now ≡ m.ship }
    requires half { h < length (halves ship.now) }
    requires lowest { d < length (halves ship.now) }
    ensures { result ≡ is_hatch m h d }
{
    let lowest = half_at(ship, d);
    lowest.tier == 0 && are_joined(ship, half_at(ship, h).stack, lowest.stack)
}

/// The level of a separation.
#[tactic(auto, using(std::proofs::lemmas::Option::get_or_from_slice_get))]
pub fn level_of(ship: &Ship, index: u32) -> u32
    requires { index < length ship.now.separations }
    ensures { result ≡ (slice_index_or ship.now.separations index no_separation).level }
{
    ship.separation(index).level
}

/// Whether two places are near by a level.
pub fn are_near(ship: &Ship, level: u32, p: PlaceNo, q: PlaceNo) -> bool
    ghost m: { Voyage }
    requires ship { ship.now ≡ m.ship }
    requires first { p < length (places ship.now) }
    requires second { q < length (places ship.now) }
    ensures { result ≡ near_at m level p q }
{
    is_near(ship, level, &place_at(ship, p), &place_at(ship, q))
}
