//! How many rows a program has, counted without memory.
ghost use Rattle.std.specs.Prelude.{◌≡◌, ℕ, ◌+◌, ◌*◌, ◌<◌, ◌≤◌, ◌^◌, cond, length, filter, flat_map};
ghost use Rattle.std.specs.List.{range_with_len};
ghost use Rattle.std.specs.Option.{option_to_list};
ghost use Rattle.stow_data.specs.Ship.{halves};
ghost use Rattle.zero_one_rows.specs.Variables.{Voyage, calls as number_of_calls, all_kinds};
ghost use Rattle.zero_one_rows.specs.Counted.{pairs_at, has_below, has_above, stands_at, hatches_of, near_by, all_chains, base_rows, all_rows, row_lists, rows_a_call};

use crate::all_chains::{Chain, Chains};
use crate::crossing::tallest;
use crate::levels::LevelCounts;
use crate::row_tests::{is_lower, is_running, is_taken, is_under_hatch, is_upper, level_of};
use stow_data::{CallNo, Cargo, HalfNo, KindNo, Kinds, Length, PlaceNo, Ship};

/// How many rows a program has.
#[derive(Clone, Copy)]
pub struct RowCounts {
    pub base: u64,
    /// Base rows and crossing rows.
    pub all: u64,
}

pub fn as_one(wanted: bool) -> u64
    ensures value { result ≡ cond wanted 1 0 }
    ensures low { result ≤ 1 }
{
    if wanted { 1 } else { 0 }
}

/// How many kinds are on their way after a call.
fn count_running(kinds: &Kinds, call: CallNo) -> u64
    ghost m: { Voyage }
    requires { kinds.now.list ≡ all_kinds m }
    ensures number { result ≡ length (pairs_at m call) }
    ensures size { result ≤ 2 ^ 32 }
{
    let mut count = 0;
    for g in 0..kinds.len() {
        count += as_one(is_running(kinds, call, KindNo(g)));
    }
    count
}

/// How many pairs of a call and a kind have flow rows.
fn count_pairs(kinds: &Kinds, calls: u32) -> u64
    ghost m: { Voyage }
    requires kinds { kinds.now.list ≡ all_kinds m }
    requires few { calls ≤ 12 }
    ensures number { result ≡ length (flat_map (pairs_at m) (range_with_len 1 calls)) }
    ensures size { result ≤ 12 * 2 ^ 32 }
{
    let mut count = 0;
    for i in 0..calls {
        count += count_running(kinds, CallNo(i + 1));
    }
    count
}

/// At how many places a container stands at arrival.
fn count_filled(cargo: &Cargo) -> u64
    ghost m: { Voyage }
    requires cargo { cargo.now ≡ m.cargo }
    requires few { length cargo.now.arrival < 2 ^ 32 }
    ensures number { result ≡ length (filter (stands_at m) (range_with_len 0 (length m.cargo.arrival))) }
    ensures size { result ≤ 2 ^ 32 }
{
    let mut count = 0;
    for p in 0..cargo.arrival().len() as u32 {
        count += as_one(is_taken(cargo, PlaceNo(p)));
    }
    count
}

/// How many half-cells have one below.
fn count_uppers(ship: &Ship) -> u64
    ghost m: { Voyage }
    requires { ship.now ≡ m.ship }
    ensures number { result ≡ length (filter (has_below m) (range_with_len 0 (length (halves m.ship)))) }
    ensures size { result ≤ 2 ^ 32 }
{
    let mut count = 0;
    for h in 0..ship.halves() {
        count += as_one(is_upper(ship, HalfNo(h)));
    }
    count
}

/// How many half-cells have one above.
fn count_lowers(ship: &Ship) -> u64
    ghost m: { Voyage }
    requires { ship.now ≡ m.ship }
    ensures number { result ≡ length (filter (has_above m) (range_with_len 0 (length (halves m.ship)))) }
    ensures size { result ≤ 2 ^ 32 }
{
    let mut count = 0;
    for h in 0..ship.halves() {
        count += as_one(is_lower(ship, HalfNo(h)));
    }
    count
}

/// How many lowest half-cells stand on the cover over a half-cell.
fn count_lowest(ship: &Ship, half: HalfNo) -> u64
    ghost m: { Voyage }
    requires ship { ship.now ≡ m.ship }
    requires half { half < length (halves ship.now) }
    ensures number { result ≡ length (hatches_of m half) }
    ensures size { result ≤ 6000 }
{
    ship.obeys_rules();
    let mut count = 0;
    for d in 0..ship.halves() {
        count += as_one(is_under_hatch(ship, half, HalfNo(d)));
    }
    count
}

/// How many pairs of half-cells have hatch rows at a call.
fn count_hatches(ship: &Ship) -> u64
    ghost m: { Voyage }
    requires { ship.now ≡ m.ship }
    ensures number { result ≡ length (flat_map (hatches_of m) (range_with_len 0 (length (halves m.ship)))) }
    ensures size { result ≤ 2 ^ 32 * 6000 }
{
    let mut count = 0;
    for h in 0..ship.halves() {
        count += count_lowest(ship, HalfNo(h));
    }
    count
}

/// How many pairs of places have apart rows at a call.
fn count_near(ship: &Ship) -> u64
    ghost m: { Voyage }
    requires { ship.now ≡ m.ship }
    ensures number { result ≡ length (flat_map (near_by m) (range_with_len 0 (length m.ship.separations))) }
    ensures size { result ≤ 2 ^ 32 * 9000000 }
{
    let counts = LevelCounts::of(ship);
    let mut count = 0;
    for e in 0..ship.separations() {
        count += counts.at(level_of(ship, e));
    }
    count
}

/// More than the rising rows of calls: each is a set of at most 13 numbers.
const ALL_SETS: u32 = 8192;

/// 1 where there is a chain.
fn one_of(chain: Option<Chain>) -> u64
    ensures value { result ≡ length (option_to_list chain) }
    ensures low { result ≤ 1 }
{
    match chain {
        None => 0,
        Some(_) => 1,
    }
}

/// How many chains the calls 0 to `calls` have.
fn count_chains(calls: u32) -> u64
    requires { calls ≤ 12 }
    ensures number { result ≡ length (all_chains calls) }
    ensures size { result ≤ 8192 }
{
    let mut count = 0;
    let mut chains = Chains::over(calls);
    for _place in 0..ALL_SETS {
        count += one_of(chains.next());
    }
    count
}

/// How many base rows stand for one call.
fn count_a_call(ship: &Ship) -> u64
    ghost m: { Voyage }
    requires { ship.now ≡ m.ship }
    ensures number { result ≡ rows_a_call (row_lists m) }
    ensures size { result ≤ 2 ^ 60 }
{
    let halves = ship.halves() as u64 + 2 * count_uppers(ship) + count_lowers(ship);
    halves + 2 * count_hatches(ship) + ship.stacks() as u64 + count_near(ship)
}

/// How many rows the program of a voyage has.
pub fn count_rows(ship: &Ship, cargo: &Cargo, kinds: &Kinds) -> RowCounts
    ghost m: { Voyage }
    requires ship { ship.now ≡ m.ship }
    requires cargo { cargo.now ≡ m.cargo }
    requires kinds { kinds.now.list ≡ all_kinds m }
    requires arrival { length cargo.now.arrival < 2 ^ 32 }
    ensures base { result.base ≡ length (base_rows m) }
    ensures all { result.all ≡ length (all_rows m) }
{
    let calls = cargo.calls() - 1;
    let base = 2 * count_pairs(kinds, calls)
        + 2 * count_filled(cargo)
        + calls as u64 * count_a_call(ship);
    let tiers = tallest(ship, Length::Twenty) + tallest(ship, Length::Forty);
    RowCounts {
        base,
        all: base + tiers as u64 * count_chains(calls + 1),
    }
}
