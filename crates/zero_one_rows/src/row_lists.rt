//! For what each family of rows has a row.
ghost use Rattle.std.specs.Prelude.{◌≡◌, ℕ, ◌+◌, ◌<◌, ◌≤◌, ◌^◌, ◌++◌, cond, [], ◌∷◌, length, map, filter, flat_map, IfOk, OnOk};
ghost use Rattle.std.specs.List.{range_with_len};
ghost use Rattle.std.specs.Option.{option_to_list};
ghost use Rattle.stow_data.specs.Ship.{halves};
ghost use Rattle.zero_one_rows.specs.Variables.{Voyage, calls as number_of_calls, all_kinds};
ghost use Rattle.zero_one_rows.specs.Counted.{pairs_at, has_below, has_above, stands_at, hatches_of, near_by, all_chains, row_lists};

use crate::all_chains::{Chain, Chains};
use crate::crossing::tallest;
use crate::levels::{LevelPairs, PlacePair};
use crate::row_tests::{is_lower, is_running, is_taken, is_under_hatch, is_upper, level_of};
use std::alloc::Global;
use stow_data::{
    CallNo, Cargo, HalfNo, KindNo, Kinds, Length, NoMemory, NumberList, PlaceNo, Seq, Ship,
};

/// A call, and a kind whose containers are on their way after it.
#[derive(Clone, Copy)]
pub struct Pair {
    pub call: CallNo,
    pub kind: KindNo,
}

/// A half-cell under a hatch cover, and the lowest half-cell of a column on that cover.
#[derive(Clone, Copy)]
pub struct HatchPair {
    pub half: HalfNo,
    pub lowest: HalfNo,
}

/// Two places that are near by a separation.
#[derive(Clone, Copy)]
pub struct NearPair {
    /// The separation's index.
    pub index: u32,
    pub first: PlaceNo,
    pub second: PlaceNo,
}

/// What the rows of each family are found by.
#[derive(Drop)]
pub struct RowLists {
    /// How many calls have rows: all but the last.
    pub calls: u32,
    pub halves: u32,
    pub stacks: u32,
    /// The tiers of the tallest column for 20 foot, and of that for 40 foot.
    pub short_tiers: u32,
    pub long_tiers: u32,
    pub pairs: Seq<Pair>,
    /// The places at which a container stands at arrival.
    pub filled: NumberList,
    /// The half-cells with one below.
    pub uppers: NumberList,
    /// The half-cells with one above.
    pub lowers: NumberList,
    pub hatches: Seq<HatchPair>,
    pub near: Seq<NearPair>,
    pub chains: Seq<Chain>,
}

/// Appends an item where it is wanted.
pub fn push_item<T: Copy>(list: &mut Seq<T>, item: T, wanted: bool) -> Result<(), NoMemory>
    ensures { OnOk result (list.new ≡ list.old ++ cond wanted (item ∷ []) []) }
{
    if wanted { list.push(item) } else { Ok(()) }
}

/// Appends the pairs of a call.
fn push_pairs(pairs: &mut Seq<Pair>, kinds: &Kinds, call: CallNo) -> Result<(), NoMemory>
    ghost m: { Voyage }
    requires { kinds.now.list ≡ all_kinds m }
    ensures { OnOk result (pairs.new ≡ pairs.old ++ pairs_at m call) }
{
    for g in 0..kinds.len() {
        let wanted = is_running(kinds, call, KindNo(g));
        push_item(
            pairs,
            Pair {
                call,
                kind: KindNo(g),
            },
            wanted,
        )?;
    }
    Ok(())
}

/// The pairs of all calls but the last.
fn list_pairs(alloc: Global, kinds: &Kinds, calls: u32) -> Result<Seq<Pair>, NoMemory>
    ghost m: { Voyage }
    requires kinds { kinds.now.list ≡ all_kinds m }
    requires few { calls ≤ 12 }
    ensures { IfOk result (λ pairs. pairs ≡ flat_map (pairs_at m) (range_with_len 1 calls)) }
{
    let mut pairs = Seq::new(alloc);
    for i in 0..calls {
        push_pairs(&mut pairs, kinds, CallNo(i + 1))?;
    }
    Ok(pairs)
}

/// The places at which a container stands at arrival.
fn list_filled(alloc: Global, cargo: &Cargo) -> Result<NumberList, NoMemory>
    ghost m: { Voyage }
    requires cargo { cargo.now ≡ m.cargo }
    requires few { length cargo.now.arrival < 2 ^ 32 }
    ensures { IfOk result (λ list. list ≡ filter (stands_at m) (range_with_len 0 (length m.cargo.arrival))) }
{
    let mut list = Seq::new(alloc);
    for p in 0..cargo.arrival().len() as u32 {
        push_item(&mut list, p, is_taken(cargo, PlaceNo(p)))?;
    }
    Ok(list)
}

/// The half-cells with one below.
fn list_uppers(alloc: Global, ship: &Ship) -> Result<NumberList, NoMemory>
    ghost m: { Voyage }
    requires { ship.now ≡ m.ship }
    ensures { IfOk result (λ list. list ≡ filter (has_below m) (range_with_len 0 (length (halves m.ship)))) }
{
    let mut list = Seq::new(alloc);
    for h in 0..ship.halves() {
        push_item(&mut list, h, is_upper(ship, HalfNo(h)))?;
    }
    Ok(list)
}

/// The half-cells with one above.
fn list_lowers(alloc: Global, ship: &Ship) -> Result<NumberList, NoMemory>
    ghost m: { Voyage }
    requires { ship.now ≡ m.ship }
    ensures { IfOk result (λ list. list ≡ filter (has_above m) (range_with_len 0 (length (halves m.ship)))) }
{
    let mut list = Seq::new(alloc);
    for h in 0..ship.halves() {
        push_item(&mut list, h, is_lower(ship, HalfNo(h)))?;
    }
    Ok(list)
}

/// Appends the pairs of a half-cell with the lowest ones on the cover over it.
fn push_hatches(list: &mut Seq<HatchPair>, ship: &Ship, half: HalfNo) -> Result<(), NoMemory>
    ghost m: { Voyage }
    requires ship { ship.now ≡ m.ship }
    requires half { half < length (halves ship.now) }
    ensures { OnOk result (list.new ≡ list.old ++ hatches_of m half) }
{
    for d in 0..ship.halves() {
        let wanted = is_under_hatch(ship, half, HalfNo(d));
        push_item(
            list,
            HatchPair {
                half,
                lowest: HalfNo(d),
            },
            wanted,
        )?;
    }
    Ok(())
}

/// The half-cells under covers, each with the lowest ones on its cover.
fn list_hatches(alloc: Global, ship: &Ship) -> Result<Seq<HatchPair>, NoMemory>
    ghost m: { Voyage }
    requires { ship.now ≡ m.ship }
    ensures { IfOk result (λ list. list ≡ flat_map (hatches_of m) (range_with_len 0 (length (halves m.ship)))) }
{
    let mut list = Seq::new(alloc);
    for h in 0..ship.halves() {
        push_hatches(&mut list, ship, HalfNo(h))?;
    }
    Ok(list)
}

/// Appends the pairs of places that are near by a separation, given those that are near by its level.
fn push_separation(
    list: &mut Seq<NearPair>,
    index: u32,
    pairs: &[PlacePair],
) -> Result<(), NoMemory>
    ensures { OnOk result (list.new ≡ list.old ++ map (λ p. record { index = index; first = p.first; second = p.second }) pairs.now) }
{
    for pair in pairs {
        list.push(NearPair {
            index,
            first: pair.first,
            second: pair.second,
        })?;
    }
    Ok(())
}

/// The pairs of places that are near by some separation.
fn list_near(alloc: Global, ship: &Ship) -> Result<Seq<NearPair>, NoMemory>
    ghost m: { Voyage }
    requires { ship.now ≡ m.ship }
    ensures { IfOk result (λ list. list ≡ flat_map (near_by m) (range_with_len 0 (length m.ship.separations))) }
{
    let pairs = LevelPairs::of(alloc, ship)?;
    let mut list = Seq::new(alloc);
    for e in 0..ship.separations() {
        push_separation(&mut list, e, pairs.at(level_of(ship, e)))?;
    }
    Ok(list)
}

/// Appends a chain where there is one.
fn push_chain(list: &mut Seq<Chain>, chain: Option<Chain>) -> Result<(), NoMemory>
    ensures { OnOk result (list.new ≡ list.old ++ option_to_list chain) }
{
    match chain {
        None => Ok(()),
        Some(chain) => list.push(chain),
    }
}

/// More rows of calls than there are: each is a set of at most 13 numbers.
const ALL_SETS: u32 = 8192;

/// The chains of the calls 0 to `calls`.
fn list_chains(alloc: Global, calls: u32) -> Result<Seq<Chain>, NoMemory>
    requires { calls ≤ 12 }
    ensures { IfOk result (λ list. list ≡ all_chains calls) }
{
    let mut list = Seq::new(alloc);
    let mut chains = Chains::over(calls);
    for _place in 0..ALL_SETS {
        push_chain(&mut list, chains.next())?;
    }
    Ok(list)
}

/// The lists of a voyage.
pub fn list_rows(
    alloc: Global,
    ship: &Ship,
    cargo: &Cargo,
    kinds: &Kinds,
) -> Result<RowLists, NoMemory>
    ghost m: { Voyage }
    requires ship { ship.now ≡ m.ship }
    requires cargo { cargo.now ≡ m.cargo }
    requires kinds { kinds.now.list ≡ all_kinds m }
    requires arrival { length cargo.now.arrival < 2 ^ 32 }
    ensures { IfOk result (λ r. r ≡ row_lists m) }
{
    let calls = cargo.calls() - 1;
    Ok(RowLists {
        calls,
        halves: ship.halves(),
        stacks: ship.stacks(),
        short_tiers: tallest(ship, Length::Twenty),
        long_tiers: tallest(ship, Length::Forty),
        pairs: list_pairs(alloc, kinds, calls)?,
        filled: list_filled(alloc, cargo)?,
        uppers: list_uppers(alloc, ship)?,
        lowers: list_lowers(alloc, ship)?,
        hatches: list_hatches(alloc, ship)?,
        near: list_near(alloc, ship)?,
        chains: list_chains(alloc, calls + 1)?,
    })
}
