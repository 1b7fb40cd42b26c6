//! Pairs of calls: what each brings to the gain of a crossing row.
ghost use Rattle.std.specs.Prelude.{◌≡◌, ℕ, ◌+◌, ◌-◌, ◌*◌, ◌<◌, ◌≤◌, ◌^◌, ◌==◌, [], ◌∷◌, length, IfOk, slice_index_or, pos, ◌+ℤ◌, unsigned_abs};
ghost use Rattle.proof_trees.specs.Program.{where_set};
ghost use Rattle.proof_trees.specs.Boxes.{at};
ghost use Rattle.stow_data.specs.Kinds.{AreKinds};
ghost use Rattle.zero_one_rows.specs.Variables.{Voyage, variables, var, kind, all_kinds};
ghost use Rattle.zero_one_rows.specs.Crossing.{columns as columns_of, tallest as tallest_of, length_of};
ghost use Rattle.crossing_pricing.specs.Gaps.{number_at, gap};
ghost use Rattle.crossing_pricing.specs.Pairs.{own_part, AreParts, AreSides, IsKey, IsKeyOf, AreKeys, ArePairs, AreGained};

use crate::best_pairs::PAIRS;
use row_sums::FlatLists;
use std::alloc::Global;
use stow_data::{Cargo, Kinds, Length, NoMemory, Seq, Ship, VarNo, kinds};
use zero_one_model::{Box01, Model};
use zero_one_rows::{Chain, Row, Var, columns, kind_at, right_side, tallest, variables_stand_once};

/// The columns of a length, and for each price from 1 what each pair of calls brings, but for its variables: 169 numbers, that of a load and a destination at 13 · load + dest, in the unit of the dual value, of which 16 are one container lifted early.
#[derive(Drop)]
pub struct PairSides {
    pub columns: u32,
    pub prices: FlatLists<i64>,
}

/// What pairs of calls bring, for both lengths; and for each variable the number of its pair: 13 · put + dest for one of 20 foot, 169 more for one of 40 foot, and 338 for one of no pair.
#[derive(Drop)]
pub struct PairTable {
    pub short: PairSides,
    pub long: PairSides,
    pub keys: Seq<u32>,
}

// A right side without the price of all columns.
fn without_price(side: i64, price: u32, columns: u32) -> i64
    requires side { unsigned_abs side ≤ 2 ^ 36 }
    requires price { price ≤ 39 }
    requires columns { columns ≤ 3000 }
    ensures { result ≡ side +ℤ pos (price * columns) }
{
    side + (price * columns) as i64
}

// What a pair brings at a price, but for its variables.
fn part_of(
    model: &Model,
    kinds: &Kinds,
    length: u32,
    price: u32,
    columns: u32,
    load: u32,
    dest: u32,
) -> i64
    requires kinds { AreKinds model.now.ship.weight_step model.now.cargo.containers kinds.now }
    requires columns { columns ≡ columns_of model.now.ship (length_of length) }
    requires few { columns ≤ 3000 }
    requires price { price ≤ 39 }
    ensures value { result ≡ own_part model.now length price load dest }
    ensures low { unsigned_abs result ≤ 2 ^ 37 }
{
    let cargo = model.cargo();
    cargo.obeys_rules();
    let chain = Chain::of(&[load, dest]);
    let row = Row::Cross {
        length,
        price,
        chain,
    };
    let side = right_side(model.ship(), cargo, kinds, &row);
    without_price(side, price, columns)
}

// What each pair brings at a price, but for its variables.
fn parts_at(model: &Model, kinds: &Kinds, length: u32, price: u32, columns: u32) -> [i64; 169]
    requires kinds { AreKinds model.now.ship.weight_step model.now.cargo.containers kinds.now }
    requires columns { columns ≡ columns_of model.now.ship (length_of length) }
    requires few { columns ≤ 3000 }
    requires price { price ≤ 39 }
    ensures { AreParts model.now length price result }
{
    let mut parts = [0; PAIRS];
    for pair in 0..PAIRS {
        parts[pair] = part_of(
            model,
            kinds,
            length,
            price,
            columns,
            pair as u32 / 13,
            pair as u32 % 13,
        );
    }
    parts
}

// What pairs bring at each price of a length, but for their variables.
fn sides_of(
    alloc: Global,
    model: &Model,
    kinds: &Kinds,
    length: u32,
    long: Length,
) -> Result<PairSides, NoMemory>
    requires kinds { AreKinds model.now.ship.weight_step model.now.cargo.containers kinds.now }
    requires long { long ≡ length_of length }
    ensures { IfOk result (AreSides model.now length) }
{
    let columns = columns(model.ship(), long);
    let mut prices = FlatLists::new(alloc);
    for price in 0..tallest(model.ship(), long) {
        prices.push(&parts_at(model, kinds, length, price + 1, columns))?;
    }
    Ok(PairSides { columns, prices })
}

// The number of a pair, for a variable of this length, put and destination; past all pairs where it isn't lifted early.
fn key_at(long: Length, put: u32, dest: u32, lifted: u32) -> u32
    ensures { IsKeyOf long put dest lifted result }
{
    if lifted >= dest || put > 12 || dest > 12 {
        return 338;
    }
    match long {
        Length::Twenty => 13 * put + dest,
        Length::Forty => 169 + (13 * put + dest),
    }
}

// The number of the pair of a variable.
fn key_for(model: &Model, kinds: &Kinds, x: VarNo) -> u32
    requires kinds { AreKinds model.now.ship.weight_step model.now.cargo.containers kinds.now }
    requires var { x < length (variables model.now) }
    ensures { IsKey model.now (var model.now x) result }
{
    variables_stand_once();
    let var = model.var(x);
    let kind = kind_at(kinds, var.kind);
    key_at(kind.long, var.put.0, kind.dest.0, var.lifted.0)
}

// The number of the pair of each variable.
fn keys_of(alloc: Global, model: &Model, kinds: &Kinds) -> Result<Seq<u32>, NoMemory>
    requires kinds { AreKinds model.now.ship.weight_step model.now.cargo.containers kinds.now }
    ensures { IfOk result (AreKeys model.now) }
{
    let mut keys = Seq::new(alloc);
    for v in 0..model.vars() {
        keys.push(key_for(model, kinds, VarNo(v)))?;
    }
    Ok(keys)
}

// What pairs of 20 foot bring, and what those of 40 foot bring.
fn both_sides(
    alloc: Global,
    model: &Model,
    kinds: &Kinds,
) -> Result<(PairSides, PairSides), NoMemory>
    requires kinds { AreKinds model.now.ship.weight_step model.now.cargo.containers kinds.now }
    ensures short { IfOk result (λ sides. AreSides model.now 20 sides.0) }
    ensures long { IfOk result (λ sides. AreSides model.now 40 sides.1) }
{
    let short = sides_of(alloc, model, kinds, 20, Length::Twenty)?;
    match sides_of(alloc, model, kinds, 40, Length::Forty) {
        Ok(long) => Ok((short, long)),
        Err(no) => {
            drop(short);
            Err(no)
        }
    }
}

// What pairs bring, where the kinds are at hand.
fn table_by(alloc: Global, model: &Model, kinds: &Kinds) -> Result<PairTable, NoMemory>
    requires kinds { AreKinds model.now.ship.weight_step model.now.cargo.containers kinds.now }
    ensures { IfOk result (ArePairs model.now) }
{
    let keys = keys_of(alloc, model, kinds)?;
    match both_sides(alloc, model, kinds) {
        Ok((short, long)) => Ok(PairTable { short, long, keys }),
        Err(no) => {
            drop(keys);
            Err(no)
        }
    }
}

impl PairTable {
    /// What pairs bring in a program.
    pub fn build(alloc: Global, model: &Model) -> Result<PairTable, NoMemory>
        ensures { IfOk result (ArePairs model.now) }
    {
        let kinds = kinds(alloc, model.ship(), model.cargo())?;
        let table = table_by(alloc, model, &kinds);
        drop(kinds);
        table
    }
}

// What a variable gains where its reduced cost falls by 1.
fn unit_gap(allowed: Option<bool>, reduced: i128) -> i64
    ensures value { result ≡ gap allowed reduced (pos 1) }
    ensures low { unsigned_abs result ≤ 1 }
{
    match allowed {
        None => { if reduced <= 0 { -1 } else { 0 } }
        Some(true) => -1,
        Some(false) => 0,
    }
}

// Adds to what a pair's variables gain.
fn add_gap(gaps: &mut [i64], key: u32, gain: i64)
    requires len { length gaps.old ≡ 338 }
    requires low { (j : ℕ) → j < 338 → unsigned_abs (number_at gaps.old j) ≤ 2 ^ 18 }
    requires gain { unsigned_abs gain ≤ 1 }
    ensures len { length gaps.new ≡ 338 }
    ensures each { (j : ℕ) → j < 338 → number_at gaps.new j ≡ number_at gaps.old j +ℤ where_set (key == j) gain }
{
    let pair = key as usize;
    if pair < gaps.len() {
        gaps[pair] = gaps[pair] + gain;
    }
}

/// What the variables of each pair gain where their reduced costs fall by 1, in the unit of the dual value: 169 numbers for 20 foot, then 169 for 40 foot. Reduced costs and keys have one entry for each variable.
pub fn gaps_by_pair(model: &Model, b: &Box01, reduced: &[i128], keys: &[u32]) -> [i64; 338]
    requires whole { length b.now ≡ length (variables model.now) }
    requires reduced { length reduced.now ≡ length (variables model.now) }
    requires small { (v : ℕ) → v < length (variables model.now) → unsigned_abs (number_at reduced.now v) ≤ 2 ^ 79 }
    requires keys { length keys.now ≡ length (variables model.now) }
    ensures { AreGained b.now reduced.now keys.now (length (variables model.now)) result }
{
    let mut gaps = [0; 2 * PAIRS];
    for v in 0..model.vars() {
        let gain = unit_gap(b.at(VarNo(v)), reduced[v as usize]);
        add_gap(&mut gaps, keys[v as usize], gain);
    }
    gaps
}
