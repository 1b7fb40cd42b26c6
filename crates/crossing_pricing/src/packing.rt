//! How far crossing rows are best raised together: a guess, of which nothing is claimed.
//!
//! Where no variable is fixed, a crossing row can be raised until a pair of calls of its chain has paid 16 times what its cheapest
//! variable costs that is lifted early: the least price of the calls between. So raises are a packing of chains into pairs of calls,
//! with so much room in each pair. It is found by multiplicative weights (Garg and Könemann 2007): again and again the chain that
//! brings most for the weights of its pairs is taken as far as its narrowest pair has room, and the weight of a pair grows by a tenth
//! of the part of its room that is taken. What was taken is scaled to the room, and what stays free is filled by the chains that
//! bring most.
ghost use Rattle.std.specs.Prelude.{◌≡◌, ℕ, ◌<◌, ◌≤◌, ◌^◌, length, unsigned_abs};
ghost use Rattle.zero_one_rows.specs.Chains.{pairs_of};
ghost use Rattle.crossing_pricing.specs.Gaps.{number_at};

use crate::best_pairs::{PAIRS, most_of};
use crate::pairs::{PairSides, PairTable};
use crate::tracing::chain_of;
use std::alloc::Global;
use stow_data::{CallNo, Cargo, NoMemory};
use zero_one_rows::{Chain, Row, pair_at, pair_count};

/// The room of a pair for each unit of its price.
const ROOM: u64 = 16;

/// The largest score of a pair.
const LIMIT: i64 = 1 << 37;

/// What one container more counts in scores.
const UNIT: i64 = 1 << 16;

/// A rate counts in such parts.
const PARTS: i64 = 1 << 24;

/// The weight of a pair at first.
const LIGHT: i64 = 1 << 8;

/// The weight of a pair with which no more is taken.
const HEAVY: i64 = 1 << 36;

/// The rate at first: no chain brings so much for its weights.
const HIGH: i64 = 1 << 42;

/// Below this rate it can't fall by an eighth.
const LEAST: i64 = 8;

/// How often chains are taken, or the rate falls.
const TURNS: u32 = 700;

/// How many chains fill what stays free.
const FILLINGS: u32 = 200;

// For each pair the least price of the calls between; nothing where there is none.
fn least_prices(cargo: &Cargo) -> [u64; 169] {
    let mut prices = [0; PAIRS];
    for pair in 0..PAIRS {
        let number = u32::try_from(pair).unwrap_or(0);
        prices[pair] = least_price(cargo, number / 13, number % 13);
    }
    prices
}

// The least price of the calls between two; nothing where there is none.
fn least_price(cargo: &Cargo, load: u32, dest: u32) -> u64 {
    let mut least = u64::MAX;
    for call in load.saturating_add(1)..dest {
        least = least.min(u64::from(cargo.tariff(CallNo(call))));
    }
    if least == u64::MAX { 0 } else { least }
}

/// A crossing row, and by how much its multiplier is to be raised.
#[derive(Drop)]
pub struct Candidate {
    pub row: Row,
    pub amount: u64,
}

// A chain at the price with this index, its right side, and how often it is taken.
#[derive(Drop)]
struct Share {
    index: u32,
    chain: Chain,
    right: i64,
    amount: u64,
}

// A number of a list, or 0.
fn number(list: &[i64], k: usize) -> i64 {
    list.get(k).copied().unwrap_or(0)
}

// The number of a pair of a chain.
fn pair_of(chain: &Chain, k: usize) -> usize
    requires { k < length (pairs_of chain.now) }
{
    let (load, dest) = pair_at(chain, k);
    (load as usize)
        .saturating_mul(13)
        .saturating_add(dest as usize)
}

// The price of all columns.
fn price_of(sides: &PairSides, index: u32) -> i64 {
    i64::from(index)
        .saturating_add(1)
        .saturating_mul(i64::from(sides.columns))
}

// The right side of a chain's row.
fn right_of(sides: &PairSides, index: u32, chain: &Chain) -> i64 {
    let own = sides.prices.at(index as usize);
    let mut total: i64 = 0;
    for k in 0..pair_count(chain) {
        total = total.saturating_add(number(own, pair_of(chain, k)));
    }
    total.saturating_sub(price_of(sides, index))
}

// A number within the range of scores.
fn within(number: i128) -> i64
    ensures { unsigned_abs result ≤ 2 ^ 37 }
{
    if number > LIMIT as i128 {
        LIMIT
    } else if number < -(LIMIT as i128) {
        -LIMIT
    } else {
        number as i64
    }
}

// What a pair brings less what its weight costs at this rate; nothing is taken where lifting is free.
fn score(own: i64, weight: i64, price: u64, rate: i64) -> i64
    ensures { unsigned_abs result ≤ 2 ^ 37 }
{
    let spent = weight as i128 * rate as i128 / PARTS as i128;
    match spent.checked_div(price as i128) {
        Some(cost) => within((own as i128 * UNIT as i128).saturating_sub(cost)),
        None => -LIMIT,
    }
}

// The scores of all pairs.
fn scores(own: &[i64], prices: &[u64], weights: &[i64], rate: i64) -> [i64; 169]
    ensures len { length result ≡ 169 }
    ensures low { (k : ℕ) → k < 169 → unsigned_abs (number_at result k) ≤ 2 ^ 37 }
{
    let mut scores = [0; PAIRS];
    for pair in 0..PAIRS {
        let price = prices.get(pair).copied().unwrap_or(0);
        scores[pair] = score(number(own, pair), number(weights, pair), price, rate);
    }
    scores
}

#[tactic(auto, using(crate::proofs::Scoring::scores_are))]
// The best score of a chain at a price.
fn best_score(
    sides: &PairSides,
    index: u32,
    prices: &[u64],
    weights: &[i64],
    rate: i64,
    last: usize,
) -> i64
    requires { last ≤ 12 }
{
    let scores = scores(sides.prices.at(index as usize), prices, weights, rate);
    let best = most_of(&scores, &[0; PAIRS], 0, last);
    best.saturating_sub(price_of(sides, index).saturating_mul(UNIT))
}

#[tactic(auto, using(crate::proofs::Scoring::scores_are))]
// The chain of the best score at a price.
fn best_chain(
    sides: &PairSides,
    index: u32,
    prices: &[u64],
    weights: &[i64],
    rate: i64,
    last: usize,
) -> Option<Chain>
    requires { last ≤ 12 }
{
    let scores = scores(sides.prices.at(index as usize), prices, weights, rate);
    chain_of(&scores, &[0; PAIRS], 0, last)
}

// The index of the price at which a chain scores most, if some chain brings more than its weights cost.
fn best_price(
    sides: &PairSides,
    prices: &[u64],
    weights: &[i64],
    rate: i64,
    last: usize,
) -> Option<u32>
    requires { last ≤ 12 }
{
    let count = u32::try_from(sides.prices.len()).unwrap_or(0);
    let mut most = 0;
    let mut found = None;
    for index in 0..count {
        let score = best_score(sides, index, prices, weights, rate, last);
        if score > most {
            most = score;
            found = Some(index);
        }
    }
    found
}

// The least of the prices of a chain's pairs.
fn narrowest(prices: &[u64], chain: &Chain) -> u64 {
    let mut least = u64::MAX;
    for k in 0..pair_count(chain) {
        least = least.min(prices.get(pair_of(chain, k)).copied().unwrap_or(0));
    }
    least
}

// A chain that brings more than its weights cost at this rate, to be taken as far as its narrowest pair has room.
fn best_share(
    sides: &PairSides,
    prices: &[u64],
    weights: &[i64],
    rate: i64,
    last: usize,
) -> Option<Share>
    requires { last ≤ 12 }
{
    let index = best_price(sides, prices, weights, rate, last)?;
    let chain = best_chain(sides, index, prices, weights, rate, last)?;
    let right = right_of(sides, index, &chain);
    if right <= 0 {
        return None;
    }
    let amount = narrowest(prices, &chain);
    Some(Share {
        index,
        chain,
        right,
        amount,
    })
}

// A tenth of a weight, where all of the room is taken, and else so much less of it as less is taken.
fn growth(weight: i64, price: u64, amount: u64) -> i64 {
    if price == 0 {
        return HEAVY;
    }
    let part = (weight / 10) as i128 * amount as i128 / price as i128;
    i64::try_from(part).unwrap_or(HEAVY).max(1)
}

// The weights of a chain's pairs grow as it is taken. False where one becomes too heavy.
fn grow(weights: &mut [i64], prices: &[u64], chain: &Chain, amount: u64) -> bool {
    let mut is_light = true;
    for k in 0..pair_count(chain) {
        let pair = pair_of(chain, k);
        let price = prices.get(pair).copied().unwrap_or(0);
        if let Some(weight) = weights.get_mut(pair) {
            *weight = weight.saturating_add(growth(*weight, price, amount));
            is_light = is_light && *weight < HEAVY;
        }
    }
    is_light
}

// Takes a chain once more.
fn take(shares: &mut Vec<Share>, share: Share) -> Result<(), NoMemory> {
    for other in shares.iter_mut() {
        if other.index == share.index && other.chain == share.chain {
            other.amount = other.amount.saturating_add(share.amount);
            return Ok(());
        }
    }
    shares.push(share)?;
    Ok(())
}

// Appends chains by multiplicative weights, and how far each was taken.
fn weigh(
    shares: &mut Vec<Share>,
    sides: &PairSides,
    prices: &[u64],
    last: usize,
) -> Result<(), NoMemory>
    requires { last ≤ 12 }
{
    let mut weights = [LIGHT; PAIRS];
    let mut rate = HIGH;
    for _ in 0..TURNS {
        match best_share(sides, prices, &weights, rate, last) {
            Some(share) => {
                if !grow(&mut weights, prices, &share.chain, share.amount) {
                    return Ok(());
                }
                take(shares, share)?;
            }
            None => {
                if rate < LEAST {
                    return Ok(());
                }
                rate = rate.saturating_sub(rate / 8);
            }
        }
    }
    Ok(())
}

// Chains by multiplicative weights, and how far each was taken.
fn weighed(
    alloc: Global,
    sides: &PairSides,
    prices: &[u64],
    last: usize,
) -> Result<Vec<Share>, NoMemory>
    requires { last ≤ 12 }
{
    let mut shares = Vec::new(alloc);
    match weigh(&mut shares, sides, prices, last) {
        Ok(_) => Ok(shares),
        Err(no) => {
            drop(shares);
            Err(no)
        }
    }
}

// How much room a chain's pairs leave.
fn room_for(rooms: &[u64], chain: &Chain) -> u64 {
    let mut room = u64::MAX;
    for k in 0..pair_count(chain) {
        room = room.min(rooms.get(pair_of(chain, k)).copied().unwrap_or(0));
    }
    room
}

// Adds to what stands in a chain's pairs.
fn add_at(list: &mut [u64], chain: &Chain, amount: u64) {
    for k in 0..pair_count(chain) {
        if let Some(entry) = list.get_mut(pair_of(chain, k)) {
            *entry = entry.saturating_add(amount);
        }
    }
}

// Takes from what stands in a chain's pairs.
fn take_at(list: &mut [u64], chain: &Chain, amount: u64) {
    for k in 0..pair_count(chain) {
        if let Some(entry) = list.get_mut(pair_of(chain, k)) {
            *entry = entry.saturating_sub(amount);
        }
    }
}

// How far the pairs are taken.
fn taken_of(shares: &[Share]) -> [u64; 169] {
    let mut taken = [0; PAIRS];
    for share in shares {
        add_at(&mut taken, &share.chain, share.amount);
    }
    taken
}

// How far a pair is taken, and its price.
#[derive(Clone, Copy)]
struct Crowding {
    taken: u64,
    price: u64,
}

// That of the pair that is taken most for its price.
fn most_crowded(prices: &[u64], shares: &[Share]) -> Crowding {
    let taken = taken_of(shares);
    let mut most = Crowding { taken: 1, price: 1 };
    for pair in 0..PAIRS {
        let here = taken[pair];
        let price = prices.get(pair).copied().unwrap_or(0);
        if here.saturating_mul(most.price) > most.taken.saturating_mul(price) {
            most = Crowding { taken: here, price };
        }
    }
    most
}

// Appends a chain as far as there is room for it.
fn place(
    plan: &mut Vec<Share>,
    rooms: &mut [u64],
    share: &Share,
    wanted: u64,
) -> Result<(), NoMemory> {
    let amount = wanted.min(room_for(rooms, &share.chain));
    if amount == 0 {
        return Ok(());
    }
    take_at(rooms, &share.chain, amount);
    plan.push(Share {
        index: share.index,
        chain: share.chain.clone()?,
        right: share.right,
        amount,
    })?;
    Ok(())
}

// Weights by which only pairs with room are taken.
fn closed_where_full(rooms: &[u64]) -> [i64; 169] {
    let mut weights = [0; PAIRS];
    for pair in 0..PAIRS {
        if rooms.get(pair).copied().unwrap_or(0) == 0 {
            weights[pair] = HEAVY;
        }
    }
    weights
}

// Fills what stays free by the chains that bring most.
fn fill(
    plan: &mut Vec<Share>,
    rooms: &mut [u64],
    sides: &PairSides,
    prices: &[u64],
    last: usize,
) -> Result<(), NoMemory>
    requires { last ≤ 12 }
{
    for _ in 0..FILLINGS {
        let weights = closed_where_full(rooms);
        let Some(share) = best_share(sides, prices, &weights, HIGH, last) else {
            return Ok(());
        };
        place(plan, rooms, &share, u64::MAX)?;
    }
    Ok(())
}

// How a packing is rounded.
#[derive(Clone, Copy)]
enum Rounding {
    Down,
    Nearest,
}

// How far a chain is raised that was taken so far, where the room of the most crowded pair is full.
fn raise_of(amount: u64, most: Crowding, rounding: Rounding) -> u64 {
    let up = match rounding {
        Rounding::Down => 0,
        Rounding::Nearest => most.taken / 2,
    };
    let parts = amount
        .saturating_mul(ROOM)
        .saturating_mul(most.price)
        .saturating_add(up);
    parts.checked_div(most.taken).unwrap_or(0)
}

// The room of each pair.
fn rooms_of(prices: &[u64]) -> [u64; 169] {
    let mut rooms = [0; PAIRS];
    for pair in 0..PAIRS {
        rooms[pair] = ROOM.saturating_mul(prices.get(pair).copied().unwrap_or(0));
    }
    rooms
}

// Appends chains as far as they were taken, scaled to the room.
fn pack(
    plan: &mut Vec<Share>,
    sides: &PairSides,
    prices: &[u64],
    last: usize,
    shares: &[Share],
    rounding: Rounding,
) -> Result<(), NoMemory>
    requires { last ≤ 12 }
{
    let most = most_crowded(prices, shares);
    let mut rooms = rooms_of(prices);
    for share in shares {
        place(
            plan,
            &mut rooms,
            share,
            raise_of(share.amount, most, rounding),
        )?;
    }
    fill(plan, &mut rooms, sides, prices, last)
}

// A packing of chains as far as they were taken.
fn scaled(
    alloc: Global,
    sides: &PairSides,
    prices: &[u64],
    last: usize,
    shares: &[Share],
    rounding: Rounding,
) -> Result<Vec<Share>, NoMemory>
    requires { last ≤ 12 }
{
    let mut plan = Vec::new(alloc);
    match pack(&mut plan, sides, prices, last, shares, rounding) {
        Ok(_) => Ok(plan),
        Err(no) => {
            drop(plan);
            Err(no)
        }
    }
}

// What a packing brings.
fn brought(plan: &[Share]) -> u64 {
    let mut total: u64 = 0;
    for share in plan {
        let right = u64::try_from(share.right).unwrap_or(0);
        total = total.saturating_add(right.saturating_mul(share.amount));
    }
    total
}

// The packing that brings more.
fn better(a: Vec<Share>, b: Vec<Share>) -> Vec<Share> {
    if brought(a.as_slice()) < brought(b.as_slice()) {
        b
    } else {
        a
    }
}

// The better one of a packing and another, if that could be made.
fn better_made(a: Vec<Share>, b: Result<Vec<Share>, NoMemory>) -> Result<Vec<Share>, NoMemory> {
    match b {
        Ok(b) => Ok(better(a, b)),
        Err(no) => {
            drop(a);
            Err(no)
        }
    }
}

// The best packing of what was taken, rounded down or to the nearest, or of chains that bring most alone.
fn best_scaled(
    alloc: Global,
    sides: &PairSides,
    prices: &[u64],
    last: usize,
    shares: &[Share],
) -> Result<Vec<Share>, NoMemory>
    requires { last ≤ 12 }
{
    let down = scaled(alloc, sides, prices, last, shares, Rounding::Down)?;
    let near = scaled(alloc, sides, prices, last, shares, Rounding::Nearest);
    let taken = better_made(down, near)?;
    better_made(
        taken,
        scaled(alloc, sides, prices, last, &[], Rounding::Down),
    )
}

// The best packing of a length: what was taken rounded down or to the nearest, or chains that bring most alone. Nothing where no chain brings anything.
fn packed(
    alloc: Global,
    sides: &PairSides,
    prices: &[u64],
    last: usize,
) -> Result<Vec<Share>, NoMemory>
    requires { last ≤ 12 }
{
    if best_share(sides, prices, &[0; PAIRS], 0, last).is_none() {
        return Ok(Vec::new(alloc));
    }
    let shares = weighed(alloc, sides, prices, last)?;
    let best = best_scaled(alloc, sides, prices, last, shares.as_slice());
    drop(shares);
    best
}

// The candidate for a chain of a packing.
fn candidate_of(share: Share, length: u32) -> Candidate {
    Candidate {
        row: Row::Cross {
            length,
            price: share.index.saturating_add(1),
            chain: share.chain,
        },
        amount: share.amount,
    }
}

// Appends the candidates of a length.
fn candidates_for(
    candidates: &mut Vec<Candidate>,
    alloc: Global,
    sides: &PairSides,
    prices: &[u64],
    last: usize,
    length: u32,
) -> Result<(), NoMemory>
    requires { last ≤ 12 }
{
    for share in packed(alloc, sides, prices, last)? {
        candidates.push(candidate_of(share, length))?;
    }
    Ok(())
}

// Appends the candidates of both lengths.
fn candidates_for_both(
    candidates: &mut Vec<Candidate>,
    alloc: Global,
    pairs: &PairTable,
    cargo: &Cargo,
) -> Result<(), NoMemory> {
    let prices = least_prices(cargo);
    let last = cargo.calls() as usize;
    candidates_for(candidates, alloc, &pairs.short, &prices, last, 20)?;
    candidates_for(candidates, alloc, &pairs.long, &prices, last, 40)
}

/// The crossing rows to raise where no variable is fixed and no row has a multiplier, those of 20 foot first. It is a guess, of which
/// nothing is claimed.
pub fn candidates(
    alloc: Global,
    pairs: &PairTable,
    cargo: &Cargo,
) -> Result<Vec<Candidate>, NoMemory> {
    let mut candidates = Vec::new(alloc);
    match candidates_for_both(&mut candidates, alloc, pairs, cargo) {
        Ok(_) => Ok(candidates),
        Err(no) => {
            drop(candidates);
            Err(no)
        }
    }
}
