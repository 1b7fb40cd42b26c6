//! The most that a crossing row gains where its multiplier rises by 1, and a row that gains it, found without a list of crossing rows.
ghost use Rattle.std.specs.Prelude.{◌≡◌, ℕ, ◌+◌, ◌*◌, ◌<◌, ◌≤◌, ◌^◌, true, false, List, [], length, slice_index_or, pos, ◌-ℤ◌, ◌≤ℤ◌, unsigned_abs};
ghost use Rattle.std.specs.Int.{int_max};
ghost use Rattle.zero_one_rows.specs.Variables.{variables};
ghost use Rattle.zero_one_rows.specs.declared.program.Row.{Row as Rows};
ghost use Rattle.zero_one_rows.specs.Rows.{whole, is_base};
ghost use Rattle.dual_bound.specs.Costs.{PricedSome};
ghost use Rattle.crossing_pricing.specs.Climbs.{over_pairs, Climb, AreWorths, worth_at};
ghost use Rattle.dual_bound.specs.CrossGains.{gain_of};
ghost use Rattle.crossing_pricing.specs.Pairs.{ArePairs, AreGained};

use crate::costs::Costs;
use crossing_pricing::{NOTHING, PairSides, PairTable, chain_of, gaps_by_pair, most_of};
use zero_one_model::{Box01, Model};
use zero_one_rows::Row;

/// What a crossing row of a length gains at the price with this index, which is the price less 1.
#[derive(Clone, Copy)]
pub struct Offer {
    pub gain: i64,
    pub foot: u32,
    pub index: u32,
}

// The one that gains more.
fn larger_offer(a: Offer, b: Offer) -> Offer
    ensures { result.gain ≡ int_max a.gain b.gain }
{
    if a.gain < b.gain { b } else { a }
}

// What the best chain gains at the price with this index.
fn offer_at(
    sides: &PairSides,
    gaps: &[i64],
    from: usize,
    last: usize,
    foot: u32,
    index: u32,
) -> Offer
    requires worths { AreWorths (slice_index_or sides.now.prices index []) gaps.now from }
    requires last { last ≤ 12 }
    requires columns { sides.now.columns ≤ 3000 }
    requires index { index < 39 }
    ensures { (floor : ℕ) (qs : List (ℕ × ℕ)) → floor ≤ last → Climb last floor 0 floor qs → 2 ≤ length qs
        → (over_pairs (worth_at (slice_index_or sides.now.prices index []) gaps.now from) qs -ℤ pos ((index + 1) * sides.now.columns)) ≤ℤ result.gain }
{
    let most = most_of(sides.prices.at(index as usize), gaps, from, last);
    let all = (index + 1) * sides.columns;
    Offer {
        gain: most - all as i64,
        foot,
        index,
    }
}

// What the best chain of a length gains at any price.
fn best_offer(sides: &PairSides, gaps: &[i64], from: usize, last: usize, foot: u32) -> Offer
    requires worths { (q : ℕ) → q < length sides.now.prices → AreWorths (slice_index_or sides.now.prices q []) gaps.now from }
    requires last { last ≤ 12 }
    requires columns { sides.now.columns ≤ 3000 }
    requires few { length sides.now.prices ≤ 39 }
    ensures { (q floor : ℕ) (qs : List (ℕ × ℕ)) → q < length sides.now.prices → floor ≤ last → Climb last floor 0 floor qs → 2 ≤ length qs
        → (over_pairs (worth_at (slice_index_or sides.now.prices q []) gaps.now from) qs -ℤ pos ((q + 1) * sides.now.columns)) ≤ℤ result.gain }
{
    let mut best = Offer {
        gain: NOTHING.two,
        foot,
        index: 0,
    };
    for index in 0..sides.prices.len() as u32 {
        best = larger_offer(best, offer_at(sides, gaps, from, last, foot, index));
    }
    best
}

// The most that a crossing row gains.
fn best_of_both(model: &Model, pairs: &PairTable, b: &Box01, costs: &Costs, gaps: &[i64]) -> Offer
    requires whole { length b.now ≡ length (variables model.now) }
    requires pairs { ArePairs model.now pairs.now }
    requires gaps { AreGained b.now costs.now.reduced.items pairs.now.keys (length (variables model.now)) gaps.now }
    ensures { (r : Rows) → is_base r ≡ false → (whole model.now).has r ≡ true → gain_of model.now b.now costs.now.reduced.items r ≤ℤ result.gain }
{
    let last = model.cargo().calls() as usize;
    model.keeps_limits();
    let short = best_offer(&pairs.short, gaps, 0, last, 20);
    let long = best_offer(&pairs.long, gaps, 169, last, 40);
    larger_offer(short, long)
}

// A row of a length that gains as much as is offered: a guess, of which nothing is claimed.
fn row_in(sides: &PairSides, gaps: &[i64], from: usize, last: usize, offer: Offer) -> Option<Row>
    requires worths { (q : ℕ) → q < length sides.now.prices → AreWorths (slice_index_or sides.now.prices q []) gaps.now from }
    requires last { last ≤ 12 }
{
    let index = offer.index as usize;
    if index >= sides.prices.len() || offer.index > 38 {
        return None;
    }
    let chain = chain_of(sides.prices.at(index), gaps, from, last)?;
    Some(Row::Cross {
        length: offer.foot,
        price: offer.index + 1,
        chain,
    })
}

// A row that gains as much as is offered: a guess, of which nothing is claimed.
fn row_for(
    model: &Model,
    pairs: &PairTable,
    b: &Box01,
    costs: &Costs,
    gaps: &[i64],
    offer: Offer,
) -> Option<Row>
    requires pairs { ArePairs model.now pairs.now }
    requires gaps { AreGained b.now costs.now.reduced.items pairs.now.keys (length (variables model.now)) gaps.now }
{
    let last = model.cargo().calls() as usize;
    model.keeps_limits();
    if offer.foot == 20 {
        row_in(&pairs.short, gaps, 0, last, offer)
    } else {
        row_in(&pairs.long, gaps, 169, last, offer)
    }
}

/// The most that a crossing row gains where its multiplier rises by 1; and where that is more than 0, a row that is to gain it.
#[derive(Drop)]
pub struct Choice {
    pub gain: i64,
    pub row: Option<Row>,
}

/// The most that a crossing row gains, and a guess which row does. It takes no memory.
pub fn choose_crossing(model: &Model, pairs: &PairTable, b: &Box01, costs: &Costs) -> Choice
    requires whole { length b.now ≡ length (variables model.now) }
    requires pairs { ArePairs model.now pairs.now }
    requires priced { PricedSome model.now b.now costs.now }
    ensures { (r : Rows) → is_base r ≡ false → (whole model.now).has r ≡ true → gain_of model.now b.now costs.now.reduced.items r ≤ℤ result.gain }
{
    model.keeps_limits();
    let gaps = gaps_by_pair(model, b, costs.reduced.as_slice(), pairs.keys.as_slice());
    let offer = best_of_both(model, pairs, b, costs, &gaps);
    let row = if offer.gain > 0 {
        row_for(model, pairs, b, costs, &gaps, offer)
    } else {
        None
    };
    Choice {
        gain: offer.gain,
        row,
    }
}
