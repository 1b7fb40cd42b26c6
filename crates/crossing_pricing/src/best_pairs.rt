//! The most that the pairs of a chain bring together: a recursion over calls, in place of a list of all chains.
ghost use Rattle.std.specs.Prelude.{◌≡◌, ℕ, ◌+◌, ◌-◌, ◌*◌, ◌<◌, ◌≤◌, ◌^◌, List, length, pos, ◌+ℤ◌, ◌≤ℤ◌, unsigned_abs};
ghost use Rattle.std.specs.Int.{int_max};
ghost use Rattle.crossing_pricing.specs.Climbs.{over_pairs, Climb, AreWorths, worth_at, IsSmall, AreSmall, AreBest, room};

/// The pairs of calls 0 to 12.
pub const PAIRS: usize = 169;

/// The most that pairs of calls, which rise from pair to pair, bring together: one pair or more, and two or more. In the unit of what the pairs bring.
#[derive(Clone, Copy)]
pub struct Best {
    pub one: i64,
    pub two: i64,
}

/// Less than any pairs bring.
pub const NOTHING: Best = Best {
    one: -(1 << 45),
    two: -(1 << 45),
};

/// The larger of two numbers.
pub fn larger(a: i64, b: i64) -> i64
    ensures value { result ≡ int_max a b }
    ensures size { (s : ℕ) → unsigned_abs a ≤ s → unsigned_abs b ≤ s → unsigned_abs result ≤ s }
{
    if a < b { b } else { a }
}

/// What a pair of calls brings: a part of its own, and what its variables gain.
pub fn worth(sides: &[i64], gaps: &[i64], from: usize, load: usize, dest: usize) -> i64
    requires worths { AreWorths sides.now gaps.now from }
    requires load { load ≤ 12 }
    requires dest { dest ≤ 12 }
    ensures value { result ≡ worth_at sides.now gaps.now from load dest }
    ensures size { unsigned_abs result ≤ 2 ^ 38 }
{
    let pair = 13 * load + dest;
    sides[pair] + gaps[from + pair]
}

// The sum of two small numbers.
fn joined(worth: i64, behind: i64) -> i64
    requires worth { unsigned_abs worth ≤ 2 ^ 38 }
    requires behind { unsigned_abs behind ≤ 2 ^ 50 }
    ensures value { result ≡ worth +ℤ behind }
    ensures size { unsigned_abs result ≤ unsigned_abs behind + 2 ^ 38 }
{
    worth + behind
}

// The best from a pair on, by the bests from the next destination on, from the next call on, and from both on.
fn best_here(worth: i64, right: Best, down: Best, diagonal: Best) -> Best
    requires worth { unsigned_abs worth ≤ 2 ^ 38 }
    requires diagonal { IsSmall (2 ^ 50) diagonal }
    ensures one { result.one ≡ int_max (int_max right.one down.one) (worth +ℤ int_max (pos 0) diagonal.one) }
    ensures two { result.two ≡ int_max (int_max right.two down.two) (worth +ℤ diagonal.one) }
    ensures small { (s : ℕ) → IsSmall (s + 2 ^ 38) right → IsSmall s down → IsSmall s diagonal → IsSmall (s + 2 ^ 38) result }
{
    Best {
        one: larger(
            larger(right.one, down.one),
            joined(worth, larger(0, diagonal.one)),
        ),
        two: larger(larger(right.two, down.two), joined(worth, diagonal.one)),
    }
}

// The bests from a call on, by those from the next call on.
fn best_row(
    sides: &[i64],
    gaps: &[i64],
    from: usize,
    last: usize,
    floor: usize,
    load: usize,
    below: &[Best; 14],
) -> [Best; 14]
    requires worths { AreWorths sides.now gaps.now from }
    requires last { last ≤ 12 }
    requires floor { floor ≤ last }
    requires load { load < floor }
    requires best { AreBest (worth_at sides.now gaps.now from) last floor (load + 1) floor below.now }
    requires small { AreSmall (room (load + 1)) below.now }
    ensures best { AreBest (worth_at sides.now gaps.now from) last floor load floor result }
    ensures small { AreSmall (room load) result }
{
    let mut row = [NOTHING; 14];
    for count in 0..last + 1 - floor {
        let dest = last - count;
        let worth = worth(sides, gaps, from, load, dest);
        row[dest] = best_here(worth, row[dest + 1], below[dest], below[dest + 1]);
    }
    row
}

/// The bests from a call on, of pairs of calls below a floor and of calls from it on.
pub fn best_from(
    sides: &[i64],
    gaps: &[i64],
    from: usize,
    last: usize,
    floor: usize,
    load: usize,
) -> [Best; 14]
    requires worths { AreWorths sides.now gaps.now from }
    requires last { last ≤ 12 }
    requires floor { floor ≤ last }
    requires load { load ≤ floor }
    ensures best { AreBest (worth_at sides.now gaps.now from) last floor load floor result }
    ensures small { AreSmall (room load) result }
{
    let mut row = [NOTHING; 14];
    for count in 0..floor - load {
        row = best_row(sides, gaps, from, last, floor, floor - 1 - count, &row);
    }
    row
}

/// The most that two or more pairs bring, of calls below a floor and of calls from it on.
pub fn most_at(sides: &[i64], gaps: &[i64], from: usize, last: usize, floor: usize) -> i64
    requires worths { AreWorths sides.now gaps.now from }
    requires last { last ≤ 12 }
    requires floor { floor ≤ last }
    ensures most { (qs : List (ℕ × ℕ)) → Climb last floor 0 floor qs → 2 ≤ length qs → over_pairs (worth_at sides.now gaps.now from) qs ≤ℤ result }
    ensures small { unsigned_abs result ≤ 2 ^ 50 }
{
    let row = best_from(sides, gaps, from, last, floor, 0);
    row[floor].two
}

/// The most that two or more pairs of calls up to the last bring, of which both calls rise from pair to pair. The pair of a load and a destination, each from 0 to 12, brings the entry 13 · load + dest of the 169 sides, and as many entries after `from` that of the gaps; the answer is in their unit.
pub fn most_of(sides: &[i64], gaps: &[i64], from: usize, last: usize) -> i64
    requires worths { AreWorths sides.now gaps.now from }
    requires last { last ≤ 12 }
    ensures most { (floor : ℕ) (qs : List (ℕ × ℕ)) → floor ≤ last → Climb last floor 0 floor qs → 2 ≤ length qs → over_pairs (worth_at sides.now gaps.now from) qs ≤ℤ result }
    ensures small { unsigned_abs result ≤ 2 ^ 50 }
{
    let mut most = NOTHING.two;
    for floor in 0..last + 1 {
        most = larger(most, most_at(sides, gaps, from, last, floor));
    }
    most
}
