//! The number of a row, found in the order of rows: the inverse of the row by its number.
ghost use Rattle.std.specs.Prelude.{◌≡◌, ◌≢◌, ◌↔◌, ◌<◌, ◌≤◌, ℕ, IsTrue, AllPairs, MatchOption, Some, ◌∷◌, length, slice_get};
ghost use Rattle.zero_one_rows.specs.Chains.{IsBefore};
ghost use Rattle.zero_one_rows.specs.Counted.{base_in, rows_in};
ghost use Rattle.zero_one_rows.specs.Ordered.{family, numbers, Precedes};
ghost use Rattle.zero_one_rows.specs.declared.program.Row.{Row};

use crate::all_chains::Chain;
use crate::program::Row;
use crate::row_lists::RowLists;
use arrayvec::ArrayVec;

/// The numbers of a row: at most a length, a price and twelve calls.
type Numbers = ArrayVec<u32, 14>;

/// The family's place among the ten.
fn family_of(row: &Row) -> u32
    ensures { result ≡ family row.now }
{
    match row {
        Row::Flow { .. } => 0,
        Row::Start { .. } => 1,
        Row::Cell { .. } => 2,
        Row::Support { .. } => 3,
        Row::Twenty { .. } => 4,
        Row::Block { .. } => 5,
        Row::Hatch { .. } => 6,
        Row::Weight { .. } => 7,
        Row::Apart { .. } => 8,
        Row::Cross { .. } => 9,
    }
}

fn list_of(numbers: &[u32]) -> Numbers
    requires { length numbers.now ≤ 14 }
    ensures { result.items ≡ numbers.now }
{
    let mut list = ArrayVec::new();
    let _ = list.try_extend_from_slice(numbers);
    list
}

/// The numbers of a crossing row.
fn crossing_numbers(length: u32, price: u32, chain: &Chain) -> Numbers
    ensures { result.items ≡ length ∷ price ∷ chain.now }
{
    let mut list = list_of(&[length, price]);
    let _ = list.try_extend_from_slice(chain.items());
    list
}

fn numbers_of(row: &Row) -> Numbers
    ensures { result.items ≡ numbers row.now }
{
    match row {
        Row::Flow { q, call, kind } => list_of(&[*q, call.0, kind.0]),
        Row::Start { q, place } => list_of(&[*q, place.0]),
        Row::Cell { call, half }
        | Row::Support { call, half }
        | Row::Twenty { call, half }
        | Row::Block { call, half } => list_of(&[call.0, half.0]),
        Row::Hatch {
            w,
            call,
            half,
            lowest,
        } => list_of(&[*w, call.0, half.0, lowest.0]),
        Row::Weight { call, stack } => list_of(&[call.0, stack.0]),
        Row::Apart {
            call,
            index,
            first,
            second,
        } => list_of(&[call.0, *index, first.0, second.0]),
        Row::Cross {
            length,
            price,
            chain,
        } => crossing_numbers(*length, *price, chain),
    }
}

/// Whether a list of numbers stands before another in lexical order, a prefix first.
fn is_earlier(a: &[u32], b: &[u32]) -> bool
    ensures { IsTrue result ↔ IsBefore a.now b.now }
{
    a < b
}

/// Whether a row stands before another.
fn is_before(a: &Row, b: &Row) -> bool
    ensures { IsTrue result ↔ Precedes a.now b.now }
{
    let (first, second) = (family_of(a), family_of(b));
    if first != second {
        return first < second;
    }
    is_earlier(numbers_of(a).as_slice(), numbers_of(b).as_slice())
}

fn is_same(a: &Row, b: &Row) -> bool
    ensures { IsTrue result ↔ (a.now ≡ b.now) }
{
    a == b
}

impl RowLists {
    /// How many of all rows, of which so many are base rows, stand before a row.
    fn rows_before(&self, base: u64, all: u64, row: &Row) -> u64
        requires few { length (rows_in self.now) ≤ 2000000 }
        requires base { base ≡ length (base_in self.now) }
        requires all { all ≡ length (rows_in self.now) }
        requires order { AllPairs Precedes (rows_in self.now) }
        ensures within { result ≤ all }
        ensures before { (k : ℕ) (r : Row) → k < result → slice_get (rows_in self.now) k ≡ Some r → Precedes r row.now }
        ensures after { (k : ℕ) (r : Row) → result ≤ k → slice_get (rows_in self.now) k ≡ Some r → Precedes r row.now → ⊥ }
    {
        let mut low = 0;
        let mut high = all;
        while low < high {
            let middle = low + (high - low) / 2;
            if is_before(&self.at(base, middle), row) {
                low = middle + 1;
            } else {
                high = middle;
            }
        }
        low
    }

    /// The number of a row among all rows, of which so many are base rows; None exactly where the row isn't among them.
    pub fn number(&self, base: u64, all: u64, row: &Row) -> Option<u64>
        requires few { length (rows_in self.now) ≤ 2000000 }
        requires base { base ≡ length (base_in self.now) }
        requires all { all ≡ length (rows_in self.now) }
        requires order { AllPairs Precedes (rows_in self.now) }
        ensures { MatchOption result ((k : ℕ) → slice_get (rows_in self.now) k ≢ Some row.now) (λ k. slice_get (rows_in self.now) k ≡ Some row.now) }
    {
        let k = self.rows_before(base, all, row);
        if k >= all {
            return None;
        }
        if is_same(&self.at(base, k), row) {
            Some(k)
        } else {
            None
        }
    }
}
