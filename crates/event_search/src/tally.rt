//! The multipliers at a node, with what they add up to.
ghost use Rattle.std.specs.Prelude.{◌≡◌, ℕ, ◌<◌, ◌≤◌, ◌^◌, [], IfOk, Some, length, map, slice_get, slice_set, true, pos, ◌+ℤ◌, ◌*ℤ◌, unsigned_abs};
ghost use Rattle.proof_trees.specs.Multipliers.{Multipliers, raised, raised_all};
ghost use Rattle.proof_trees.specs.Trees.{begun};
ghost use Rattle.zero_one_rows.specs.declared.program.Row.{Row as Rows};
ghost use Rattle.zero_one_rows.specs.Variables.{variables};
ghost use Rattle.zero_one_rows.specs.Rows.{whole};
ghost use Rattle.zero_one_rows.specs.Counted.{all_rows};
ghost use Rattle.certificate.specs.Entries.{same_row, raise_of};
ghost use Rattle.dual_bound.specs.Adding.{in_range};
ghost use Rattle.crossing_pricing.specs.Gaps.{number_at};
ghost use Rattle.event_search.specs.Counting.{AreNamed, IsSized, Tallies, TalliesSome, Follows, AddsTo};
ghost use Rattle.event_search.specs.Standing.{standing, IsWay};

use crate::amounts::Amounts;
use crate::event_nodes::Step;
use certificate::{KeptRaise, Record};
use search_core::Done;
use std::alloc::Global;
use stow_data::{NoMemory, VarNo};
use zero_one_model::Model;
use zero_one_rows::{Raise, Row};

/// The greatest multiplier.
const MOST: i128 = 1 << 40;

/// The most rows of a program.
const MOST_ROWS: u64 = 2_000_000;

/// The multipliers of a program's rows, and the sums of the rows' right sides and coefficients, each times its row's multiplier.
#[derive(Drop)]
pub struct Tally {
    /// The multipliers, by the rows' numbers.
    pub amounts: Amounts,

    /// The sum of the right sides.
    pub right: i128,

    /// For each variable the sum of its coefficients.
    pub weights: Vec<i128>,
}

// The number of a row.
fn number_of(model: &Model, row: &Row) -> usize
    requires { (whole model.now).has row.now ≡ true }
    ensures { slice_get (all_rows model.now) result ≡ Some row.now }
{
    match model.row_number(row) {
        Some(k) => k as usize,
        None => unreachable!(),
    }
}

// A multiplier that is changed, where it stays in 0 to 2^40.
fn changed(old: u64, by: i64) -> Option<u64>
    requires { old ≤ 2 ^ 40 }
    ensures { result ≡ in_range (pos old +ℤ by) }
{
    let sum = old as i128 + by as i128;
    if sum < 0 || sum > MOST {
        None
    } else {
        Some(sum as u64)
    }
}

// A total with so many times a number more.
fn grown(total: i128, by: i64, each: i64) -> i128
    requires total { unsigned_abs total ≤ 2 ^ 98 }
    requires each { unsigned_abs each ≤ 2 ^ 37 }
    ensures { result ≡ total +ℤ by *ℤ each }
{
    total + by as i128 * each as i128
}

// Adds a raise of a row to the sum of a variable.
fn add_to_one(model: &Model, weights: &mut [i128], raise: &Raise, x: VarNo)
    requires row { (whole model.now).has raise.now.row ≡ true }
    requires var { x < length (variables model.now) }
    requires len { length weights.old ≡ length (variables model.now) }
    requires low { unsigned_abs (number_at weights.old x) ≤ 2 ^ 98 }
    ensures sum { weights.new ≡ slice_set weights.old x (number_at weights.old x +ℤ raise.now.amount *ℤ (whole model.now).coef raise.now.row x) }
    ensures small { unsigned_abs ((whole model.now).coef raise.now.row x) ≤ 2 ^ 37 }
{
    let index = x.0 as usize;
    let by = model.coefficient(&raise.row, x);
    weights[index] = grown(weights[index], raise.amount, by);
}

// Adds a raise of a row to the sum of each variable.
fn add_to_all(model: &Model, weights: &mut [i128], raise: &Raise)
    requires row { (whole model.now).has raise.now.row ≡ true }
    requires len { length weights.old ≡ length (variables model.now) }
    requires low { (x : ℕ) → x < length (variables model.now) → unsigned_abs (number_at weights.old x) ≤ 2 ^ 98 }
    ensures len { length weights.new ≡ length (variables model.now) }
    ensures sums { (x : ℕ) → x < length (variables model.now) → number_at weights.new x ≡ number_at weights.old x +ℤ raise.now.amount *ℤ (whole model.now).coef raise.now.row x }
    ensures small { (x : ℕ) → x < length (variables model.now) → unsigned_abs ((whole model.now).coef raise.now.row x) ≤ 2 ^ 37 }
{
    for v in 0..model.vars() {
        add_to_one(model, weights, raise, VarNo(v));
    }
}

impl Tally {
    /// Room for the multipliers and the sums of a program: one number for each row and one for each variable.
    pub fn new(alloc: Global, model: &Model) -> Result<Tally, NoMemory>
        ensures { IfOk result (IsSized model.now) }
    {
        Ok(Tally {
            amounts: Amounts::zero(alloc, model.rows() as usize)?,
            right: 0,
            weights: Vec::from_elem(alloc, 0, model.vars() as usize)?,
        })
    }

    // Goes to no multipliers.
    fn clear(&mut self, model: &Model)
        requires { IsSized model.now self.old }
        ensures { Tallies model.now [] self.new }
    {
        self.amounts.clear();
        self.right = 0;
        self.weights.fill(0);
    }

    // Adds a raise of a row to the sums.
    fn add(&mut self, model: &Model, raise: &Raise)
        requires row { (whole model.now).has raise.now.row ≡ true }
        requires some { TalliesSome model.now self.old }
        ensures amounts { self.new.amounts ≡ self.old.amounts }
        ensures adds { AddsTo model.now raise.now self.old self.new }
    {
        let rows = model.rows();
        prove!(rows <= MOST_ROWS);
        self.right = grown(self.right, raise.amount, model.rhs(&raise.row));
        add_to_all(model, self.weights.as_mut_slice(), raise);
    }

    // Changes a row's multiplier, where it stays in 0 to 2^40.
    fn raise(&mut self, model: &Model, raise: &Raise) -> bool
        requires row { (whole model.now).has raise.now.row ≡ true }
        requires some { TalliesSome model.now self.old }
        ensures sized { IsSized model.now self.new }
        ensures follows { (ms : Multipliers Rows) → Tallies model.now ms self.old → Follows model.now (raised same_row ms raise.now.row raise.now.amount) self.new result }
    {
        let k = number_of(model, &raise.row);
        let Some(amount) = changed(self.amounts.at(k), raise.amount) else {
            return false;
        };
        self.add(model, raise);
        self.amounts.set(k, amount);
        true
    }

    // Changes a row's multiplier by a raise that is kept.
    fn raise_kept(&mut self, model: &Model, kept: &KeptRaise) -> bool
        requires row { (whole model.now).has kept.now.row ≡ true }
        requires some { TalliesSome model.now self.old }
        ensures sized { IsSized model.now self.new }
        ensures follows { (ms : Multipliers Rows) → Tallies model.now ms self.old → Follows model.now (raised same_row ms kept.now.row kept.now.amount) self.new result }
    {
        let raise = kept.raise();
        self.raise(model, &raise)
    }

    // Changes rows' multipliers in order, as long as each stays in 0 to 2^40.
    fn raise_all(&mut self, model: &Model, raises: &[KeptRaise]) -> bool
        requires rows { AreNamed model.now raises.now }
        requires some { TalliesSome model.now self.old }
        ensures sized { IsSized model.now self.new }
        ensures follows { (ms : Multipliers Rows) → Tallies model.now ms self.old → Follows model.now (raised_all same_row (Some ms) (map raise_of raises.now)) self.new result }
    {
        for raise in raises {
            if !self.raise_kept(model, raise) {
                return false;
            }
        }
        true
    }

    // Goes to no multipliers where a record begins from zero.
    fn begin(&mut self, model: &Model, from_zero: bool)
        requires { TalliesSome model.now self.old }
        ensures { (ms : Multipliers Rows) → Tallies model.now ms self.old → Tallies model.now (begun from_zero ms) self.new }
    {
        if from_zero {
            self.clear(model);
        }
    }

    /// Goes on by a record's raises. False where one of them would lead out of the range of multipliers.
    pub fn follow(&mut self, model: &Model, entry: &Record) -> bool
        requires rows { AreNamed model.now entry.now.raises }
        requires some { TalliesSome model.now self.old }
        ensures sized { IsSized model.now self.new }
        ensures follows { (ms : Multipliers Rows) → Tallies model.now ms self.old
            → Follows model.now (raised_all same_row (Some (begun entry.now.from_zero ms)) (map raise_of entry.now.raises)) self.new result }
    {
        self.begin(model, entry.from_zero);
        self.raise_all(model, entry.raises.as_slice())
    }

    /// Goes to the multipliers with which the node at the end of a way begins, whatever they were before. It takes no memory.
    pub fn stand_at(&mut self, model: &Model, ended: &[Done<Record>], way: &[Step])
        requires sized { IsSized model.now self.old }
        requires way { IsWay model.now ended.now way.now }
        ensures { Tallies model.now (standing model.now ended.now way.now).multipliers self.new }
    {
        self.clear(model);
        for step in way {
            let _kept = self.follow(model, &ended[step.entry].entry);
        }
    }
}
