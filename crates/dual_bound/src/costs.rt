//! Reduced costs and the dual value, kept for a box and multipliers.
ghost use Rattle.std.specs.Prelude.{◌≡◌, ℕ, true, ◌+◌, ◌<◌, ◌≤◌, ◌^◌, IfOk, length, slice_set, [], pos, ◌+ℤ◌, ◌-ℤ◌, ◌*ℤ◌, unsigned_abs};
ghost use Rattle.proof_trees.specs.Boxes.{at};
ghost use Rattle.proof_trees.specs.Multipliers.{Multipliers as Prices, least, amount_of, with_amount, worth};
ghost use Rattle.zero_one_rows.specs.Variables.{variables};
ghost use Rattle.zero_one_rows.specs.declared.program.Row.{Row as Rows};
ghost use Rattle.zero_one_rows.specs.Rows.{whole};
ghost use Rattle.certificate.specs.Entries.{same_row};
ghost use Rattle.row_matrix.specs.Terms.{AreTerms};
ghost use Rattle.crossing_pricing.specs.Gaps.{number_at, gap};
ghost use Rattle.dual_bound.specs.Costs.{parts, IsListed, Gauged, Priced, PricedSome, HasRoom, Gains, gaps_of};

use crate::sizes::{
    difference, first_cost, grown, least_of, moved, product, signed, sum_of, swapped,
};
use crate::terms::Listed;
use row_matrix::Term;
use std::alloc::Global;
use stow_data::{NoMemory, VarNo};
use zero_one_model::{Box01, Model};
use zero_one_rows::Row;

/// The reduced costs of the variables, 16 times the cost less the weighed coefficients; the weighed right sides; and the dual value.
#[derive(Drop)]
pub struct Costs {
    pub reduced: Vec<i128>,
    pub right: i128,
    pub value: i128,
}

// The reduced costs where no row has a multiplier.
fn first_costs(alloc: Global, model: &Model) -> Result<Vec<i128>, NoMemory>
    ensures len { IfOk result (λ ds. length ds.items ≡ length (variables model.now)) }
    ensures each { IfOk result (λ ds. (v : ℕ) → v < length (variables model.now) → number_at ds.items v ≡ pos 16 *ℤ (whole model.now).cost v) }
    ensures small { IfOk result (λ ds. (v : ℕ) → v < length (variables model.now) → unsigned_abs (number_at ds.items v) ≤ 16000) }
{
    let mut costs = Vec::with_capacity(alloc, model.vars() as usize)?;
    for v in 0..model.vars() {
        costs.push(first_cost(model.cost(VarNo(v))))?;
    }
    Ok(costs)
}

#[tactic(auto, using(std::proofs::lemmas::Option::get_or_from_slice_get))]
/// What a variable with this reduced cost brings to the dual value of a box.
pub fn part(b: &Box01, x: VarNo, reduced: i128) -> i128
    requires { x < length b.now }
    ensures value { result ≡ least (at b.now x) reduced }
    ensures size { unsigned_abs result ≤ unsigned_abs reduced }
{
    least_of(b.at(x), reduced)
}

// The sum of what the variables bring.
fn sum_parts(model: &Model, b: &Box01, reduced: &[i128]) -> i128
    requires whole { length b.now ≡ length (variables model.now) }
    requires len { length reduced.now ≡ length (variables model.now) }
    requires small { (v : ℕ) → v < length (variables model.now) → unsigned_abs (number_at reduced.now v) ≤ 16000 }
    ensures { result ≡ parts model.now b.now reduced.now }
{
    let mut total: i128 = 0;
    for v in 0..model.vars() {
        total = sum_of(total, part(b, VarNo(v), reduced[v as usize]));
    }
    total
}

// Sets the reduced costs to those where no row has a multiplier.
fn reset(reduced: &mut [i128], model: &Model)
    requires { length reduced.old ≡ length (variables model.now) }
    ensures len { length reduced.new ≡ length (variables model.now) }
    ensures each { (v : ℕ) → v < length (variables model.now) → number_at reduced.new v ≡ pos 16 *ℤ (whole model.now).cost v }
    ensures small { (v : ℕ) → v < length (variables model.now) → unsigned_abs (number_at reduced.new v) ≤ 16000 }
{
    for v in 0..model.vars() {
        reduced[v as usize] = first_cost(model.cost(VarNo(v)));
    }
}

impl Costs {
    /// Those of a box without multipliers.
    pub fn start(alloc: Global, model: &Model, b: &Box01) -> Result<Costs, NoMemory>
        requires { length b.now ≡ length (variables model.now) }
        ensures { IfOk result (λ c. Priced model.now b.now [] c) }
    {
        let reduced = first_costs(alloc, model)?;
        let value = sum_parts(model, b, reduced.as_slice());
        Ok(Costs {
            reduced,
            right: 0,
            value,
        })
    }

    /// Those of the same box without multipliers. It takes no memory.
    pub fn clear(&mut self, model: &Model, b: &Box01)
        requires whole { length b.now ≡ length (variables model.now) }
        requires len { length self.old.reduced.items ≡ length (variables model.now) }
        ensures { Priced model.now b.now [] self.new }
    {
        reset(self.reduced.as_mut_slice(), model);
        self.right = 0;
        self.value = sum_parts(model, b, self.reduced.as_slice());
    }

    // One variable of a row whose multiplier changes.
    fn price_var(&mut self, b: &Box01, term: Term, by: i64)
        requires var { term.at < length b.now }
        requires len { length self.old.reduced.items ≡ length b.now }
        requires small { unsigned_abs (number_at self.old.reduced.items term.at) ≤ 2 ^ 79 }
        requires room { unsigned_abs self.old.value ≤ 2 ^ 122 }
        requires by { unsigned_abs by ≤ 2 ^ 40 }
        requires coef { unsigned_abs term.by ≤ 2 ^ 17 }
        ensures right { self.new.right ≡ self.old.right }
        ensures reduced { self.new.reduced.items ≡ slice_set self.old.reduced.items term.at (number_at self.old.reduced.items term.at -ℤ by *ℤ term.by) }
        ensures value { self.new.value ≡ self.old.value +ℤ gap (at b.now term.at) (number_at self.old.reduced.items term.at) (by *ℤ term.by) }
    {
        let index = term.at.0 as usize;
        let old = self.reduced[index];
        let new = moved(old, by, term.by as i64);
        self.value = swapped(self.value, part(b, term.at, old), part(b, term.at, new));
        self.reduced[index] = new;
    }

    // The variables of a row whose multiplier changes.
    fn price_vars(&mut self, model: &Model, b: &Box01, row: &Row, by: i64, terms: &[Term])
        requires row { (whole model.now).has row.now ≡ true }
        requires whole { length b.now ≡ length (variables model.now) }
        requires by { unsigned_abs by ≤ 2 ^ 40 }
        requires terms { AreTerms model.now row.now terms.now }
        requires room { HasRoom model.now b.now self.old }
        ensures right { self.new.right ≡ self.old.right }
        ensures gauged { Gauged model.now b.now self.new }
        ensures value { unsigned_abs self.new.value ≤ 2 ^ 122 }
        ensures reduced { (v : ℕ) → v < length (variables model.now)
            → number_at self.new.reduced.items v ≡ number_at self.old.reduced.items v -ℤ by *ℤ (whole model.now).coef row.now v }
    {
        let _count = terms.len();
        for term in terms {
            self.price_var(b, *term, by);
        }
    }

    /// Adds to a row's multiplier. It takes no memory.
    pub fn add_row(&mut self, model: &Model, b: &Box01, listed: Listed, by: i64)
        requires whole { length b.now ≡ length (variables model.now) }
        requires by { unsigned_abs by ≤ 2 ^ 40 }
        requires listed { IsListed model.now listed.row.now listed.right listed.terms.now }
        requires priced { PricedSome model.now b.now self.old }
        ensures { (ms : Prices Rows) (n : ℕ) → Priced model.now b.now ms self.old → pos (amount_of same_row ms listed.entry.row.now) +ℤ by ≡ pos n → n ≤ 2 ^ 40
            → Priced model.now b.now (with_amount same_row ms listed.entry.row.now n) self.new }
    {
        model.keeps_limits();
        self.price_vars(model, b, listed.row, by, listed.terms);
        self.right = grown(self.right, by, listed.right);
        self.value = grown(self.value, by, listed.right);
    }

    // What a variable gains where its reduced cost falls by so many times its coefficient.
    fn gap_at(&self, b: &Box01, term: Term, by: i64) -> i128
        requires var { term.at < length b.now }
        requires len { length self.now.reduced.items ≡ length b.now }
        requires small { unsigned_abs (number_at self.now.reduced.items term.at) ≤ 2 ^ 79 }
        requires by { unsigned_abs by ≤ 2 ^ 40 }
        requires coef { unsigned_abs term.by ≤ 2 ^ 17 }
        ensures { result ≡ gap (at b.now term.at) (number_at self.now.reduced.items term.at) (by *ℤ term.by) }
    {
        let old = self.reduced[term.at.0 as usize];
        let new = moved(old, by, term.by as i64);
        difference(part(b, term.at, new), part(b, term.at, old))
    }

    // What the variables of a row gain where its multiplier rises by so much.
    fn gaps(&self, model: &Model, b: &Box01, row: &Row, by: i64, terms: &[Term]) -> i128
        requires row { (whole model.now).has row.now ≡ true }
        requires whole { length b.now ≡ length (variables model.now) }
        requires by { unsigned_abs by ≤ 2 ^ 40 }
        requires terms { AreTerms model.now row.now terms.now }
        requires room { HasRoom model.now b.now self.now }
        ensures value { result ≡ gaps_of model.now b.now self.now.reduced.items row.now by }
        ensures size { unsigned_abs result ≤ 2 ^ 122 }
    {
        let _count = terms.len();
        let mut total: i128 = 0;
        for term in terms {
            total = sum_of(total, self.gap_at(b, *term, by));
        }
        total
    }

    /// How much more the box is worth where a row's multiplier rises by so much. It takes no memory.
    pub fn gain(&self, model: &Model, b: &Box01, listed: Listed, more: u64) -> i128
        requires whole { length b.now ≡ length (variables model.now) }
        requires more { more ≤ 2 ^ 40 }
        requires listed { IsListed model.now listed.row.now listed.right listed.terms.now }
        requires priced { PricedSome model.now b.now self.now }
        ensures { (ms : Prices Rows) → Priced model.now b.now ms self.now → Gains model.now b.now ms listed.entry.row.now more result }
    {
        model.keeps_limits();
        let by = signed(more);
        sum_of(
            product(by, listed.right),
            self.gaps(model, b, listed.row, by, listed.terms),
        )
    }
}

impl Costs {
    /// The dual value.
    pub fn total(&self) -> i128
        ensures { result ≡ self.now.value }
    {
        self.value
    }

    // The reduced cost of a variable.
    fn reduced_at(&self, x: VarNo) -> i128
        requires { x < length self.now.reduced.items }
        ensures { result ≡ number_at self.now.reduced.items x }
    {
        self.reduced[x.0 as usize]
    }

    // The dual value of the box where a variable is fixed so, or free.
    fn with_part(&self, model: &Model, b: &Box01, x: VarNo, allowed: Option<bool>) -> i128
        requires var { x < length b.now }
        requires whole { length b.now ≡ length (variables model.now) }
        requires priced { PricedSome model.now b.now self.now }
        ensures { result ≡ self.now.right +ℤ parts model.now (slice_set b.now x allowed) self.now.reduced.items }
    {
        model.keeps_limits();
        let reduced = self.reduced_at(x);
        swapped(self.value, part(b, x, reduced), least_of(allowed, reduced))
    }

    /// The dual value of the box where a variable is fixed so, or free. It takes constant time.
    pub fn other(&self, model: &Model, b: &Box01, x: VarNo, allowed: Option<bool>) -> i128
        requires var { x < length b.now }
        requires whole { length b.now ≡ length (variables model.now) }
        requires priced { PricedSome model.now b.now self.now }
        ensures { (ms : Prices Rows) → Priced model.now b.now ms self.now → result ≡ worth (whole model.now) (slice_set b.now x allowed) ms }
    {
        self.with_part(model, b, x, allowed)
    }

    /// A variable of the box is fixed so, or free again. It takes constant time.
    pub fn allow(&mut self, model: &Model, b: &Box01, x: VarNo, allowed: Option<bool>)
        requires var { x < length b.now }
        requires whole { length b.now ≡ length (variables model.now) }
        requires priced { PricedSome model.now b.now self.old }
        ensures { (ms : Prices Rows) → Priced model.now b.now ms self.old → Priced model.now (slice_set b.now x allowed) ms self.new }
    {
        self.value = self.with_part(model, b, x, allowed);
    }
}
