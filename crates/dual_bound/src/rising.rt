//! One row looked at: whether its multiplier can be raised with gain, and by how much.
ghost use Rattle.std.specs.Prelude.{◌≡◌, true, ◌+◌, ◌<◌, ◌≤◌, ◌^◌, length, slice_get, Some, None, Ok, IfOk, IfSome, IfNone, ◌<ℤ◌};
ghost use Rattle.proof_trees.specs.Multipliers.{Multipliers as Prices, worth};
ghost use Rattle.zero_one_rows.specs.Variables.{variables};
ghost use Rattle.zero_one_rows.specs.declared.program.Row.{Row as Rows};
ghost use Rattle.zero_one_rows.specs.Rows.{whole};
ghost use Rattle.zero_one_rows.specs.Counted.{all_rows};
ghost use Rattle.dual_bound.specs.Costs.{IsListed, Priced, PricedSome};
ghost use Rattle.dual_bound.specs.Rising.{raised_by, IsFlat, RisesBy, Rises};

use crate::costs::Costs;
use crate::multipliers::{MOST, Multipliers, copy_of};
use crate::table::RowTable;
use crate::terms::{Listed, list_row, terms_of};
use row_matrix::Term;
use std::alloc::Global;
use stow_data::{NoMemory, Seq};
use zero_one_model::{Box01, Model};
use zero_one_rows::Row;

/// A row whose multiplier can be raised with gain: its number in the order of rows, its right side and terms, and by how much.
#[derive(Drop)]
pub struct Rising {
    pub number: u64,
    pub row: Row,
    pub right: i64,
    pub terms: Seq<Term>,
    pub more: u64,
}

impl Costs {
    // Whether the last of so many raises by 1 still makes the box worth more: a guess.
    fn still_gains(&self, model: &Model, b: &Box01, listed: Listed, more: u64) -> bool
        requires whole { length b.now ≡ length (variables model.now) }
        requires more { (1 ≤ more) × (more ≤ 2 ^ 40) }
        requires listed { IsListed model.now listed.row.now listed.right listed.terms.now }
        requires priced { PricedSome model.now b.now self.now }
    {
        self.gain(model, b, listed, more) > self.gain(model, b, listed, more - 1)
    }

    // A number of raises, doubled while the last still gains: a guess, of which only the range is claimed.
    fn doubled(&self, model: &Model, b: &Box01, listed: Listed, room: u64) -> u64
        requires whole { length b.now ≡ length (variables model.now) }
        requires room { (1 ≤ room) × (room ≤ 2 ^ 40) }
        requires listed { IsListed model.now listed.row.now listed.right listed.terms.now }
        requires priced { PricedSome model.now b.now self.now }
        ensures { (1 ≤ result) × (result ≤ room) }
    {
        let mut more = 1;
        for _ in 0..40 {
            if more > room / 2 || !self.still_gains(model, b, listed, 2 * more) {
                return more;
            }
            more = 2 * more;
        }
        more
    }

    // How far a multiplier may be raised so that the last raise by 1 still gains: a guess, of which only the range is claimed.
    fn guess(&self, model: &Model, b: &Box01, listed: Listed, room: u64) -> u64
        requires whole { length b.now ≡ length (variables model.now) }
        requires room { (1 ≤ room) × (room ≤ 2 ^ 40) }
        requires listed { IsListed model.now listed.row.now listed.right listed.terms.now }
        requires priced { PricedSome model.now b.now self.now }
        ensures { (1 ≤ result) × (result ≤ room) }
    {
        let mut low = self.doubled(model, b, listed, room);
        let mut step = low;
        while step > 1 {
            step /= 2;
            if low + step <= room && self.still_gains(model, b, listed, low + step) {
                low += step;
            }
        }
        low
    }

    // How far to raise a row whose multiplier, raised by 1, makes the box worth more.
    fn choose(&self, model: &Model, b: &Box01, listed: Listed, room: u64) -> u64
        requires whole { length b.now ≡ length (variables model.now) }
        requires room { (1 ≤ room) × (room ≤ 2 ^ 40) }
        requires listed { IsListed model.now listed.row.now listed.right listed.terms.now }
        requires priced { PricedSome model.now b.now self.now }
        ensures range { (1 ≤ result) × (result ≤ room) }
        ensures much { (ms : Prices Rows) → Priced model.now b.now ms self.now
            → worth (whole model.now) b.now ms <ℤ worth (whole model.now) b.now (raised_by ms listed.entry.row.now 1)
            → worth (whole model.now) b.now ms <ℤ worth (whole model.now) b.now (raised_by ms listed.entry.row.now result) }
    {
        let more = self.guess(model, b, listed, room);
        if self.gain(model, b, listed, more) > 0 {
            return more;
        }
        1
    }

    // By how much to raise a row with gain; None where its multiplier, raised by 1, brings nothing.
    fn chance(&self, model: &Model, b: &Box01, m: &Multipliers, listed: Listed) -> Option<u64>
        requires whole { length b.now ≡ length (variables model.now) }
        requires listed { IsListed model.now listed.row.now listed.right listed.terms.now }
        requires priced { Priced model.now b.now m.now self.now }
        ensures none { IfNone result (IsFlat model.now b.now m.now listed.entry.row.now) }
        ensures some { IfSome result (λ more. RisesBy model.now b.now m.now listed.entry.row.now more) }
    {
        if self.gain(model, b, listed, 1) <= 0 {
            return None;
        }
        let amount = m.amount(m.place(listed.row));
        if amount >= MOST {
            return None;
        }
        Some(self.choose(model, b, listed, MOST - amount))
    }
}

// A row with gain, as it is to be raised; None where its multiplier, raised by 1, brings nothing.
fn rising_of(
    alloc: Global,
    model: &Model,
    b: &Box01,
    m: &Multipliers,
    costs: &Costs,
    number: u64,
    listed: Listed,
) -> Result<Option<Rising>, NoMemory>
    requires whole { length b.now ≡ length (variables model.now) }
    requires listed { IsListed model.now listed.row.now listed.right listed.terms.now }
    requires priced { Priced model.now b.now m.now costs.now }
    ensures none { result ≡ Ok None → IsFlat model.now b.now m.now listed.entry.row.now }
    ensures some { IfOk result (λ o. IfSome o (λ c. Rises model.now b.now m.now c)) }
{
    let Some(more) = costs.chance(model, b, m, listed) else {
        return Ok(None);
    };
    Ok(Some(Rising {
        number,
        row: copy_of(listed.row)?,
        right: listed.right,
        terms: Seq::of(alloc, listed.terms)?,
        more,
    }))
}

// Looks at a row: whether its multiplier can be raised by 1 with gain, and then by how much. Its terms are listed where they aren't kept.
fn look_row(
    alloc: Global,
    model: &Model,
    table: &RowTable,
    b: &Box01,
    m: &Multipliers,
    costs: &Costs,
    number: u64,
    row: &Row,
) -> Result<Option<Rising>, NoMemory>
    requires place { slice_get (all_rows model.now) number ≡ Some row.now }
    requires row { (whole model.now).has row.now ≡ true }
    requires table { table.now ≡ model.now }
    requires whole { length b.now ≡ length (variables model.now) }
    requires priced { Priced model.now b.now m.now costs.now }
    ensures none { result ≡ Ok None → IsFlat model.now b.now m.now row.now }
    ensures some { IfOk result (λ o. IfSome o (λ c. Rises model.now b.now m.now c)) }
{
    if let Some((right, terms)) = table.row(number) {
        let listed = Listed { row, right, terms };
        return rising_of(alloc, model, b, m, costs, number, listed);
    }
    let terms = terms_of(alloc, model, row)?;
    let listed = list_row(model, row, terms.as_slice());
    let found = rising_of(alloc, model, b, m, costs, number, listed);
    drop(terms);
    found
}

/// Looks at the row with this number: whether its multiplier can be raised by 1 with gain, and then by how much.
pub fn look(
    alloc: Global,
    model: &Model,
    table: &RowTable,
    b: &Box01,
    m: &Multipliers,
    costs: &Costs,
    number: u64,
) -> Result<Option<Rising>, NoMemory>
    requires number { number < length (all_rows model.now) }
    requires table { table.now ≡ model.now }
    requires whole { length b.now ≡ length (variables model.now) }
    requires priced { Priced model.now b.now m.now costs.now }
    ensures none { result ≡ Ok None → (r : Rows) → slice_get (all_rows model.now) number ≡ Some r → IsFlat model.now b.now m.now r }
    ensures some { IfOk result (λ o. IfSome o (λ c. Rises model.now b.now m.now c)) }
{
    let row = model.row_at(number);
    let found = look_row(alloc, model, table, b, m, costs, number, &row);
    drop(row);
    found
}

/// Looks at a row that may gain, if there is one.
pub fn look_at(
    alloc: Global,
    model: &Model,
    table: &RowTable,
    b: &Box01,
    m: &Multipliers,
    costs: &Costs,
    row: Option<&Row>,
) -> Result<Option<Rising>, NoMemory>
    requires table { table.now ≡ model.now }
    requires whole { length b.now ≡ length (variables model.now) }
    requires priced { Priced model.now b.now m.now costs.now }
    ensures { IfOk result (λ o. IfSome o (λ c. Rises model.now b.now m.now c)) }
{
    let Some(row) = row else {
        return Ok(None);
    };
    match model.row_number(row) {
        Some(number) => look(alloc, model, table, b, m, costs, number),
        None => Ok(None),
    }
}
