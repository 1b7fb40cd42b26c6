//! The search for a row whose multiplier can be raised with gain.
ghost use Rattle.std.specs.Prelude.{◌≡◌, ℕ, true, false, ◌<◌, ◌≤◌, ◌≤ℤ◌, length, slice_get, Some, None, Ok, IfOk, IfSome};
ghost use Rattle.zero_one_rows.specs.Variables.{variables};
ghost use Rattle.zero_one_rows.specs.declared.program.Row.{Row as Rows};
ghost use Rattle.zero_one_rows.specs.Rows.{whole, is_base};
ghost use Rattle.zero_one_rows.specs.Counted.{all_rows, base_rows};
ghost use Rattle.certificate.specs.Stuck.{IsStuck};
ghost use Rattle.row_matrix.specs.Leaning.{Leans};
ghost use Rattle.dual_bound.specs.Costs.{Priced};
ghost use Rattle.dual_bound.specs.CrossGains.{gain_of};
ghost use Rattle.dual_bound.specs.Rising.{IsFlat, Rises, AreCrossingFlat};

use crate::costs::Costs;
use crate::multipliers::Multipliers;
use crate::offers::{Choice, choose_crossing};
use crate::rising::{Rising, look, look_at};
use crate::table::RowTable;
use row_matrix::LooseBox;
use std::alloc::Global;
use stow_data::NoMemory;
use zero_one_model::{Box01, Model};

// The first row that can be raised with gain, among those with numbers in a range.
fn find_between(
    alloc: Global,
    model: &Model,
    table: &RowTable,
    b: &Box01,
    m: &Multipliers,
    costs: &Costs,
    from: u64,
    to: u64,
) -> Result<Option<Rising>, NoMemory>
    requires to { to ≤ length (all_rows model.now) }
    requires table { table.now ≡ model.now }
    requires whole { length b.now ≡ length (variables model.now) }
    requires priced { Priced model.now b.now m.now costs.now }
    ensures none { result ≡ Ok None → (k : ℕ) (r : Rows) → from ≤ k → k < to → slice_get (all_rows model.now) k ≡ Some r → IsFlat model.now b.now m.now r }
    ensures some { IfOk result (λ o. IfSome o (λ c. Rises model.now b.now m.now c)) }
{
    for number in from..to {
        let found = look(alloc, model, table, b, m, costs, number)?;
        if found.is_some() {
            return Ok(found);
        }
    }
    Ok(None)
}

// A row that can be raised with gain, the first from this number on, or else from the first row on.
fn find_listed(
    alloc: Global,
    model: &Model,
    table: &RowTable,
    b: &Box01,
    m: &Multipliers,
    costs: &Costs,
    from: u64,
) -> Result<Option<Rising>, NoMemory>
    requires table { table.now ≡ model.now }
    requires whole { length b.now ≡ length (variables model.now) }
    requires priced { Priced model.now b.now m.now costs.now }
    ensures none { result ≡ Ok None → IsStuck model.now b.now m.now }
    ensures some { IfOk result (λ o. IfSome o (λ c. Rises model.now b.now m.now c)) }
{
    let rows = model.rows();
    let from = from.min(rows);
    match find_between(alloc, model, table, b, m, costs, from, rows)? {
        Some(rising) => Ok(Some(rising)),
        None => find_between(alloc, model, table, b, m, costs, 0, from),
    }
}

// A base row that can be raised with gain, the first from this number on, or else from the first row on, where no crossing row can.
fn find_base(
    alloc: Global,
    model: &Model,
    table: &RowTable,
    b: &Box01,
    m: &Multipliers,
    costs: &Costs,
    from: u64,
) -> Result<Option<Rising>, NoMemory>
    requires table { table.now ≡ model.now }
    requires whole { length b.now ≡ length (variables model.now) }
    requires priced { Priced model.now b.now m.now costs.now }
    requires crossing { AreCrossingFlat model.now b.now m.now }
    ensures none { result ≡ Ok None → IsStuck model.now b.now m.now }
    ensures some { IfOk result (λ o. IfSome o (λ c. Rises model.now b.now m.now c)) }
{
    let base = model.base_rows();
    let from = from.min(base);
    match find_between(alloc, model, table, b, m, costs, from, base)? {
        Some(rising) => Ok(Some(rising)),
        None => find_between(alloc, model, table, b, m, costs, 0, from),
    }
}

// Looks at a base row, unless it is met where the reduced costs are least: then it gains nothing.
fn look_unmet(
    alloc: Global,
    model: &Model,
    table: &RowTable,
    b: &Box01,
    m: &Multipliers,
    costs: &Costs,
    minimizer: &LooseBox,
    number: u64,
) -> Result<Option<Rising>, NoMemory>
    requires number { number < length (base_rows model.now) }
    requires table { table.now ≡ model.now }
    requires whole { length b.now ≡ length (variables model.now) }
    requires priced { Priced model.now b.now m.now costs.now }
    requires minimizer { minimizer.now.voyage ≡ model.now }
    requires leans { Leans b.now costs.now.reduced.items minimizer.now.known }
    ensures none { result ≡ Ok None → (r : Rows) → slice_get (all_rows model.now) number ≡ Some r → IsFlat model.now b.now m.now r }
    ensures some { IfOk result (λ o. IfSome o (λ c. Rises model.now b.now m.now c)) }
{
    if minimizer.is_met(number as usize) {
        return Ok(None);
    }
    look(alloc, model, table, b, m, costs, number)
}

// The first base row that can be raised with gain, among those with numbers in a range.
fn find_unmet_between(
    alloc: Global,
    model: &Model,
    table: &RowTable,
    b: &Box01,
    m: &Multipliers,
    costs: &Costs,
    minimizer: &LooseBox,
    from: u64,
    to: u64,
) -> Result<Option<Rising>, NoMemory>
    requires to { to ≤ length (base_rows model.now) }
    requires table { table.now ≡ model.now }
    requires whole { length b.now ≡ length (variables model.now) }
    requires priced { Priced model.now b.now m.now costs.now }
    requires minimizer { minimizer.now.voyage ≡ model.now }
    requires leans { Leans b.now costs.now.reduced.items minimizer.now.known }
    ensures none { result ≡ Ok None → (k : ℕ) (r : Rows) → from ≤ k → k < to → slice_get (all_rows model.now) k ≡ Some r → IsFlat model.now b.now m.now r }
    ensures some { IfOk result (λ o. IfSome o (λ c. Rises model.now b.now m.now c)) }
{
    for number in from..to {
        let found = look_unmet(alloc, model, table, b, m, costs, minimizer, number)?;
        if found.is_some() {
            return Ok(found);
        }
    }
    Ok(None)
}

// As `find_base`, by the box where the reduced costs are least.
fn find_unmet(
    alloc: Global,
    model: &Model,
    table: &RowTable,
    b: &Box01,
    m: &Multipliers,
    costs: &Costs,
    minimizer: &LooseBox,
    from: u64,
) -> Result<Option<Rising>, NoMemory>
    requires table { table.now ≡ model.now }
    requires whole { length b.now ≡ length (variables model.now) }
    requires priced { Priced model.now b.now m.now costs.now }
    requires crossing { AreCrossingFlat model.now b.now m.now }
    requires minimizer { minimizer.now.voyage ≡ model.now }
    requires leans { Leans b.now costs.now.reduced.items minimizer.now.known }
    ensures none { result ≡ Ok None → IsStuck model.now b.now m.now }
    ensures some { IfOk result (λ o. IfSome o (λ c. Rises model.now b.now m.now c)) }
{
    let base = model.base_rows();
    let from = from.min(base);
    match find_unmet_between(alloc, model, table, b, m, costs, minimizer, from, base)? {
        Some(rising) => Ok(Some(rising)),
        None => find_unmet_between(alloc, model, table, b, m, costs, minimizer, 0, from),
    }
}

// A base row that can be raised with gain, where no crossing row can.
fn find_low(
    alloc: Global,
    model: &Model,
    table: &RowTable,
    b: &Box01,
    m: &Multipliers,
    costs: &Costs,
    minimizer: &mut Option<LooseBox>,
    from: u64,
) -> Result<Option<Rising>, NoMemory>
    requires table { table.now ≡ model.now }
    requires whole { length b.now ≡ length (variables model.now) }
    requires priced { Priced model.now b.now m.now costs.now }
    requires crossing { AreCrossingFlat model.now b.now m.now }
    requires minimizer { IfSome minimizer.old (λ f. f.voyage ≡ model.now) }
    ensures minimizer { IfSome minimizer.new (λ f. f.voyage ≡ model.now) }
    ensures none { result ≡ Ok None → IsStuck model.now b.now m.now }
    ensures some { IfOk result (λ o. IfSome o (λ c. Rises model.now b.now m.now c)) }
{
    match minimizer {
        Some(loose) => {
            loose.is_whole();
            loose.lean(b, costs.reduced.as_slice());
            find_unmet(alloc, model, table, b, m, costs, loose, from)
        }
        None => find_base(alloc, model, table, b, m, costs, from),
    }
}

// A row that can be raised with gain: the crossing row that is chosen, or else a base row, or any row where the chosen one can't rise.
fn find_chosen(
    alloc: Global,
    model: &Model,
    table: &RowTable,
    b: &Box01,
    m: &Multipliers,
    costs: &Costs,
    minimizer: &mut Option<LooseBox>,
    from: u64,
    choice: &Choice,
) -> Result<Option<Rising>, NoMemory>
    requires table { table.now ≡ model.now }
    requires minimizer { IfSome minimizer.old (λ f. f.voyage ≡ model.now) }
    requires whole { length b.now ≡ length (variables model.now) }
    requires priced { Priced model.now b.now m.now costs.now }
    requires most { (r : Rows) → is_base r ≡ false → (whole model.now).has r ≡ true → gain_of model.now b.now costs.now.reduced.items r ≤ℤ choice.now.gain }
    ensures minimizer { IfSome minimizer.new (λ f. f.voyage ≡ model.now) }
    ensures none { result ≡ Ok None → IsStuck model.now b.now m.now }
    ensures some { IfOk result (λ o. IfSome o (λ c. Rises model.now b.now m.now c)) }
{
    if choice.gain <= 0 {
        return find_low(alloc, model, table, b, m, costs, minimizer, from);
    }
    match look_at(alloc, model, table, b, m, costs, choice.row.as_ref())? {
        Some(rising) => Ok(Some(rising)),
        None => find_listed(alloc, model, table, b, m, costs, from),
    }
}

/// A row that can be raised with gain: the crossing row that gains most, or else a base row. All rows are looked at only where what pairs of calls bring isn't kept, or where the best crossing row's multiplier can't rise.
pub fn find(
    alloc: Global,
    model: &Model,
    table: &RowTable,
    b: &Box01,
    m: &Multipliers,
    costs: &Costs,
    minimizer: &mut Option<LooseBox>,
    from: u64,
) -> Result<Option<Rising>, NoMemory>
    requires table { table.now ≡ model.now }
    requires minimizer { IfSome minimizer.old (λ f. f.voyage ≡ model.now) }
    requires whole { length b.now ≡ length (variables model.now) }
    requires priced { Priced model.now b.now m.now costs.now }
    ensures minimizer { IfSome minimizer.new (λ f. f.voyage ≡ model.now) }
    ensures none { result ≡ Ok None → IsStuck model.now b.now m.now }
    ensures some { IfOk result (λ o. IfSome o (λ c. Rises model.now b.now m.now c)) }
{
    let Some(pairs) = table.pairs() else {
        return find_listed(alloc, model, table, b, m, costs, from);
    };
    let choice = choose_crossing(model, pairs, b, costs);
    let found = find_chosen(alloc, model, table, b, m, costs, minimizer, from, &choice);
    drop(choice);
    found
}
