//! Changes of multipliers whose costs are kept.
ghost use Rattle.std.specs.Prelude.{◌≡◌, ℕ, true, ◌+◌, ◌<◌, ◌≤◌, ◌^◌, length, OnOk, OnErr, pos, ◌+ℤ◌, unsigned_abs};
ghost use Rattle.proof_trees.specs.Multipliers.{Multipliers as Prices, amount_of, with_amount, raised};
ghost use Rattle.certificate.specs.Entries.{same_row};
ghost use Rattle.zero_one_rows.specs.Variables.{variables};
ghost use Rattle.zero_one_rows.specs.declared.program.Row.{Row as Rows};
ghost use Rattle.zero_one_rows.specs.Rows.{whole};
ghost use Rattle.dual_bound.specs.Adding.{Adds};
ghost use Rattle.dual_bound.specs.Costs.{Priced, PricedSome};

use crate::costs::Costs;
use crate::multipliers::{AddNo, Multipliers, changed, copy_of};
use crate::table::RowTable;
use crate::terms::{Listed, list_row, terms_of};
use std::alloc::Global;
use stow_data::NoMemory;
use zero_one_model::{Box01, Model};
use zero_one_rows::Row;

/// Adds so much to a row's multiplier in costs. After want of memory they are as before.
pub fn add_amount(
    alloc: Global,
    model: &Model,
    table: &RowTable,
    b: &Box01,
    costs: &mut Costs,
    row: &Row,
    by: i64,
) -> Result<(), NoMemory>
    requires row { (whole model.now).has row.now ≡ true }
    requires by { unsigned_abs by ≤ 2 ^ 40 }
    requires table { table.now ≡ model.now }
    requires whole { length b.now ≡ length (variables model.now) }
    requires priced { PricedSome model.now b.now costs.old }
    ensures priced { (ms : Prices Rows) (n : ℕ) → Priced model.now b.now ms costs.old → pos (amount_of same_row ms row.now) +ℤ by ≡ pos n → n ≤ 2 ^ 40
        → OnOk result (Priced model.now b.now (with_amount same_row ms row.now n) costs.new) }
    ensures refused { OnErr result (costs.new ≡ costs.old) }
{
    if let Some(number) = model.row_number(row) {
        if let Some((right, terms)) = table.row(number) {
            let listed = Listed { row, right, terms };
            costs.add_row(model, b, listed, by);
            return Ok(());
        }
    }
    let terms = terms_of(alloc, model, row)?;
    let listed = list_row(model, row, terms.as_slice());
    costs.add_row(model, b, listed, by);
    Ok(())
}

/// Changes a row's multiplier by an amount, and the costs with it. OutOfRange comes exactly where it would leave 0 to 2^40; after a refusal nothing is changed.
pub fn change_kept(
    alloc: Global,
    model: &Model,
    table: &RowTable,
    b: &Box01,
    m: &mut Multipliers,
    costs: &mut Costs,
    row: &Row,
    amount: i64,
) -> Result<(), AddNo>
    requires row { (whole model.now).has row.now ≡ true }
    requires table { table.now ≡ model.now }
    requires whole { length b.now ≡ length (variables model.now) }
    requires priced { Priced model.now b.now m.old costs.old }
    ensures priced { Priced model.now b.now m.new costs.new }
    ensures adds { Adds (raised same_row m.old row.now amount) m.old m.new result }
{
    let place = m.place(row);
    let old = m.amount(place);
    let Some(sum) = changed(old, amount) else {
        return Err(AddNo::OutOfRange);
    };
    m.give(place, copy_of(row)?, sum)?;
    if add_amount(alloc, model, table, b, costs, row, amount).is_err() {
        m.take_back(place, old);
        return Err(AddNo::NoMemory);
    }
    Ok(())
}
