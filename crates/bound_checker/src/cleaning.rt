//! Costs out of which the rows of their multipliers are taken.
ghost use Rattle.std.specs.Prelude.{◌≡◌, ◌≤◌, ◌^◌, OnOk, IfOk, pos, ◌+ℤ◌, unsigned_abs};
ghost use Rattle.proof_trees.specs.Boxes.{Box};
ghost use Rattle.proof_trees.specs.Multipliers.{Multipliers, amount_of};
ghost use Rattle.zero_one_rows.specs.declared.program.Row.{Row as Rows};
ghost use Rattle.zero_one_rows.specs.Variables.{Voyage};
ghost use Rattle.certificate.specs.Entries.{same_row};
ghost use Rattle.dual_bound.specs.Costs.{Priced, PricedSome};
ghost use Rattle.bound_checker.specs.Sums.{AreCostsOf, AreCostsWithout, IsClean, IsZero};

use crate::amounts::Amounts;
use crate::named_rows::NamedRows;
use dual_bound::Costs;
use std::alloc::Global;
use stow_data::NoMemory;
use zero_one_model::{Box01, Model};
use zero_one_rows::Row;

/// A multiplier with the sign turned.
pub fn turned(amount: u64) -> i64
    requires { amount ≤ 2 ^ 40 }
    ensures value { pos amount +ℤ result ≡ pos 0 }
    ensures size { unsigned_abs result ≤ 2 ^ 40 }
{
    -(amount as i64)
}

// The same costs where each variable is 0. It takes constant time, as no variable brings anything there.
fn at_zero(costs: Costs) -> Costs
    ensures { (m : Voyage) (b z : Box) (ms : Multipliers Rows) → IsZero m z → Priced m b ms costs → Priced m z ms result }
{
    Costs {
        reduced: costs.reduced,
        right: costs.right,
        value: costs.right,
    }
}

// Takes a row with its multiplier out of costs where each variable is 0.
fn take_out(
    alloc: Global,
    model: &Model,
    rows: &mut NamedRows,
    zero: &Box01,
    costs: &mut Costs,
    row: &Row,
    amount: u64,
) -> Result<(), NoMemory>
    requires zero { IsZero model.now zero.now }
    requires rows { rows.old ≡ model.now }
    requires priced { (ms : Multipliers Rows) × Priced model.now zero.now ms costs.old × (amount_of same_row ms row.now ≡ amount) }
    ensures rows { rows.new ≡ rows.old }
    ensures out { (ms : Multipliers Rows) → Priced model.now zero.now ms costs.old → amount_of same_row ms row.now ≡ amount → OnOk result (AreCostsWithout model.now zero.now ms row.now costs.new) }
{
    if amount == 0 {
        return Ok(());
    }
    rows.add_row(alloc, model, zero, costs, row, turned(amount))?;
    Ok(())
}

/// Costs without multipliers, made of those of multipliers. It takes the time of their rows.
pub fn cleaned(
    alloc: Global,
    model: &Model,
    rows: &mut NamedRows,
    zero: &Box01,
    amounts: &Amounts,
    costs: Costs,
) -> Result<Costs, NoMemory>
    requires zero { IsZero model.now zero.now }
    requires rows { rows.old ≡ model.now }
    requires costs { AreCostsOf model.now amounts.now costs }
    ensures rows { rows.new ≡ rows.old }
    ensures clean { IfOk result (IsClean model.now) }
{
    let mut clean = at_zero(costs);
    for (row, amount) in &amounts.by_row {
        take_out(alloc, model, rows, zero, &mut clean, row, *amount)?;
    }
    Ok(clean)
}
