//! Full boxes.
ghost use Rattle.std.specs.Prelude.{◌≡◌, ◌<◌, Some, length, slice_get};
ghost use Rattle.zero_one_rows.specs.Variables.{variables};
ghost use Rattle.zero_one_rows.specs.Rows.{whole};
ghost use Rattle.zero_one_rows.specs.Counted.{base_rows};
ghost use Rattle.zero_one_rows.specs.declared.program.Row.{Row as Rows};
ghost use Rattle.proof_trees.specs.Boxes.{violated};
ghost use Rattle.search_core.specs.Machine.{fixed_below, breaks_none as breaks_none_of, is_full as is_full_in, price as price_in};

use partial_plan::{cost_of, violates};
use row_matrix::base_row;
use stow_data::VarNo;
use zero_one_model::{Box01, Model};
use zero_one_rows::rows_are_listed;

// Whether each variable is fixed.
fn fixes_all(model: &Model, b: &Box01) -> bool
    requires { length b.now ≡ length (variables model.now) }
    ensures { result ≡ fixed_below (length (variables model.now)) b.now }
{
    (0..model.vars()).all(|v| b.at(VarNo(v)).is_some())
}

// Whether a base row is violated, by its number.
fn breaks(model: &Model, b: &Box01, k: u64) -> bool
    requires row { k < length (base_rows model.now) }
    requires whole { length b.now ≡ length (variables model.now) }
    ensures { (r : Rows) → slice_get (base_rows model.now) k ≡ Some r → result ≡ violated (whole model.now) b.now r }
{
    rows_are_listed();
    let row = base_row(model, k);
    violates(model, b, &row)
}

// Whether no base row is violated.
fn breaks_none(model: &Model, b: &Box01) -> bool
    requires { length b.now ≡ length (variables model.now) }
    ensures { result ≡ breaks_none_of (whole model.now) (base_rows model.now) b.now }
{
    !(0..model.base_rows()).any(|k| breaks(model, b, k))
}

/// Whether each variable is fixed, and no base row is violated. It takes no memory.
pub fn is_full(model: &Model, b: &Box01) -> bool
    requires { length b.now ≡ length (variables model.now) }
    ensures { result ≡ is_full_in (whole model.now) (base_rows model.now) b.now }
{
    if fixes_all(model, b) {
        return breaks_none(model, b);
    }
    false
}

/// The price of a full box.
pub fn price(model: &Model, b: &Box01) -> u64
    requires { length b.now ≡ length (variables model.now) }
    ensures { result ≡ price_in (whole model.now) b.now }
{
    cost_of(model, b)
}
