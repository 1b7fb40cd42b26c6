//! The base rows by their numbers.
ghost use Rattle.std.specs.Prelude.{◌≡◌, ◌<◌, Some, length, slice_get, true};
ghost use Rattle.zero_one_rows.specs.Rows.{base, whole};
ghost use Rattle.zero_one_rows.specs.Counted.{base_rows};

use zero_one_model::Model;
use zero_one_rows::{Row, rows_are_listed};

/// The base row with so many base rows before it.
pub fn base_row(model: &Model, k: u64) -> Row
    requires { k < length (base_rows model.now) }
    ensures place { slice_get (base_rows model.now) k ≡ Some result }
    ensures has { (whole model.now).has result ≡ true }
    ensures base { (base model.now).has result ≡ true }
{
    rows_are_listed();
    model.row_at(k)
}
