//! Whether records name rows of the program.
ghost use Rattle.std.specs.Prelude.{◌≡◌, ◌↔◌, All, IsTrue, true};
ghost use Rattle.zero_one_rows.specs.Rows.{whole};
ghost use Rattle.event_search.specs.Counting.{AreNamed};

use certificate::{KeptRaise, KeptRow, Record};
use zero_one_model::Model;

// Whether each is a row of the program.
fn has_rows(model: &Model, rows: &[KeptRow]) -> bool
    ensures { IsTrue result ↔ All (λ r. (whole model.now).has r ≡ true) rows.now }
{
    rows.iter().all(|row| model.has_row(&row.row()))
}

// Whether each is a raise of a row of the program.
fn has_raised(model: &Model, raises: &[KeptRaise]) -> bool
    ensures { IsTrue result ↔ AreNamed model.now raises.now }
{
    raises.iter().all(|raise| model.has_row(&raise.raise().row))
}

/// Whether each row that a record names is one of the program.
pub fn names_rows(model: &Model, entry: &Record) -> bool
    ensures { IsTrue result ↔ (All (λ r. (whole model.now).has r ≡ true) entry.now.steps × AreNamed model.now entry.now.raises) }
{
    if has_rows(model, entry.steps.as_slice()) {
        return has_raised(model, entry.raises.as_slice());
    }
    false
}
