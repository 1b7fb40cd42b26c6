//! What stands under a key of a profile.
ghost use Rattle.std.specs.Prelude.{◌≡◌};
ghost use Rattle.toml.specs.Text.{has_items};
ghost use Rattle.toml.specs.View.{array_view, table_view, view};
ghost use Rattle.toml_values.specs.Values.{at_key, number_of, seen};
ghost use Rattle.ship_profile.specs.Keys.{keyed, need, some_tables_of, spelling};

use crate::faults::{ProfileFault, ProfileKey};
use toml::value::Array;
use toml::{Table, Value};
use toml_values::{Unread, number_at, tables_of};

/// What was read under a key, or the fault of the key.
pub fn keyed<T>(read: Result<T, Unread>, key: ProfileKey, index: u32) -> Result<T, ProfileFault>
    ensures { result ≡ keyed key index read }
{
    match read {
        Ok(value) => Ok(value),
        Err(Unread::Missing) => Err(ProfileFault::Missing { key, index }),
        Err(Unread::BadValue) => Err(ProfileFault::BadValue { key, index }),
    }
}

/// The whole number from `low` to `high` under a key.
pub fn needed_number(
    table: &Table,
    key: ProfileKey,
    index: u32,
    low: u32,
    high: u32,
) -> Result<u32, ProfileFault>
    ensures { result ≡ need (number_of low high) key index (table_view table.now) }
{
    keyed(number_at(table, key.spelling(), low, high), key, index)
}

fn has_items(items: &Array) -> bool
    ensures { result ≡ has_items (array_view items.now) }
{
    !items.as_slice().is_empty()
}

/// An array of at least one table.
pub fn some_tables_of(value: &Value) -> Result<&Array, Unread>
    ensures { seen (λ a. array_view a.now) result ≡ some_tables_of (view value.now) }
{
    let items = tables_of(value)?;
    if has_items(items) {
        Ok(items)
    } else {
        Err(Unread::BadValue)
    }
}

/// The array of at least one table under a key.
pub fn some_tables_at<'a>(table: &'a Table, key: ProfileKey) -> Result<&'a Array, Unread>
    ensures { seen (λ a. array_view a.now) result ≡ at_key some_tables_of (spelling key) (table_view table.now) }
{
    some_tables_of(toml_values::value_at(table, key.spelling())?)
}
