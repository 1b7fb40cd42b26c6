//! What stands under a key of a TOML table.
ghost use Rattle.std.specs.Prelude.{◌≡◌, ◌≤◌, option_map};
ghost use Rattle.toml.specs.Data.{get_member};
ghost use Rattle.toml.specs.View.{array_view, table_view, view};
ghost use Rattle.stow_data.specs.Profile.{is_class, is_name};
ghost use Rattle.toml_values.specs.Values.{array_of, at_key, flag_of, if_there, is_code, is_digits, number_of, or_default, seen, signed_of, text_of, text_that, value_at};
ghost use Rattle.toml_values.specs.Arrays.{tables_of};

use crate::of_values::{
    Unread, array_of, class_of, code_of, digits_of, flag_of, name_of, number_of, signed_of,
    tables_of, text_of,
};
use stow_data::Name;
use toml::value::Array;
use toml::{Table, Value};

fn member<'a>(table: &'a Table, name: &str) -> Option<&'a Value>
    ensures { option_map (λ v. view v.now) result ≡ get_member name.now (table_view table.now) }
{
    table.get(name)
}

/// What stands under a key.
pub fn value_at<'a>(table: &'a Table, name: &str) -> Result<&'a Value, Unread>
    ensures { seen (λ v. view v.now) result ≡ value_at name.now (table_view table.now) }
{
    match member(table, name) {
        Some(value) => Ok(value),
        None => Err(Unread::Missing),
    }
}

/// The bytes of the text under a key.
pub fn text_at<'a>(table: &'a Table, name: &str) -> Result<&'a [u8], Unread>
    ensures { seen (λ t. t.now) result ≡ at_key text_of name.now (table_view table.now) }
{
    text_of(value_at(table, name)?)
}

/// The name under a key: 1 to 35 bytes of capital letters, digits, space, comma, dash, dot and slash.
pub fn name_at(table: &Table, name: &str) -> Result<Name, Unread>
    ensures { result ≡ at_key (text_that is_name) name.now (table_view table.now) }
{
    name_of(value_at(table, name)?)
}

/// The class of dangerous goods under a key: 1 to 8 bytes of capital letters, digits and dot.
pub fn class_at(table: &Table, name: &str) -> Result<Name, Unread>
    ensures { result ≡ at_key (text_that is_class) name.now (table_view table.now) }
{
    class_of(value_at(table, name)?)
}

/// The code under a key: 1 to `high` bytes of capital letters and digits.
pub fn code_at(table: &Table, name: &str, high: usize) -> Result<Name, Unread>
    requires { high ≤ 35 }
    ensures { result ≡ at_key (text_that (is_code high)) name.now (table_view table.now) }
{
    code_of(value_at(table, name)?, high)
}

/// The text of exactly `count` digits under a key.
pub fn digits_at(table: &Table, name: &str, count: usize) -> Result<Name, Unread>
    requires { count ≤ 35 }
    ensures { result ≡ at_key (text_that (is_digits count)) name.now (table_view table.now) }
{
    digits_of(value_at(table, name)?, count)
}

/// The whole number from `low` to `high` under a key.
pub fn number_at(table: &Table, name: &str, low: u32, high: u32) -> Result<u32, Unread>
    ensures { result ≡ at_key (number_of low high) name.now (table_view table.now) }
{
    number_of(value_at(table, name)?, low, high)
}

/// The whole number from `low` to `high` under a key, which may be negative.
pub fn signed_at(table: &Table, name: &str, low: i32, high: i32) -> Result<i32, Unread>
    ensures { result ≡ at_key (signed_of low high) name.now (table_view table.now) }
{
    signed_of(value_at(table, name)?, low, high)
}

/// The truth value under a key.
pub fn flag_at(table: &Table, name: &str) -> Result<bool, Unread>
    ensures { result ≡ at_key flag_of name.now (table_view table.now) }
{
    flag_of(value_at(table, name)?)
}

/// The array under a key.
pub fn array_at<'a>(table: &'a Table, name: &str) -> Result<&'a Array, Unread>
    ensures { seen (λ a. array_view a.now) result ≡ at_key array_of name.now (table_view table.now) }
{
    array_of(value_at(table, name)?)
}

/// The array of tables under a key.
pub fn tables_at<'a>(table: &'a Table, name: &str) -> Result<&'a Array, Unread>
    ensures { seen (λ a. array_view a.now) result ≡ at_key tables_of name.now (table_view table.now) }
{
    tables_of(value_at(table, name)?)
}

/// What was read under a key that may be missing and then stands for a default.
pub fn or_default<T: Drop>(read: Result<T, Unread>, default: T) -> Result<T, Unread>
    ensures { result ≡ or_default default read }
{
    match read {
        Err(Unread::Missing) => Ok(default),
        read => read,
    }
}

/// What was read under a key that may be missing.
pub fn if_there<T>(read: Result<T, Unread>) -> Result<Option<T>, Unread>
    ensures { result ≡ if_there read }
{
    match read {
        Ok(value) => Ok(Some(value)),
        Err(Unread::Missing) => Ok(None),
        Err(Unread::BadValue) => Err(Unread::BadValue),
    }
}
