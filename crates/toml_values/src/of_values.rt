//! What a value of a TOML document says.
ghost use Rattle.std.specs.Prelude.{◌≡◌, ◌≤◌, ◌&&◌, ◌==◌, is_ok, nat_le, length};
ghost use Rattle.std.specs.List.{list_all};
ghost use Rattle.toml.specs.View.{array_view, table_view, view};
ghost use Rattle.stow_data.specs.Profile.{is_class, is_class_byte, is_name, is_name_byte};
ghost use Rattle.toml_values.specs.Values.{array_of, flag_of, is_code, is_code_byte, is_digits, number_of, seen, signed_of, table_of, text_of, text_that};
ghost use Rattle.toml_values.specs.Arrays.{all_tables, item_count, tables_of};

use stow_data::{Name, are_digits};
use toml::value::Array;
use toml::{Table, Value};

/// Why there is no value of the wanted form.
#[derive(Clone, Copy)]
pub enum Unread {
    /// The table lacks the key.
    Missing,
    /// The value is of another type, or out of its range or form.
    BadValue,
}

fn are_name_bytes(text: &[u8]) -> bool
    ensures { result ≡ list_all is_name_byte text.now }
{
    text.iter()
        .all(|b| matches!(*b, b'A'..=b'Z' | b','..=b'9' | b' '))
}

fn are_class_bytes(text: &[u8]) -> bool
    ensures { result ≡ list_all is_class_byte text.now }
{
    text.iter()
        .all(|b| matches!(*b, b'A'..=b'Z' | b'0'..=b'9' | b'.'))
}

fn are_code_bytes(text: &[u8]) -> bool
    ensures { result ≡ list_all is_code_byte text.now }
{
    text.iter().all(|b| matches!(*b, b'A'..=b'Z' | b'0'..=b'9'))
}

fn is_name(text: &[u8]) -> bool
    ensures { result ≡ is_name text.now }
{
    if text.is_empty() || text.len() > 35 {
        return false;
    }
    are_name_bytes(text)
}

fn is_class(text: &[u8]) -> bool
    ensures { result ≡ is_class text.now }
{
    if text.is_empty() || text.len() > 8 {
        return false;
    }
    are_class_bytes(text)
}

fn is_code(text: &[u8], high: usize) -> bool
    ensures { result ≡ is_code high text.now }
{
    if text.is_empty() || text.len() > high {
        return false;
    }
    are_code_bytes(text)
}

fn is_digits(text: &[u8], count: usize) -> bool
    ensures { result ≡ is_digits count text.now }
{
    text.len() == count && are_digits(text)
}

/// The bytes of a text.
pub fn text_of(value: &Value) -> Result<&[u8], Unread>
    ensures { seen (λ t. t.now) result ≡ text_of (view value.now) }
{
    match value {
        Value::String(text) => Ok(text.as_bytes()),
        _ => Err(Unread::BadValue),
    }
}

/// A name: 1 to 35 bytes of capital letters, digits, space, comma, dash, dot and slash.
pub fn name_of(value: &Value) -> Result<Name, Unread>
    ensures { result ≡ text_that is_name (view value.now) }
{
    let text = text_of(value)?;
    if is_name(text) {
        Ok(Name::of(text))
    } else {
        Err(Unread::BadValue)
    }
}

/// A class of dangerous goods: 1 to 8 bytes of capital letters, digits and dot.
pub fn class_of(value: &Value) -> Result<Name, Unread>
    ensures { result ≡ text_that is_class (view value.now) }
{
    let text = text_of(value)?;
    if is_class(text) {
        Ok(Name::of(text))
    } else {
        Err(Unread::BadValue)
    }
}

/// A code: 1 to `high` bytes of capital letters and digits.
pub fn code_of(value: &Value, high: usize) -> Result<Name, Unread>
    requires { high ≤ 35 }
    ensures { result ≡ text_that (is_code high) (view value.now) }
{
    let text = text_of(value)?;
    if is_code(text, high) {
        Ok(Name::of(text))
    } else {
        Err(Unread::BadValue)
    }
}

/// A text of exactly `count` digits.
pub fn digits_of(value: &Value, count: usize) -> Result<Name, Unread>
    requires { count ≤ 35 }
    ensures { result ≡ text_that (is_digits count) (view value.now) }
{
    let text = text_of(value)?;
    if is_digits(text, count) {
        Ok(Name::of(text))
    } else {
        Err(Unread::BadValue)
    }
}

/// A whole number from `low` to `high`. A truth value is no number, and a float is no whole number.
pub fn number_of(value: &Value, low: u32, high: u32) -> Result<u32, Unread>
    ensures { result ≡ number_of low high (view value.now) }
{
    match value {
        Value::Integer(number) => match u32::try_from(*number) {
            Ok(number) if low <= number && number <= high => Ok(number),
            _ => Err(Unread::BadValue),
        },
        _ => Err(Unread::BadValue),
    }
}

/// A whole number from `low` to `high`, which may be negative.
pub fn signed_of(value: &Value, low: i32, high: i32) -> Result<i32, Unread>
    ensures { result ≡ signed_of low high (view value.now) }
{
    match value {
        Value::Integer(number) => match i32::try_from(*number) {
            Ok(number) if low <= number && number <= high => Ok(number),
            _ => Err(Unread::BadValue),
        },
        _ => Err(Unread::BadValue),
    }
}

/// A truth value.
pub fn flag_of(value: &Value) -> Result<bool, Unread>
    ensures { result ≡ flag_of (view value.now) }
{
    match value {
        Value::Boolean(flag) => Ok(*flag),
        _ => Err(Unread::BadValue),
    }
}

/// An array.
pub fn array_of(value: &Value) -> Result<&Array, Unread>
    ensures { seen (λ a. array_view a.now) result ≡ array_of (view value.now) }
{
    match value {
        Value::Array(array) => Ok(array),
        _ => Err(Unread::BadValue),
    }
}

/// A table.
pub fn table_of(value: &Value) -> Result<&Table, Unread>
    ensures { seen (λ t. table_view t.now) result ≡ table_of (view value.now) }
{
    match value {
        Value::Table(table) => Ok(table),
        _ => Err(Unread::BadValue),
    }
}

/// The number of items.
pub fn count_of(array: &Array) -> usize
    ensures { result ≡ item_count (array_view array.now) }
{
    array.len()
}

fn is_table(value: &Value) -> bool
    ensures { result ≡ is_ok (table_of (view value.now)) }
{
    match value {
        Value::Table(_) => true,
        _ => false,
    }
}

fn all_tables(array: &Array) -> bool
    ensures { result ≡ all_tables (array_view array.now) }
{
    array.iter().all(|value| is_table(value))
}

/// An array of tables.
pub fn tables_of(value: &Value) -> Result<&Array, Unread>
    ensures { seen (λ a. array_view a.now) result ≡ tables_of (view value.now) }
{
    let array = array_of(value)?;
    if all_tables(array) {
        Ok(array)
    } else {
        Err(Unread::BadValue)
    }
}
