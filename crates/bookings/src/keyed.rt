//! The value of a key in an entry, or the fault of that key.
ghost use Rattle.std.specs.Prelude.{◌≡◌, ◌≤◌, false};
ghost use Rattle.toml.specs.View.{array_view, table_view, view};
ghost use Rattle.stow_data.specs.Profile.{is_class, is_name};
ghost use Rattle.toml_values.specs.Values.{flag_of, is_code, is_digits, number_of, signed_of, text_that};
ghost use Rattle.bookings.specs.Reading.{may, need, of_key, or_else};

use crate::booking_keys::BookingKey;
use crate::faults::BookingFault;
use stow_data::Name;
use toml::Table;
use toml_values::{
    Unread, class_at, code_at, digits_at, flag_at, if_there, name_at, number_at, or_default,
    signed_at,
};

/// What was read, or the fault of this key in this entry.
pub fn of_key<T>(read: Result<T, Unread>, key: BookingKey, index: u32) -> Result<T, BookingFault>
    ensures { result ≡ of_key key index read }
{
    match read {
        Ok(value) => Ok(value),
        Err(Unread::Missing) => Err(BookingFault::Missing { key, index }),
        Err(Unread::BadValue) => Err(BookingFault::BadValue { key, index }),
    }
}

/// The name under a key.
pub fn name(entry: &Table, index: u32, key: BookingKey) -> Result<Name, BookingFault>
    ensures { result ≡ need key (text_that is_name) index (table_view entry.now) }
{
    of_key(name_at(entry, key.spelling()), key, index)
}

/// The name under a key that may be missing and then stands for a default.
pub fn name_or(
    entry: &Table,
    index: u32,
    key: BookingKey,
    default: Name,
) -> Result<Name, BookingFault>
    ensures { result ≡ or_else default key (text_that is_name) index (table_view entry.now) }
{
    of_key(
        or_default(name_at(entry, key.spelling()), default),
        key,
        index,
    )
}

/// The code under a key: 1 to `high` bytes of capital letters and digits.
pub fn code(entry: &Table, index: u32, key: BookingKey, high: usize) -> Result<Name, BookingFault>
    requires { high ≤ 35 }
    ensures { result ≡ need key (text_that (is_code high)) index (table_view entry.now) }
{
    of_key(code_at(entry, key.spelling(), high), key, index)
}

/// The text of exactly `count` digits under a key.
pub fn digits(
    entry: &Table,
    index: u32,
    key: BookingKey,
    count: usize,
) -> Result<Name, BookingFault>
    requires { count ≤ 35 }
    ensures { result ≡ need key (text_that (is_digits count)) index (table_view entry.now) }
{
    of_key(digits_at(entry, key.spelling(), count), key, index)
}

/// The class of dangerous goods under a key, if there is one.
pub fn class(entry: &Table, index: u32, key: BookingKey) -> Result<Option<Name>, BookingFault>
    ensures { result ≡ may key (text_that is_class) index (table_view entry.now) }
{
    of_key(if_there(class_at(entry, key.spelling())), key, index)
}

/// The whole number from `low` to `high` under a key.
pub fn number(
    entry: &Table,
    index: u32,
    key: BookingKey,
    low: u32,
    high: u32,
) -> Result<u32, BookingFault>
    ensures { result ≡ need key (number_of low high) index (table_view entry.now) }
{
    of_key(number_at(entry, key.spelling(), low, high), key, index)
}

/// The whole number up to `high` under a key that may be missing and then stands for 0.
pub fn number_or_zero(
    entry: &Table,
    index: u32,
    key: BookingKey,
    high: u32,
) -> Result<u32, BookingFault>
    ensures { result ≡ or_else 0 key (number_of 0 high) index (table_view entry.now) }
{
    of_key(
        or_default(number_at(entry, key.spelling(), 0, high), 0),
        key,
        index,
    )
}

/// The whole number from `low` to `high` under a key, if there is one. It may be negative.
pub fn signed(
    entry: &Table,
    index: u32,
    key: BookingKey,
    low: i32,
    high: i32,
) -> Result<Option<i32>, BookingFault>
    ensures { result ≡ may key (signed_of low high) index (table_view entry.now) }
{
    of_key(
        if_there(signed_at(entry, key.spelling(), low, high)),
        key,
        index,
    )
}

/// The truth value under a key that may be missing and then stands for false.
pub fn flag(entry: &Table, index: u32, key: BookingKey) -> Result<bool, BookingFault>
    ensures { result ≡ or_else false key flag_of index (table_view entry.now) }
{
    of_key(
        or_default(flag_at(entry, key.spelling()), false),
        key,
        index,
    )
}
