//! The reader of bookings.
ghost use Rattle.std.specs.Prelude.{◌≡◌, ◌^◌, ◌≤◌, IfOk, codes, length, nat_le};
ghost use Rattle.toml.specs.Data.{no_items};
ghost use Rattle.toml.specs.View.{array_view, table_view, view};
ghost use Rattle.toml_values.specs.Values.{is_code, number_of, seen, text_that};
ghost use Rattle.toml_values.specs.Arrays.{each_of, item_count, tables_of};
ghost use Rattle.stow_data.specs.Profile.{is_name};
ghost use Rattle.bookings.specs.declared.booking_keys.BookingKey.TheVariants as key;
ghost use Rattle.bookings.specs.Reading.{Gives, bookings_in, bookings_of, containers_in, need, of_key, or_else, ports_of, rotation_in, tariff_in};
ghost use Rattle.bookings.specs.Rules.{IsBookings};

use crate::booking_keys::BookingKey;
use crate::faults::BookingFault;
use crate::shipment::{BookingList, Bookings};
use crate::{entries, keyed};
use std::alloc::Global;
use stow_data::{Limit, Name, NameList, NumberList};
use toml::Table;
use toml::value::Array;
use toml_values::{
    NoDocument, array_at, code_of, count_of, document, if_there, number_of, tables_at,
};

const MOST_CALLS: usize = 12;

const MOST_CONTAINERS: usize = 2_000;

/// The ports of the calls, of which there may be any number.
fn ports_of(alloc: Global, items: &Array) -> Result<NameList, BookingFault>
    ensures { Gives result (of_key key.Rotation 0 (each_of (text_that (is_code 35)) (array_view items.now))) }
{
    let mut ports = NameList::new(alloc);
    for item in items {
        let port = keyed::of_key(code_of(item, 35), BookingKey::Rotation, 0)?;
        ports.push(port)?;
    }
    Ok(ports)
}

#[tactic(auto, unfolding(crate::specs::Reading::rotation_in))]
fn rotation_in(alloc: Global, top: &Table) -> Result<NameList, BookingFault>
    ensures { Gives result (rotation_in (table_view top.now)) }
{
    let key = BookingKey::Rotation;
    let items = keyed::of_key(array_at(top, key.spelling()), key, 0)?;
    let ports = ports_of(alloc, items)?;
    if ports.len() < 2 {
        return Err(BookingFault::BadValue { key, index: 0 });
    }
    if ports.len() > MOST_CALLS {
        return Err(BookingFault::TooLarge {
            limit: Limit::Calls,
            value: ports.len() as u64,
        });
    }
    Ok(ports)
}

/// The prices of a list, of which there may be any number.
fn prices_of(alloc: Global, items: &Array) -> Result<NumberList, BookingFault>
    ensures { Gives result (of_key key.Tariff 0 (each_of (number_of 0 1000) (array_view items.now))) }
{
    let mut prices = NumberList::new(alloc);
    for item in items {
        let price = keyed::of_key(number_of(item, 0, 1_000), BookingKey::Tariff, 0)?;
        prices.push(price)?;
    }
    Ok(prices)
}

#[tactic(auto, unfolding(crate::specs::Reading::tariff_in))]
fn tariff_in(alloc: Global, top: &Table, calls: u32) -> Result<NumberList, BookingFault>
    requires { 1 ≤ calls }
    ensures { Gives result (tariff_in calls (table_view top.now)) }
{
    let key = BookingKey::Tariff;
    let items = keyed::of_key(if_there(array_at(top, key.spelling())), key, 0)?;
    let Some(items) = items else {
        return Ok(NumberList::filled(alloc, 1, calls as usize - 1)?);
    };
    let prices = prices_of(alloc, items)?;
    if prices.len() != calls as usize - 1 {
        return Err(BookingFault::BadValue { key, index: 0 });
    }
    Ok(prices)
}

#[tactic(auto, unfolding(crate::specs::Reading::containers_in))]
fn containers_in(alloc: Global, top: &Table, calls: u32) -> Result<BookingList, BookingFault>
    ensures { Gives result (containers_in calls (table_view top.now)) }
{
    let key = BookingKey::Container;
    let entries = keyed::of_key(if_there(tables_at(top, key.spelling())), key, 0)?;
    let Some(entries) = entries else {
        return Ok(BookingList::new(alloc));
    };
    let count = count_of(entries);
    if count > MOST_CONTAINERS {
        return Err(BookingFault::TooLarge {
            limit: Limit::Containers,
            value: count as u64,
        });
    }
    entries::bookings_of(alloc, entries, calls)
}

/// The name under a key that may be missing and then stands for `STOW`.
fn party(top: &Table, key: BookingKey) -> Result<Name, BookingFault>
    ensures { result ≡ or_else (codes "STOW") key (text_that is_name) 0 (table_view top.now) }
{
    keyed::name_or(top, 0, key, Name::of(b"STOW"))
}

#[tactic(auto, unfolding(crate::specs::Reading::bookings_in))]
fn bookings_in(alloc: Global, top: &Table) -> Result<Bookings, BookingFault>
    ensures { Gives result (bookings_in (table_view top.now)) }
{
    let vessel = keyed::name(top, 0, BookingKey::Vessel)?;
    let voyage = keyed::name(top, 0, BookingKey::Voyage)?;
    let sender = party(top, BookingKey::Sender)?;
    let recipient = party(top, BookingKey::Recipient)?;
    let date = keyed::digits(top, 0, BookingKey::Date, 10)?;
    let rotation = rotation_in(alloc, top)?;
    let calls = rotation.len() as u32;
    let tariff = tariff_in(alloc, top, calls)?;
    let containers = containers_in(alloc, top, calls)?;
    Ok(Bookings {
        vessel,
        voyage,
        sender,
        recipient,
        date,
        rotation,
        tariff,
        containers,
    })
}

/// The bookings of a text (TOML), whole, or its first fault. Keys are looked at in the order of `BookingKey`, and the entries of
/// containers one after the other. Too many calls come before the tariff is looked at, and too many containers before the first
/// entry; after the keys of an entry come the order of its calls, its length and its id. Keys that aren't known are left unread.
#[tactic(auto, unfolding(crate::specs::Reading::bookings_of))]
pub fn read_bookings(alloc: Global, bytes: &[u8]) -> Result<Bookings, BookingFault>
    requires { length bytes.now ≤ 2 ^ 29 }
    ensures read { Gives result (bookings_of bytes.now) }
    ensures valid { IfOk result IsBookings }
{
    match document(alloc, bytes) {
        Ok(top) => bookings_in(alloc, &top),
        Err(NoDocument::NotToml) => Err(BookingFault::NotToml),
        Err(NoDocument::NoMemory) => Err(BookingFault::NoMemory),
    }
}
