//! The entries of bookings.
ghost use Rattle.std.specs.Prelude.{◌≡◌, ◌+◌, ◌<◌, ◌≤◌, [], length};
ghost use Rattle.toml.specs.View.{array_view, table_view, view};
ghost use Rattle.toml_values.specs.Arrays.{each_after, item_count};
ghost use Rattle.bookings.specs.Ids.{AreIds};
ghost use Rattle.bookings.specs.Reading.{Gives, booking_at, booking_of};

use crate::booking_keys::BookingKey;
use crate::faults::BookingFault;
use crate::ids::{enter, is_among, no_ids};
use crate::keyed;
use crate::shipment::{Booking, BookingList};
use std::alloc::Global;
use std::collections::BTreeSet;
use stow_data::{CallNo, Name, length_of_type};
use toml::value::Array;
use toml::{Table, Value};
use toml_values::table_of;

/// The booking of an entry, which comes after these bookings with these ids.
#[tactic(auto, unfolding(crate::specs::Reading::booking_of))]
fn booking_of(
    entry: &Table,
    calls: u32,
    before: &[Booking],
    ids: &BTreeSet<Name>,
) -> Result<Booking, BookingFault>
    requires few { length before.now < 2000 }
    requires ids { AreIds ids.now before.now }
    ensures { result ≡ booking_of calls before.now (table_view entry.now) }
{
    let index = before.len() as u32 + 1;
    let id = keyed::code(entry, index, BookingKey::Id, 17)?;
    let load = keyed::number(entry, index, BookingKey::From, 1, calls)?;
    let dest = keyed::number(entry, index, BookingKey::To, 1, calls)?;
    let iso = keyed::code(entry, index, BookingKey::IsoType, 10)?;
    let kg = keyed::number(entry, index, BookingKey::Kg, 0, 99_999)?;
    let vgm = keyed::flag(entry, index, BookingKey::Vgm)?;
    let empty = keyed::flag(entry, index, BookingKey::Empty)?;
    let temperature = keyed::signed(entry, index, BookingKey::Temperature, -99, 99)?;
    let class = keyed::class(entry, index, BookingKey::Class)?;
    let unno = keyed::number_or_zero(entry, index, BookingKey::Unno, 9_999)?;
    if dest <= load {
        return Err(BookingFault::CallOrder { index });
    }
    let Some(long) = length_of_type(iso.bytes()) else {
        return Err(BookingFault::LengthUnknown { index });
    };
    if is_among(ids, &id) {
        return Err(BookingFault::DuplicateId { index });
    }
    Ok(Booking {
        id,
        load: CallNo(load),
        dest: CallNo(dest),
        iso,
        long,
        kg,
        vgm,
        empty,
        temperature,
        class,
        unno,
    })
}

#[tactic(auto, unfolding(crate::specs::Reading::booking_at))]
fn booking_at(
    value: &Value,
    calls: u32,
    before: &[Booking],
    ids: &BTreeSet<Name>,
) -> Result<Booking, BookingFault>
    requires few { length before.now < 2000 }
    requires ids { AreIds ids.now before.now }
    ensures { result ≡ booking_at calls before.now (view value.now) }
{
    let entry = keyed::of_key(table_of(value), BookingKey::Container, 0)?;
    booking_of(entry, calls, before, ids)
}

/// The bookings of entries.
pub fn bookings_of(alloc: Global, entries: &Array, calls: u32) -> Result<BookingList, BookingFault>
    requires { item_count (array_view entries.now) ≤ 2000 }
    ensures { Gives result (each_after (booking_at calls) [] (array_view entries.now)) }
{
    let mut found = BookingList::new(alloc);
    let mut ids = no_ids(alloc);
    for entry in entries {
        let booking = booking_at(entry, calls, found.as_slice(), &ids)?;
        enter(&mut ids, booking.id.copy())?;
        found.push(booking)?;
    }
    Ok(found)
}
