//! Refusals of profiles and bookings, and limits that are passed.
ghost use Rattle.std.specs.Prelude.{◌≡◌, ◌∷◌, [], pos, false, IfOk};
ghost use Rattle.ship_profile.specs.Keys as profile_keys;
ghost use Rattle.bookings.specs.Spelling as booking_keys;
ghost use Rattle.stow_report.specs.Refusals.{numbered, keyed};
ghost use Rattle.stow_report.specs.Inputs.{limit_number, limit_line, profile_line, booking_line};
ghost use Rattle.stow_report.specs.declared.lines.Group.TheVariants.{Profile as OfProfile, Bookings as OfBookings};

use crate::lines::{Group, Line, keyed, numbered};
use bookings::{BookingFault, BookingKey};
use ship_profile::{ProfileFault, ProfileKey};
use std::alloc::Global;
use stow_data::{Limit, Name, NoMemory};

/// The number of a limit.
fn limit_number(limit: Limit) -> u32
    ensures { result ≡ limit_number limit }
{
    match limit {
        Limit::Calls => 1,
        Limit::Containers => 2,
        Limit::Places => 3,
        Limit::Variables => 4,
        Limit::Rows => 5,
        Limit::Certificate => 6,
    }
}

/// The line of a limit that is passed: the limit's number, and the number that passes it.
pub fn limit_line(alloc: Global, limit: Limit, value: u64) -> Result<Line, NoMemory>
    ensures { IfOk result (λ line. line ≡ limit_line limit value) }
{
    let number = limit_number(limit);
    numbered(alloc, false, Group::Large, number, &[i128::from(value)])
}

/// A line of a profile's refusal whose fields are numbers.
fn of_profile(alloc: Global, number: u32, numbers: &[i128]) -> Result<Line, NoMemory>
    ensures { IfOk result (λ line. line ≡ numbered false OfProfile number numbers.now) }
{
    numbered(alloc, false, Group::Profile, number, numbers)
}

/// A line of a refusal that tells a key of a profile and an entry.
fn at_profile_key(alloc: Global, number: u32, key: ProfileKey, index: u32) -> Result<Line, NoMemory>
    ensures { IfOk result (λ line. line ≡ keyed false OfProfile number (profile_keys.spelling key) (pos index ∷ [])) }
{
    let name = Name::of(key.spelling().as_bytes());
    keyed(
        alloc,
        false,
        Group::Profile,
        number,
        name,
        &[i128::from(index)],
    )
}

/// The line of a text that is no profile.
pub fn profile_line(alloc: Global, fault: ProfileFault) -> Result<Line, NoMemory>
    ensures { IfOk result (λ line. line ≡ profile_line fault) }
{
    match fault {
        ProfileFault::NotToml => of_profile(alloc, 1, &[]),
        ProfileFault::Missing { key, index } => at_profile_key(alloc, 2, key, index),
        ProfileFault::BadValue { key, index } => at_profile_key(alloc, 3, key, index),
        ProfileFault::GapInStack { index } => of_profile(alloc, 4, &[i128::from(index)]),
        ProfileFault::DuplicateCell { bay, row, tier } => of_profile(
            alloc,
            5,
            &[i128::from(bay), i128::from(row), i128::from(tier)],
        ),
        ProfileFault::CoverUnknownStack { index } => of_profile(alloc, 6, &[i128::from(index)]),
        ProfileFault::CoverTwice { stack } => of_profile(alloc, 7, &[i128::from(stack.0)]),
        ProfileFault::BadSeparation { index } => of_profile(alloc, 8, &[i128::from(index)]),
        ProfileFault::TooLarge { limit, value } => limit_line(alloc, limit, value),
        ProfileFault::NoMemory => of_profile(alloc, 10, &[]),
    }
}

/// A line of a refusal of bookings whose fields are numbers.
fn of_bookings(alloc: Global, number: u32, numbers: &[i128]) -> Result<Line, NoMemory>
    ensures { IfOk result (λ line. line ≡ numbered false OfBookings number numbers.now) }
{
    numbered(alloc, false, Group::Bookings, number, numbers)
}

/// A line of a refusal that tells a key of bookings and an entry.
fn at_booking_key(alloc: Global, number: u32, key: BookingKey, index: u32) -> Result<Line, NoMemory>
    ensures { IfOk result (λ line. line ≡ keyed false OfBookings number (booking_keys.spelling key) (pos index ∷ [])) }
{
    let name = Name::of(key.spelling().as_bytes());
    keyed(
        alloc,
        false,
        Group::Bookings,
        number,
        name,
        &[i128::from(index)],
    )
}

/// The line of a text that is no bookings.
pub fn booking_line(alloc: Global, fault: BookingFault) -> Result<Line, NoMemory>
    ensures { IfOk result (λ line. line ≡ booking_line fault) }
{
    match fault {
        BookingFault::NotToml => of_bookings(alloc, 1, &[]),
        BookingFault::Missing { key, index } => at_booking_key(alloc, 2, key, index),
        BookingFault::BadValue { key, index } => at_booking_key(alloc, 3, key, index),
        BookingFault::CallOrder { index } => of_bookings(alloc, 4, &[i128::from(index)]),
        BookingFault::LengthUnknown { index } => of_bookings(alloc, 5, &[i128::from(index)]),
        BookingFault::DuplicateId { index } => of_bookings(alloc, 6, &[i128::from(index)]),
        BookingFault::TooLarge { limit, value } => limit_line(alloc, limit, value),
        BookingFault::NoMemory => of_bookings(alloc, 8, &[]),
    }
}
