//! What a ship comes in with.
ghost use Rattle.std.specs.Prelude.{◌≡◌, ◌≤◌, ◌^◌, None, IfOk, length};
ghost use Rattle.bookings.specs.Rules.{IsBookings};
ghost use Rattle.voyage_files.specs.Booked.{HasText};
ghost use Rattle.voyage_files.specs.Reading.{Comes, IsArrived, IsBayPlanOf, IsCargoWith, IsSettled};

use crate::reading::Accepted;
use crate::refusing::refused;
use crate::voyage::ComesIn;
use arrival_plan::{ArrivalFault, read_can_be_settled, settle};
use baplie::{BaplieFault, Message, read_baplie};
use bookings::{Bookings, cargo_of};
use std::alloc::Global;
use stow_data::{Cargo, NoMemory, Ship};
use stow_report::{arrival_line, file_line};

/// What a ship has that comes in empty.
pub fn comes_in_empty(alloc: Global, ship: &Ship, bookings: &Bookings) -> Result<ComesIn, NoMemory>
    requires { IsBookings bookings.now }
    ensures { IfOk result (Comes ship.now bookings.now None) }
{
    let cargo = cargo_of(alloc, ship, bookings)?;
    cargo.obeys_rules();
    Ok(ComesIn {
        message: None,
        cargo,
    })
}

/// The cargo that is settled with this bay plan, or the answer that refuses it.
fn cargo_with(
    alloc: Global,
    ship: &Ship,
    bookings: &Bookings,
    message: &Message,
) -> Result<Accepted<Cargo>, NoMemory>
    requires rules { IsBookings bookings.now }
    requires read { HasText message.now }
    ensures { IfOk result (IsCargoWith ship.now bookings.now message.now) }
{
    read_can_be_settled();
    match settle(alloc, ship, bookings, Some(message)) {
        Ok(cargo) => {
            cargo.obeys_rules();
            Ok(Accepted::Yes(cargo))
        }
        Err(ArrivalFault::NoMemory) => Err(NoMemory),
        Err(fault) => Ok(Accepted::No(refused(alloc, arrival_line(alloc, fault)?)?)),
    }
}

/// What a ship has that comes in with this bay plan, or the answer that refuses the bay plan.
fn settled(
    alloc: Global,
    ship: &Ship,
    bookings: &Bookings,
    message: Message,
) -> Result<Accepted<ComesIn>, NoMemory>
    requires rules { IsBookings bookings.now }
    requires read { HasText message }
    ensures { IfOk result (IsSettled ship.now bookings.now message) }
{
    match cargo_with(alloc, ship, bookings, &message) {
        Ok(Accepted::Yes(cargo)) => Ok(Accepted::Yes(ComesIn {
            message: Some(message),
            cargo,
        })),
        Ok(Accepted::No(answer)) => {
            drop(message);
            Ok(Accepted::No(answer))
        }
        Err(no) => {
            drop(message);
            Err(no)
        }
    }
}

/// The bay plan of a text, or the answer that refuses it.
fn bay_plan_of(alloc: Global, bytes: &[u8]) -> Result<Accepted<Message>, NoMemory>
    requires { length bytes.now ≤ 2 ^ 29 }
    ensures { IfOk result (IsBayPlanOf bytes.now) }
{
    match read_baplie(alloc, bytes) {
        Ok(message) => Ok(Accepted::Yes(message)),
        Err(BaplieFault::NoMemory) => Err(NoMemory),
        Err(fault) => Ok(Accepted::No(refused(alloc, file_line(alloc, fault)?)?)),
    }
}

/// What a ship has that comes in as this text tells, or the answer that refuses the text.
pub fn arrived(
    alloc: Global,
    ship: &Ship,
    bookings: &Bookings,
    bytes: &[u8],
) -> Result<Accepted<ComesIn>, NoMemory>
    requires rules { IsBookings bookings.now }
    requires small { length bytes.now ≤ 2 ^ 29 }
    ensures { IfOk result (IsArrived ship.now bookings.now bytes.now) }
{
    match bay_plan_of(alloc, bytes)? {
        Accepted::Yes(message) => settled(alloc, ship, bookings, message),
        Accepted::No(answer) => Ok(Accepted::No(answer)),
    }
}
