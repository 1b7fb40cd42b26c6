//! The voyage of some files.
ghost use Rattle.std.specs.Prelude.{◌≤◌, ◌^◌, IfSome, length};
ghost use Rattle.stowage_rules.specs.Departure.{HasArrival};
ghost use Rattle.bookings.specs.Rules.{IsBookings};
ghost use Rattle.arrival_plan.specs.Settled.{AreRead};

use arrival_plan::{read_can_be_settled, settle};
use baplie::{Message, read_baplie};
use bookings::{Bookings, read_bookings};
use certificate::{Tree, read_cert};
use ship_profile::read_profile;
use std::alloc::Global;
use stow_data::{Bytes, Cargo, Seq, Ship};
use stow_io::Folder;

/// A ship and its cargo.
#[derive(Drop)]
pub struct Voyage {
    pub ship: Ship,
    pub cargo: Cargo,
}

/// The files of a voyage, and a file with records in the form of a certificate.
#[derive(Clone, Copy)]
pub struct Named<'a> {
    pub profile: &'a str,
    pub bookings: &'a str,
    pub arrival: Option<&'a str>,
    pub records: Option<&'a str>,
}

/// The bytes of a file, if it can be read.
fn text_of<F: Folder>(folder: &mut F, name: &str) -> Option<Bytes>
    ensures { IfSome result (λ bytes. length bytes ≤ 2 ^ 29) }
{
    match folder.read(name) {
        Ok(bytes) => Some(bytes),
        Err(_) => None,
    }
}

fn ship_of<F: Folder>(alloc: Global, folder: &mut F, name: &str) -> Option<Ship> {
    let text = text_of(folder, name)?;
    match read_profile(alloc, text.as_slice()) {
        Ok(ship) => Some(ship),
        Err(_) => None,
    }
}

fn bookings_of<F: Folder>(alloc: Global, folder: &mut F, name: &str) -> Option<Bookings>
    ensures { IfSome result IsBookings }
{
    let text = text_of(folder, name)?;
    match read_bookings(alloc, text.as_slice()) {
        Ok(bookings) => Some(bookings),
        Err(_) => None,
    }
}

fn message_in(alloc: Global, bytes: &[u8]) -> Option<Message>
    requires { length bytes.now ≤ 2 ^ 29 }
    ensures { IfSome result (λ m. AreRead m.groups) }
{
    read_can_be_settled();
    match read_baplie(alloc, bytes) {
        Ok(message) => Some(message),
        Err(_) => None,
    }
}

fn message_of<F: Folder>(alloc: Global, folder: &mut F, name: &str) -> Option<Message>
    ensures { IfSome result (λ m. AreRead m.groups) }
{
    let text = text_of(folder, name)?;
    message_in(alloc, text.as_slice())
}

fn empty(alloc: Global, ship: &Ship, bookings: &Bookings) -> Option<Cargo>
    requires { IsBookings bookings.now }
    ensures { IfSome result (HasArrival ship.now) }
{
    match settle(alloc, ship, bookings, None) {
        Ok(cargo) => Some(cargo),
        Err(_) => None,
    }
}

fn laden(alloc: Global, ship: &Ship, bookings: &Bookings, message: &Message) -> Option<Cargo>
    requires rules { IsBookings bookings.now }
    requires read { AreRead message.now.groups }
    ensures { IfSome result (HasArrival ship.now) }
{
    match settle(alloc, ship, bookings, Some(message)) {
        Ok(cargo) => Some(cargo),
        Err(_) => None,
    }
}

/// The cargo of bookings and, where one is named, a bay plan at arrival.
fn booked_cargo<F: Folder>(
    alloc: Global,
    ship: &Ship,
    bookings: &Bookings,
    arrival: Option<&str>,
    folder: &mut F,
) -> Option<Cargo>
    requires { IsBookings bookings.now }
    ensures { IfSome result (HasArrival ship.now) }
{
    match arrival {
        None => empty(alloc, ship, bookings),
        Some(name) => {
            let message = message_of(alloc, folder, name)?;
            let cargo = laden(alloc, ship, bookings, &message);
            drop(message);
            cargo
        }
    }
}

/// The cargo of a ship's files.
fn cargo_of<F: Folder>(alloc: Global, ship: &Ship, named: Named, folder: &mut F) -> Option<Cargo>
    ensures { IfSome result (HasArrival ship.now) }
{
    let bookings = bookings_of(alloc, folder, named.bookings)?;
    let cargo = booked_cargo(alloc, ship, &bookings, named.arrival, folder);
    drop(bookings);
    cargo
}

/// The voyage of profile, bookings and, where one is named, a bay plan at arrival. None where a file can't be read or is refused.
pub fn voyage_of<F: Folder>(alloc: Global, named: Named, folder: &mut F) -> Option<Voyage>
    ensures { IfSome result (λ v. HasArrival v.ship v.cargo) }
{
    let ship = ship_of(alloc, folder, named.profile)?;
    match cargo_of(alloc, &ship, named, folder) {
        Some(cargo) => Some(Voyage { ship, cargo }),
        None => {
            drop(ship);
            None
        }
    }
}

/// The records of a file in the form of a certificate. None where there is none.
fn records_of<F: Folder>(alloc: Global, named: Named, folder: &mut F) -> Option<Tree> {
    let name = named.records?;
    let text = text_of(folder, name)?;
    match read_cert(alloc, text.as_slice()) {
        Ok((_, tree)) => Some(tree),
        Err(_) => None,
    }
}

/// The records of a file in the form of a certificate, none where there is none.
pub fn records_in<F: Folder>(alloc: Global, named: Named, folder: &mut F) -> Tree {
    match records_of(alloc, named, folder) {
        Some(records) => records,
        None => Seq::new(alloc),
    }
}
