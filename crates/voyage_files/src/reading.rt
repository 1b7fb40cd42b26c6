//! The reads of the inputs.
ghost use Rattle.std.specs.Prelude.{◌≡◌, ◌↔◌, ◌≤◌, ◌^◌, Some, length, option_map, IfOk, IfErr, IsTrue};
ghost use Rattle.stow_io.specs.Causes.{Rose};
ghost use Rattle.voyage_files.specs.Inputs.{IsContent, IsPast, IsReadAt, IsReadBy};
ghost use Rattle.voyage_files.specs.Named.{names_of, IsStop, IsQuiet};
ghost use Rattle.bookings.specs.Rules.{IsBookings};
ghost use Rattle.voyage_files.specs.Reading.{IsFound, IsFoundAt, IsArrival, IsComing, IsUnder, IsVoyageAt, IsVoyageOf, IsShipOf, AreBookingsOf};

use crate::answer::Answer;
use crate::arriving::{arrived, comes_in_empty};
use crate::inputs::Inputs;
use crate::refusing::refused;
use crate::voyage::{BookedVoyage, ComesIn};
use bookings::{BookingFault, Bookings, read_bookings};
use ship_profile::{ProfileFault, read_profile};
use std::alloc::Global;
use stow_data::{Bytes, CallNo, NoMemory, Ship, Word};
use stow_io::{Folder, FolderNo};
use stow_report::{booking_line, profile_line};

/// Why nothing can be said of the inputs: a file that was not read, or want of memory.
#[derive(Drop)]
pub enum ReadStop<'a> {
    /// A file that the words name.
    Failed(&'a str),
    /// A file whose name was made.
    FailedOwn(Word),
    NoMemory,
}

/// The bytes under a name.
pub fn read<'a, F: Folder>(folder: &mut F, name: &'a str) -> Result<Bytes, ReadStop<'a>>
    ensures stays { F.files folder.new ≡ F.files folder.old }
    ensures gives { IfOk result (IsContent (F.files folder.old) name.now) }
    ensures small { IfOk result (λ bytes. length bytes ≤ 536870912) }
    ensures later { F.faults folder.old ≤ F.faults folder.new }
    ensures quiet { IsQuiet result (F.faults folder.old) (F.faults folder.new) }
    ensures failed { IfErr result (IsStop (Rose (F.faults folder.old) (F.faults folder.new)) (λ n. n ≡ name.now)) }
{
    match folder.read(name) {
        Ok(bytes) => Ok(bytes),
        Err(FolderNo::Failed) => Err(ReadStop::Failed(name)),
        Err(FolderNo::NoMemory) => Err(ReadStop::NoMemory),
    }
}

/// What the inputs come to.
#[derive(Drop)]
pub enum Found {
    /// A ship, its bookings, the bay plan with which it comes in, and their cargo.
    Voyage(BookedVoyage),
    /// The answer where an input is refused.
    Refused(Answer),
}

/// The ship of the profile under a name, or the answer that refuses the profile.
fn ship_under<'a, F: Folder>(
    alloc: Global,
    name: &'a str,
    folder: &mut F,
) -> Result<Accepted<Ship>, ReadStop<'a>>
    ensures stays { F.files folder.new ≡ F.files folder.old }
    ensures gives { IfOk result (IsUnder (F.files folder.old) name.now IsShipOf) }
    ensures later { F.faults folder.old ≤ F.faults folder.new }
    ensures quiet { IsQuiet result (F.faults folder.old) (F.faults folder.new) }
    ensures failed { IfErr result (IsStop (Rose (F.faults folder.old) (F.faults folder.new)) (λ n. n ≡ name.now)) }
{
    let text = read(folder, name)?;
    let ship = ship_of(alloc, text.as_slice());
    drop(text);
    match ship {
        Ok(ship) => Ok(ship),
        Err(NoMemory) => Err(ReadStop::NoMemory),
    }
}

/// The bookings under a name, or the answer that refuses them.
fn bookings_under<'a, F: Folder>(
    alloc: Global,
    name: &'a str,
    folder: &mut F,
) -> Result<Accepted<Bookings>, ReadStop<'a>>
    ensures stays { F.files folder.new ≡ F.files folder.old }
    ensures gives { IfOk result (IsUnder (F.files folder.old) name.now AreBookingsOf) }
    ensures later { F.faults folder.old ≤ F.faults folder.new }
    ensures quiet { IsQuiet result (F.faults folder.old) (F.faults folder.new) }
    ensures failed { IfErr result (IsStop (Rose (F.faults folder.old) (F.faults folder.new)) (λ n. n ≡ name.now)) }
{
    let text = read(folder, name)?;
    let bookings = booked_of(alloc, text.as_slice());
    drop(text);
    match bookings {
        Ok(bookings) => Ok(bookings),
        Err(NoMemory) => Err(ReadStop::NoMemory),
    }
}

/// What a ship has that comes in as the bay plan under the name tells, or the answer that refuses the bay plan.
fn read_arrival<'a, F: Folder>(
    alloc: Global,
    name: &'a str,
    ship: &Ship,
    bookings: &Bookings,
    folder: &mut F,
) -> Result<Accepted<ComesIn>, ReadStop<'a>>
    requires { IsBookings bookings.now }
    ensures stays { F.files folder.new ≡ F.files folder.old }
    ensures gives { IfOk result (IsArrival ship.now bookings.now (F.files folder.old) name.now) }
    ensures later { F.faults folder.old ≤ F.faults folder.new }
    ensures quiet { IsQuiet result (F.faults folder.old) (F.faults folder.new) }
    ensures failed { IfErr result (IsStop (Rose (F.faults folder.old) (F.faults folder.new)) (λ n. n ≡ name.now)) }
{
    let text = read(folder, name)?;
    let found = arrived(alloc, ship, bookings, text.as_slice());
    drop(text);
    match found {
        Ok(found) => Ok(found),
        Err(NoMemory) => Err(ReadStop::NoMemory),
    }
}

/// What a ship has that comes in as the bay plan under the name tells, or empty where there is no name.
fn comes_in<'a, F: Folder>(
    alloc: Global,
    arrival: Option<&'a str>,
    ship: &Ship,
    bookings: &Bookings,
    folder: &mut F,
) -> Result<Accepted<ComesIn>, ReadStop<'a>>
    requires { IsBookings bookings.now }
    ensures stays { F.files folder.new ≡ F.files folder.old }
    ensures gives { IfOk result (IsComing ship.now bookings.now (F.files folder.old) (option_map (λ name. name.now) arrival.entry)) }
    ensures later { F.faults folder.old ≤ F.faults folder.new }
    ensures quiet { IsQuiet result (F.faults folder.old) (F.faults folder.new) }
    ensures failed { IfErr result (IsStop (Rose (F.faults folder.old) (F.faults folder.new)) (λ n. option_map (λ name. name.now) arrival.entry ≡ Some n)) }
{
    match arrival {
        Some(name) => read_arrival(alloc, name, ship, bookings, folder),
        None => match comes_in_empty(alloc, ship, bookings) {
            Ok(come) => Ok(Accepted::Yes(come)),
            Err(NoMemory) => Err(ReadStop::NoMemory),
        },
    }
}

/// The voyage of a ship and its bookings, which comes in with the bay plan under the name, or empty where there is no name.
fn voyage_of<'a, F: Folder>(
    alloc: Global,
    arrival: Option<&'a str>,
    ship: Ship,
    bookings: Bookings,
    folder: &mut F,
) -> Result<Found, ReadStop<'a>>
    requires { IsBookings bookings }
    ensures stays { F.files folder.new ≡ F.files folder.old }
    ensures gives { IfOk result (IsVoyageOf ship bookings (F.files folder.old) (option_map (λ name. name.now) arrival.entry)) }
    ensures later { F.faults folder.old ≤ F.faults folder.new }
    ensures quiet { IsQuiet result (F.faults folder.old) (F.faults folder.new) }
    ensures failed { IfErr result (IsStop (Rose (F.faults folder.old) (F.faults folder.new)) (λ n. option_map (λ name. name.now) arrival.entry ≡ Some n)) }
{
    ship.obeys_rules();
    match comes_in(alloc, arrival, &ship, &bookings, folder) {
        Ok(Accepted::Yes(come)) => Ok(Found::Voyage(BookedVoyage {
            ship,
            bookings,
            message: come.message,
            cargo: come.cargo,
        })),
        Ok(Accepted::No(answer)) => {
            drop((ship, bookings));
            Ok(Found::Refused(answer))
        }
        Err(stop) => {
            drop((ship, bookings));
            Err(stop)
        }
    }
}

/// Whether the call that is named is above that of the last departure.
fn is_past(bookings: &Bookings, call: Option<CallNo>) -> bool
    ensures { IsTrue result ↔ IsPast call bookings.now }
{
    match call {
        Some(call) => call.0 as usize >= bookings.rotation.len(),
        None => false,
    }
}

/// The same voyage where a call is named, which is refused where it is above that of the last departure.
fn voyage_at<'a, F: Folder>(
    alloc: Global,
    call: Option<CallNo>,
    arrival: Option<&'a str>,
    ship: Ship,
    bookings: Bookings,
    folder: &mut F,
) -> Result<Found, ReadStop<'a>>
    requires { IsBookings bookings }
    ensures stays { F.files folder.new ≡ F.files folder.old }
    ensures gives { IfOk result (IsVoyageAt call ship bookings (F.files folder.old) (option_map (λ name. name.now) arrival.entry)) }
    ensures later { F.faults folder.old ≤ F.faults folder.new }
    ensures quiet { IsQuiet result (F.faults folder.old) (F.faults folder.new) }
    ensures failed { IfErr result (IsStop (Rose (F.faults folder.old) (F.faults folder.new)) (λ n. (IsPast call bookings → ⊥) × (option_map (λ name. name.now) arrival.entry ≡ Some n))) }
{
    if is_past(&bookings, call) {
        drop((ship, bookings));
        return Ok(Found::Refused(Answer::Call));
    }
    voyage_of(alloc, arrival, ship, bookings, folder)
}

/// The inputs of an order that names a call: as `read_inputs`, but a call above that of the last departure is refused
/// behind the bookings, before the bay plan is read.
pub fn read_inputs_at<'a, F: Folder>(
    alloc: Global,
    inputs: Inputs<'a>,
    call: Option<CallNo>,
    folder: &mut F,
) -> Result<Found, ReadStop<'a>>
    ensures stays { F.files folder.new ≡ F.files folder.old }
    ensures gives { IfOk result (IsFoundAt (names_of inputs.entry) call (F.files folder.old)) }
    ensures later { F.faults folder.old ≤ F.faults folder.new }
    ensures quiet { IsQuiet result (F.faults folder.old) (F.faults folder.new) }
    ensures failed { IfErr result (IsStop (Rose (F.faults folder.old) (F.faults folder.new)) (IsReadAt (names_of inputs.entry) call (F.files folder.old))) }
{
    let ship = match ship_under(alloc, inputs.profile, folder)? {
        Accepted::Yes(ship) => ship,
        Accepted::No(answer) => return Ok(Found::Refused(answer)),
    };
    match bookings_under(alloc, inputs.bookings, folder) {
        Ok(Accepted::Yes(bookings)) => voyage_at(
            alloc,
            call,
            inputs.arrival,
            ship,
            bookings,
            folder,
        ),
        Ok(Accepted::No(answer)) => {
            drop(ship);
            Ok(Found::Refused(answer))
        }
        Err(stop) => {
            drop(ship);
            Err(stop)
        }
    }
}

/// The ship, the bookings and, where one is named, the bay plan of the ship as it comes in, with the cargo that they
/// make, or the answer where one of them is refused. The bookings are read only where the profile is accepted, and the
/// bay plan only where both are.
pub fn read_inputs<'a, F: Folder>(
    alloc: Global,
    inputs: Inputs<'a>,
    folder: &mut F,
) -> Result<Found, ReadStop<'a>>
    ensures stays { F.files folder.new ≡ F.files folder.old }
    ensures gives { IfOk result (IsFound (names_of inputs.entry) (F.files folder.old)) }
    ensures later { F.faults folder.old ≤ F.faults folder.new }
    ensures quiet { IsQuiet result (F.faults folder.old) (F.faults folder.new) }
    ensures failed { IfErr result (IsStop (Rose (F.faults folder.old) (F.faults folder.new)) (IsReadBy (names_of inputs.entry) (F.files folder.old))) }
{
    read_inputs_at(alloc, inputs, None, folder)
}

/// What a text is read as, or the answer that refuses it.
#[derive(Drop)]
pub enum Accepted<T: Drop> {
    Yes(T),
    No(Answer),
}

/// The ship of a profile, or the answer that refuses it.
fn ship_of(alloc: Global, bytes: &[u8]) -> Result<Accepted<Ship>, NoMemory>
    ensures { IfOk result (IsShipOf bytes.now) }
{
    match read_profile(alloc, bytes) {
        Ok(ship) => Ok(Accepted::Yes(ship)),
        Err(ProfileFault::NoMemory) => Err(NoMemory),
        Err(fault) => Ok(Accepted::No(refused(alloc, profile_line(alloc, fault)?)?)),
    }
}

/// The bookings of a text, or the answer that refuses it.
fn booked_of(alloc: Global, bytes: &[u8]) -> Result<Accepted<Bookings>, NoMemory>
    requires { length bytes.now ≤ 2 ^ 29 }
    ensures { IfOk result (AreBookingsOf bytes.now) }
{
    match read_bookings(alloc, bytes) {
        Ok(bookings) => Ok(Accepted::Yes(bookings)),
        Err(BookingFault::NoMemory) => Err(NoMemory),
        Err(fault) => Ok(Accepted::No(refused(alloc, booking_line(alloc, fault)?)?)),
    }
}
