//! The ship, the cargo and the records of a search.
ghost use Rattle.std.specs.Prelude.{IfOk, length, ◌≤◌, ◌^◌};
ghost use Rattle.stowage_rules.specs.Departure.{HasArrival};

use crate::stop::Stop;
use arrival_plan::settle;
use bookings::read_bookings;
use certificate::{Tree, read_cert};
use ship_profile::read_profile;
use std::alloc::Global;
use stow_data::{Cargo, Ship};
use stow_io::Folder;

/// A ship and its cargo.
#[derive(Drop)]
pub struct Voyage {
    pub ship: Ship,
    pub cargo: Cargo,
}

fn ship_of<F: Folder>(alloc: Global, folder: &mut F, name: &str) -> Result<Ship, Stop> {
    let text = folder.read(name)?;
    match read_profile(alloc, text.as_slice()) {
        Ok(ship) => Ok(ship),
        Err(_) => Err(Stop::Unclear),
    }
}

/// The cargo of bookings on a ship that comes in empty.
fn cargo_of(alloc: Global, ship: &Ship, text: &[u8]) -> Result<Cargo, Stop>
    requires { length text.now ≤ 2 ^ 29 }
    ensures { IfOk result (HasArrival ship.now) }
{
    let Ok(bookings) = read_bookings(alloc, text) else {
        return Err(Stop::Unclear);
    };
    match settle(alloc, ship, &bookings, None) {
        Ok(cargo) => Ok(cargo),
        Err(_) => Err(Stop::Unclear),
    }
}

/// The cargo of a file of bookings.
fn cargo_from<F: Folder>(
    alloc: Global,
    folder: &mut F,
    ship: &Ship,
    name: &str,
) -> Result<Cargo, Stop>
    ensures { IfOk result (HasArrival ship.now) }
{
    let text = folder.read(name)?;
    cargo_of(alloc, ship, text.as_slice())
}

/// The voyage of a profile and bookings, of a ship that comes in empty.
pub fn voyage_of<F: Folder>(
    alloc: Global,
    folder: &mut F,
    profile: &str,
    bookings: &str,
) -> Result<Voyage, Stop>
    ensures { IfOk result (λ v. HasArrival v.ship v.cargo) }
{
    let ship = ship_of(alloc, folder, profile)?;
    let cargo = cargo_from(alloc, folder, &ship, bookings)?;
    Ok(Voyage { ship, cargo })
}

/// The records of a file in the form of a certificate.
pub fn records_of<F: Folder>(alloc: Global, folder: &mut F, name: &str) -> Result<Tree, Stop> {
    let text = folder.read(name)?;
    match read_cert(alloc, text.as_slice()) {
        Ok((_, tree)) => Ok(tree),
        Err(_) => Err(Stop::Unclear),
    }
}
