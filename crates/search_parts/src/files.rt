//! The ship, the cargo and the records of some files.
ghost use Rattle.std.specs.Prelude.{IfSome};
ghost use Rattle.bookings.specs.Rules.{IsBookings};

use arrival_plan::settle;
use bookings::{Bookings, read_bookings};
use certificate::{Tree, read_cert};
use ship_profile::read_profile;
use std::alloc::Global;
use stow_data::{Cargo, Seq, Ship};
use stow_io::Folder;

/// The ship of a profile. None where the file can't be read or is refused.
pub fn ship_of<F: Folder>(alloc: Global, name: &str, folder: &mut F) -> Option<Ship> {
    let Ok(text) = folder.read(name) else {
        return None;
    };
    match read_profile(alloc, text.as_slice()) {
        Ok(ship) => Some(ship),
        Err(_) => None,
    }
}

/// The bookings of a file. None where it can't be read or is refused.
fn bookings_of<F: Folder>(alloc: Global, name: &str, folder: &mut F) -> Option<Bookings>
    ensures { IfSome result IsBookings }
{
    let Ok(text) = folder.read(name) else {
        return None;
    };
    match read_bookings(alloc, text.as_slice()) {
        Ok(bookings) => Some(bookings),
        Err(_) => None,
    }
}

/// The cargo of a ship that comes in empty. None where the bookings are refused.
pub fn cargo_of<F: Folder>(
    alloc: Global,
    ship: &Ship,
    name: &str,
    folder: &mut F,
) -> Option<Cargo> {
    let bookings = bookings_of(alloc, name, folder)?;
    match settle(alloc, ship, &bookings, None) {
        Ok(cargo) => Some(cargo),
        Err(_) => None,
    }
}

/// The records of a file in the form of a certificate. None where there is none.
fn records_of<F: Folder>(alloc: Global, name: &str, folder: &mut F) -> Option<Tree> {
    let Ok(text) = folder.read(name) else {
        return None;
    };
    match read_cert(alloc, text.as_slice()) {
        Ok((_, tree)) => Some(tree),
        Err(_) => None,
    }
}

/// The records of a file in the form of a certificate, none where there is none.
pub fn records_in<F: Folder>(alloc: Global, name: &str, folder: &mut F) -> Tree {
    match records_of(alloc, name, folder) {
        Some(records) => records,
        None => Seq::new(alloc),
    }
}
