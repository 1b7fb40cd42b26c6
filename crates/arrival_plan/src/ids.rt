//! The ids of bookings and of what is aboard.
ghost use Rattle.std.specs.Prelude.{◌≡◌, ◌||◌, [], ℕ, List, IfOk, OnOk};
ghost use Rattle.std.specs.Str.{bytes_eq};
ghost use Rattle.std.specs.BTreeSet.{contains};
ghost use Rattle.bookings.specs.Ids.{AreIds, name_order};

use bookings::Booking;
use std::alloc::Global;
use std::collections::BTreeSet;
use stow_data::{Name, NoMemory};

/// Whether an id is among these.
pub fn is_among(ids: &BTreeSet<Name>, id: &Name) -> bool
    ensures { result ≡ contains name_order ids.now id.now }
{
    ids.contains(id)
}

/// Enters an id.
pub fn enter(ids: &mut BTreeSet<Name>, id: Name) -> Result<(), NoMemory>
    ensures { OnOk result ((other : List ℕ) → contains name_order ids.new other ≡ (bytes_eq id other || contains name_order ids.old other)) }
{
    ids.insert(id)?;
    Ok(())
}

/// The ids of bookings.
pub fn booked_ids(alloc: Global, bookings: &[Booking]) -> Result<BTreeSet<Name>, NoMemory>
    ensures { IfOk result (λ ids. AreIds ids bookings.now) }
{
    let mut ids = BTreeSet::new(alloc);
    for booking in bookings {
        enter(&mut ids, booking.id.copy())?;
    }
    Ok(ids)
}
