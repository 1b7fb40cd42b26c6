//! The cargo that bookings make.
ghost use Rattle.std.specs.Prelude.{◌≡◌, ◌≤◌, IfOk, length, map};
ghost use Rattle.std.specs.List.{enumerate_from};
ghost use Rattle.bookings.specs.Rules.{IsBookings};
ghost use Rattle.bookings.specs.BookedCargo.{booked_cargo, container_of};

use crate::shipment::{Booking, Bookings};
use std::alloc::Global;
use stow_data::{Cargo, Container, ContainerList, Name, NameList, NoMemory, Origin, Plan, Ship};

fn container_of(index: u32, booking: &Booking) -> Container
    ensures { result ≡ container_of (index, booking.now) }
{
    Container {
        id: booking.id.copy(),
        load: booking.load,
        dest: booking.dest,
        long: booking.long,
        kg: booking.kg,
        reefer: booking.temperature.is_some(),
        class: Name::copied(&booking.class),
        origin: Origin::Booked(index),
    }
}

fn containers_of(alloc: Global, bookings: &[Booking]) -> Result<ContainerList, NoMemory>
    requires { length bookings.now ≤ 2000 }
    ensures { IfOk result (λ cs. cs ≡ map container_of (enumerate_from 0 bookings.now)) }
{
    let mut containers = ContainerList::new(alloc);
    for (index, booking) in bookings.iter().enumerate() {
        containers.push(container_of(index as u32, booking))?;
    }
    Ok(containers)
}

fn names_copied(alloc: Global, names: &[Name]) -> Result<NameList, NoMemory>
    ensures { IfOk result (λ copied. copied ≡ names.now) }
{
    let mut copied = NameList::new(alloc);
    for name in names {
        copied.push(name.copy())?;
    }
    Ok(copied)
}

/// The cargo of bookings: a container for each in order, and a ship on which nothing stands at arrival.
pub fn cargo_of(alloc: Global, ship: &Ship, bookings: &Bookings) -> Result<Cargo, NoMemory>
    requires { IsBookings bookings.now }
    ensures { IfOk result (λ cargo. cargo ≡ booked_cargo ship.now bookings.now) }
{
    let rotation = names_copied(alloc, bookings.rotation.as_slice())?;
    let tariff = bookings.tariff.copy(alloc)?;
    let containers = containers_of(alloc, bookings.containers.as_slice())?;
    let arrival = Plan::empty(alloc, ship)?;
    Ok(Cargo::new(rotation, tariff, containers, arrival))
}
