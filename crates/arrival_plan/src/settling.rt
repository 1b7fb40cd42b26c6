//! The cargo of the ship as it comes in and of bookings.
ghost use Rattle.std.specs.Prelude.{◌≡◌, ◌++◌, ◌≤◌, IfOk, MatchOption, OnOk, length, take};
ghost use Rattle.std.specs.Option.{option_copied};
ghost use Rattle.stow_data.specs.Shipment.{IsCargo};
ghost use Rattle.stowage_rules.specs.Plan.{IsWellFormed};
ghost use Rattle.stowage_rules.specs.Departure.{HasArrival};
ghost use Rattle.stowage_rules.specs.Faults.{IsFirstFault};
ghost use Rattle.bookings.specs.BookedCargo.{booked_cargo};
ghost use Rattle.bookings.specs.Rules.{IsBookings};
ghost use Rattle.arrival_plan.specs.Arriving.{cargo_with};
ghost use Rattle.arrival_plan.specs.Settled.{AreRead, IsAsked, KeepsAsked, Settles, groups_of};

use crate::faults::ArrivalFault;
use crate::groups::arriving;
use crate::stowage::Stowage;
use baplie::{CellGroup, Message};
use bookings::{Bookings, cargo_of};
use std::alloc::Global;
use stow_data::{
    Cargo, Container, ContainerList, ContainerNo, Limit, Name, NameList, NoMemory, Ship,
};
use stowage_rules::{RuleBroken, departure_fault};

/// The most containers, arrived and booked.
const MOST_CONTAINERS: u32 = 2_000;

fn names_copied(alloc: Global, names: &[Name]) -> Result<NameList, NoMemory>
    ensures { IfOk result (λ copied. copied ≡ names.now) }
{
    let mut copied = NameList::new(alloc);
    for name in names {
        copied.push(name.copy())?;
    }
    Ok(copied)
}

/// A copy of a container, which takes no memory.
fn copied(container: &Container) -> Container
    ensures { result ≡ container.now }
{
    Container {
        id: container.id.copy(),
        load: container.load,
        dest: container.dest,
        long: container.long,
        kg: container.kg,
        reefer: container.reefer,
        class: Name::copied(&container.class),
        origin: container.origin,
    }
}

/// Appends the containers of a cargo.
fn add_all(containers: &mut ContainerList, cargo: &Cargo) -> Result<(), NoMemory>
    ensures { OnOk result (containers.new ≡ containers.old ++ cargo.now.containers) }
{
    for number in 0..cargo.len() {
        containers.push(copied(cargo.container(ContainerNo(number))))?;
    }
    Ok(())
}

/// The cargo of what stands aboard and of the bookings.
fn cargo_with(
    alloc: Global,
    ship: &Ship,
    bookings: &Bookings,
    mut stowage: Stowage,
) -> Result<Cargo, NoMemory>
    requires rules { IsBookings bookings.now }
    requires obeys { IsCargo (cargo_with ship.now bookings.now stowage) }
    ensures { IfOk result (λ cargo. cargo ≡ cargo_with ship.now bookings.now stowage) }
{
    let rotation = names_copied(alloc, bookings.rotation.as_slice())?;
    let booked = cargo_of(alloc, ship, bookings)?;
    let tariff = bookings.tariff.copy(alloc)?;
    add_all(&mut stowage.containers, &booked)?;
    Ok(Cargo::new(rotation, tariff, stowage.containers, stowage.plan))
}

/// The first of the rules of support, of twenty on forty foot and of plugs that a cargo's arrival breaks.
fn broken_rule(ship: &Ship, cargo: &Cargo) -> Option<RuleBroken>
    requires { IsWellFormed ship.now cargo.now cargo.now.arrival }
    ensures { MatchOption result (KeepsAsked ship.now cargo.now cargo.now.arrival) (λ r. IsAsked r × IsFirstFault ship.now cargo.now cargo.now.arrival r) }
{
    let Some(fault) = departure_fault(ship, cargo, cargo.arrival()) else {
        return None;
    };
    match fault {
        RuleBroken::Support { .. } => Some(fault),
        RuleBroken::TwentyOnForty { .. } => Some(fault),
        RuleBroken::NoPlug { .. } => Some(fault),
        RuleBroken::StackWeight { .. } => None,
        RuleBroken::Separation { .. } => None,
    }
}

/// The cargo of these groups and of the bookings, or the first refusal.
fn settle_groups(
    alloc: Global,
    ship: &Ship,
    bookings: &Bookings,
    groups: &[CellGroup],
) -> Result<Cargo, ArrivalFault>
    requires rules { IsBookings bookings.now }
    requires read { AreRead groups.now }
    ensures { Settles ship.now bookings.now groups.now result }
{
    ship.obeys_rules();
    let stowage = arriving(alloc, ship, bookings, groups)?;
    let cargo = cargo_with(alloc, ship, bookings, stowage)?;
    if let Some(rule) = broken_rule(ship, &cargo) {
        return Err(ArrivalFault::Rule(rule));
    }
    if cargo.len() > MOST_CONTAINERS {
        return Err(ArrivalFault::TooLarge {
            limit: Limit::Containers,
            value: u64::from(cargo.len()),
        });
    }
    Ok(cargo)
}

/// The cargo of a voyage: what stands aboard as the bay plan of the incoming ship tells it, in the order of its
/// groups, each bound for the first call of its port, and then the containers of the bookings. Without a bay plan the
/// ship comes in empty. Else the first refusal: of the first group at fault, of what stands aboard together, of the
/// number of containers.
pub fn settle(
    alloc: Global,
    ship: &Ship,
    bookings: &Bookings,
    message: Option<&Message>,
) -> Result<Cargo, ArrivalFault>
    requires rules { IsBookings bookings.now }
    requires read { AreRead (groups_of (option_copied message)) }
    ensures settled { Settles ship.now bookings.now (groups_of (option_copied message.entry)) result }
    ensures arrival { IfOk result (λ cargo. HasArrival ship.now cargo) }
{
    match message {
        None => settle_groups(alloc, ship, bookings, &[]),
        Some(message) => settle_groups(alloc, ship, bookings, message.groups.as_slice()),
    }
}
