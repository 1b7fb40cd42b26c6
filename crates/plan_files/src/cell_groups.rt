//! The cell groups of a departure file: what stands in each cell, as its booking tells it.
ghost use Rattle.std.specs.Prelude.{◌≡◌, ◌<◌, All, IfOk, length};
ghost use Rattle.stow_data.specs.Ship.{places};
ghost use Rattle.stow_data.specs.Plans.{IsKnown};
ghost use Rattle.plan_files.specs.DepartureFile.{IsTold, booked_group, cell_group_of, group_by, group_segments, groups, number_at, port_of};

use crate::departure_segments::{cell_segment, eqd, loc, mea, push_goods, push_temperature, rff};
use crate::moved_groups::moved;
use baplie::{CellGroup, Facts, GroupList};
use bookings::{Booking, Bookings};
use edifact_segments::SegmentList;
use std::alloc::Global;
use stow_data::{CallNo, Cargo, Container, Name, NoMemory, Origin, PlaceNo, Plan, Ship};

/// The port of a call, counted from 1.
pub fn port_of(cargo: &Cargo, call: u32) -> Name
    ensures { result ≡ port_of cargo.now call }
{
    let call = call.max(1);
    if call <= cargo.calls() {
        cargo.port(CallNo(call))
    } else {
        Name::of(b"")
    }
}

/// Bay, row and tier number of a place.
fn number_at(ship: &Ship, p: PlaceNo) -> (u32, u32, u32)
    requires { p < length (places ship.now) }
    ensures { result ≡ number_at ship.now p }
{
    ship.number_of_place(p)
}

/// The cell groups of a plan, in the order of the places. A container that stood aboard as the ship came in keeps
/// all segments of its group; only its cell is new.
pub fn cell_groups(
    alloc: Global,
    ship: &Ship,
    cargo: &Cargo,
    bookings: &Bookings,
    arrived: &[CellGroup],
    plan: &Plan,
) -> Result<GroupList, NoMemory>
    requires whole { length plan.now ≡ length (places ship.now) }
    requires known { IsKnown cargo.now plan.now }
    requires told { All (λ c. IsTold bookings.now arrived.now c.origin) cargo.now.containers }
    ensures { IfOk result (λ list. list ≡ groups ship.now cargo.now bookings.now arrived.now plan.now) }
{
    let mut list = GroupList::new(alloc);
    for number in 0..ship.places() {
        if let Some(c) = plan.at(PlaceNo(number)) {
            let p = PlaceNo(number);
            let container = cargo.container(c);
            list.push(cell_group(alloc, ship, cargo, bookings, arrived, p, container)?)?;
        }
    }
    Ok(list)
}

/// The cell group of a container at a place.
fn cell_group(
    alloc: Global,
    ship: &Ship,
    cargo: &Cargo,
    bookings: &Bookings,
    arrived: &[CellGroup],
    p: PlaceNo,
    container: &Container,
) -> Result<CellGroup, NoMemory>
    requires place { p < length (places ship.now) }
    requires told { IsTold bookings.now arrived.now container.now.origin }
    ensures { IfOk result (λ g. g ≡ group_by ship.now cargo.now bookings.now arrived.now p container.now container.now.origin) }
{
    match container.origin {
        Origin::Booked(index) => {
            let booking = bookings.containers.at(index as usize);
            booked_group(alloc, ship, cargo, booking, p, container)
        }
        Origin::Arrived(index) => {
            let (bay, row, tier) = number_at(ship, p);
            moved(alloc, bay, row, tier, &arrived[index as usize])
        }
    }
}

/// The cell group of a container of this booking at a place.
fn booked_group(
    alloc: Global,
    ship: &Ship,
    cargo: &Cargo,
    booking: &Booking,
    p: PlaceNo,
    container: &Container,
) -> Result<CellGroup, NoMemory>
    requires { p < length (places ship.now) }
    ensures { IfOk result (λ g. g ≡ cell_group_of (booked_group ship.now cargo.now booking.now p container.now)) }
{
    let (bay, row, tier) = number_at(ship, p);
    Ok(CellGroup {
        bay,
        row,
        tier,
        facts: Some(Facts {
            id: container.id.copy(),
            iso: booking.iso.copy(),
            long: booking.long,
            empty: booking.empty,
            kg: container.kg,
            reefer: booking.temperature.is_some(),
            class: Name::copied(&booking.class),
            dest: port_of(cargo, container.dest.0),
        }),
        segments: group_segments(alloc, ship, cargo, booking, p, container)?,
    })
}

/// The segments of a container of this booking in its cell.
fn group_segments(
    alloc: Global,
    ship: &Ship,
    cargo: &Cargo,
    booking: &Booking,
    p: PlaceNo,
    container: &Container,
) -> Result<SegmentList, NoMemory>
    requires { p < length (places ship.now) }
    ensures { IfOk result (λ list. list ≡ group_segments (booked_group ship.now cargo.now booking.now p container.now)) }
{
    let (bay, row, tier) = number_at(ship, p);
    let mut list = SegmentList::new(alloc);
    list.push(cell_segment(alloc, bay, row, tier)?)?;
    list.push(mea(alloc, booking.vgm, container.kg)?)?;
    push_temperature(&mut list, alloc, booking.temperature)?;
    list.push(loc(alloc, b"9", port_of(cargo, container.load.0).bytes())?)?;
    list.push(loc(alloc, b"11", port_of(cargo, container.dest.0).bytes())?)?;
    list.push(rff(alloc)?)?;
    list.push(eqd(
        alloc,
        container.id.bytes(),
        booking.iso.bytes(),
        booking.empty,
    )?)?;
    push_goods(&mut list, alloc, &booking.class, booking.unno)?;
    Ok(list)
}
