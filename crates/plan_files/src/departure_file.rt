//! The departure file of a call: its message, and its text.
ghost use Rattle.std.specs.Prelude.{◌≡◌, ◌<◌, All, length, IfOk, Ok};
ghost use Rattle.stow_data.specs.Ship.{places};
ghost use Rattle.stow_data.specs.Plans.{IsKnown};
ghost use Rattle.stowage_rules.specs.Plan.{IsWellFormed};
ghost use Rattle.bookings.specs.Rules.{IsBookings};
ghost use Rattle.arrival_plan.specs.Settled.{told};
ghost use Rattle.baplie.specs.Messages.{IsMessageOf};
ghost use Rattle.plan_files.specs.DepartureFile.{AreArrived, IsTold, file_text, groups, head, message_of};

use crate::cell_groups::{cell_groups, port_of};
use crate::departure_segments::{bgm, dtm, loc, tdt, unb, unh};
use baplie::{CellGroup, Message, write_baplie};
use bookings::Bookings;
use edifact_segments::SegmentList;
use std::alloc::Global;
use stow_data::{Bytes, Cargo, NoMemory, Plan, Ship};

/// The text of the departure file of a call, for bookings, the groups of the bay plan of the ship as it came in (none
/// where there is none), and the cargo of both: it reads back as the message of the call.
pub fn departure_text(
    alloc: Global,
    ship: &Ship,
    cargo: &Cargo,
    bookings: &Bookings,
    arrived: &[CellGroup],
    plan: &Plan,
    call: u32,
) -> Result<Bytes, NoMemory>
    requires rules { IsBookings bookings.now }
    requires arrived { AreArrived arrived.now }
    requires cargo { told ship.now bookings.now arrived.now ≡ Ok cargo.now }
    requires departs { call < length bookings.now.rotation }
    requires formed { IsWellFormed ship.now cargo.now plan.now }
    ensures text { IfOk result (λ text. text ≡ file_text cargo.now bookings.now call (groups ship.now cargo.now bookings.now arrived.now plan.now)) }
    ensures reads { IfOk result (λ text. IsMessageOf text (message_of cargo.now bookings.now call (groups ship.now cargo.now bookings.now arrived.now plan.now))) }
{
    ship.obeys_rules();
    cargo.obeys_rules();
    let message = message_of(alloc, ship, cargo, bookings, arrived, plan, call)?;
    write_baplie(alloc, &message)
}

/// The message of the departure of a call. Each container is one of the bookings, or of these groups.
pub fn message_of(
    alloc: Global,
    ship: &Ship,
    cargo: &Cargo,
    bookings: &Bookings,
    arrived: &[CellGroup],
    plan: &Plan,
    call: u32,
) -> Result<Message, NoMemory>
    requires dated { length bookings.now.date ≡ 10 }
    requires told { All (λ c. IsTold bookings.now arrived.now c.origin) cargo.now.containers }
    requires departs { call < length cargo.now.rotation }
    requires whole { length plan.now ≡ length (places ship.now) }
    requires known { IsKnown cargo.now plan.now }
    ensures { IfOk result (λ m. m ≡ message_of cargo.now bookings.now call (groups ship.now cargo.now bookings.now arrived.now plan.now)) }
{
    Ok(Message {
        service: unb(alloc, bookings, call)?,
        title: unh(alloc)?,
        head: head(alloc, cargo, bookings, call)?,
        groups: cell_groups(alloc, ship, cargo, bookings, arrived, plan)?,
    })
}

/// The segments between UNH and the first cell group.
#[tactic(auto, unfolding(crate::specs::DepartureFile::head))]
fn head(
    alloc: Global,
    cargo: &Cargo,
    bookings: &Bookings,
    call: u32,
) -> Result<SegmentList, NoMemory>
    requires { call < length cargo.now.rotation }
    ensures { IfOk result (λ list. list ≡ head cargo.now bookings.now call) }
{
    cargo.obeys_rules();
    let mut list = SegmentList::new(alloc);
    list.push(bgm(alloc, call)?)?;
    list.push(dtm(alloc, b"137", bookings.date.bytes())?)?;
    list.push(tdt(alloc, bookings.voyage.bytes(), bookings.vessel.bytes())?)?;
    list.push(loc(alloc, b"5", port_of(cargo, call).bytes())?)?;
    list.push(loc(alloc, b"61", port_of(cargo, call + 1).bytes())?)?;
    list.push(dtm(alloc, b"133", bookings.date.bytes())?)?;
    Ok(list)
}
