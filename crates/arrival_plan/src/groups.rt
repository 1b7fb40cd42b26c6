//! What the cell groups of a bay plan bring aboard, group after group.
ghost use Rattle.std.specs.Prelude.{◌≡◌, ◌≢◌, ◌+◌, ◌<◌, ◌≤◌, ◌^◌, Ok, Err, IfErr, IfOk, MatchResult, OnOk, length};
ghost use Rattle.stow_data.specs.Ship.{places};
ghost use Rattle.arrival_plan.specs.declared.faults.ArrivalFault.TheVariants.{NoMemory as WantOfMemory};
ghost use Rattle.arrival_plan.specs.Arriving.{arriving, container_of, placed, with_facts};
ghost use Rattle.arrival_plan.specs.Ids.{AreNames};

use crate::cells::{first_call, is_taken, place_of, takes};
use crate::faults::ArrivalFault;
use crate::ids::{booked_ids, enter, is_among};
use crate::stowage::{Placed, Stowage};
use baplie::{CellGroup, Facts};
use bookings::Bookings;
use std::alloc::Global;
use std::collections::BTreeSet;
use stow_data::{CallNo, Container, Name, Origin, Ship};

/// The container that a group tells of, at its place. `ids` has the ids of the bookings and of what is aboard.
#[tactic(auto, unfolding(crate::specs::Arriving::placed))]
fn placed(
    ship: &Ship,
    bookings: &Bookings,
    before: &Stowage,
    ids: &BTreeSet<Name>,
    index: u32,
    group: &CellGroup,
    facts: &Facts,
) -> Result<Placed, ArrivalFault>
    requires index { index < 2 ^ 29 }
    requires calls { length bookings.now.rotation ≤ 12 }
    requires each_place { length before.now.plan ≡ length (places ship.now) }
    requires names { AreNames ids.now bookings.now.containers before.now.containers }
    ensures is { result ≡ placed ship.now bookings.now before.now index group.now facts.now }
    ensures inside { IfOk result (λ p. p.place < length (places ship.now)) }
{
    let number = index + 1;
    let Some(place) = place_of(ship, group) else {
        return Err(ArrivalFault::NoSuchCell { group: number });
    };
    if !takes(ship, place, facts.long) {
        return Err(ArrivalFault::WrongLength { group: number });
    }
    if is_among(ids, &facts.id) {
        return Err(ArrivalFault::Twice {
            id: facts.id.copy(),
        });
    }
    let Some(dest) = first_call(&facts.dest, bookings.rotation.as_slice()) else {
        return Err(ArrivalFault::NotInRotation { group: number });
    };
    if is_taken(ship, &before.plan, place) {
        return Err(ArrivalFault::CellTaken { group: number });
    }
    Ok(Placed {
        place,
        container: container_of(index, facts, dest),
    })
}

/// The container of a group, bound for this call.
fn container_of(index: u32, facts: &Facts, dest: CallNo) -> Container
    ensures { result ≡ container_of index facts.now dest }
{
    Container {
        id: facts.id.copy(),
        load: CallNo(0),
        dest,
        long: facts.long,
        kg: facts.kg,
        reefer: facts.reefer,
        class: Name::copied(&facts.class),
        origin: Origin::Arrived(index),
    }
}

/// Puts aboard what a group tells of.
fn add_group(
    ship: &Ship,
    bookings: &Bookings,
    stowage: &mut Stowage,
    ids: &mut BTreeSet<Name>,
    index: u32,
    group: &CellGroup,
) -> Result<(), ArrivalFault>
    requires index { index < 2 ^ 29 }
    requires calls { length bookings.now.rotation ≤ 12 }
    requires few { length stowage.old.containers ≤ index }
    requires each_place { length stowage.old.plan ≡ length (places ship.now) }
    requires names { AreNames ids.old bookings.now.containers stowage.old.containers }
    ensures added { OnOk result (with_facts ship.now bookings.now stowage.old index group.now group.now.facts ≡ Ok stowage.new) }
    ensures few { OnOk result (length stowage.new.containers ≤ index + 1) }
    ensures each_place { OnOk result (length stowage.new.plan ≡ length (places ship.now)) }
    ensures names { OnOk result (AreNames ids.new bookings.now.containers stowage.new.containers) }
    ensures fault { IfErr result (λ e. e ≢ WantOfMemory → with_facts ship.now bookings.now stowage.old index group.now group.now.facts ≡ Err e) }
{
    match &group.facts {
        None => Ok(()),
        Some(facts) => {
            let placed = placed(ship, bookings, stowage, ids, index, group, facts)?;
            enter(ids, placed.container.id.copy())?;
            stowage.add(placed)?;
            Ok(())
        }
    }
}

/// What the groups of a bay plan bring aboard, or the first fault of one.
pub fn arriving(
    alloc: Global,
    ship: &Ship,
    bookings: &Bookings,
    groups: &[CellGroup],
) -> Result<Stowage, ArrivalFault>
    requires few { length groups.now ≤ 2 ^ 29 }
    requires calls { length bookings.now.rotation ≤ 12 }
    ensures told { MatchResult result (λ s. arriving ship.now bookings.now groups.now ≡ Ok s) (λ e. e ≢ WantOfMemory → arriving ship.now bookings.now groups.now ≡ Err e) }
    ensures few { IfOk result (λ s. length s.containers ≤ 2 ^ 29) }
{
    let mut stowage = Stowage::nothing(alloc, ship)?;
    let mut ids = booked_ids(alloc, bookings.containers.as_slice())?;
    for (index, group) in groups.iter().enumerate() {
        add_group(ship, bookings, &mut stowage, &mut ids, index as u32, group)?;
    }
    Ok(stowage)
}
