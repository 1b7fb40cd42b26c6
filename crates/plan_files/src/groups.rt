//! What the cell groups of a departure file tell, group after group.
ghost use Rattle.std.specs.Prelude.{◌≡◌, ◌≢◌, ◌<◌, ◌^◌, Ok, Err, IfErr, IfOk, OnOk, false, length, slice_index_or};
ghost use Rattle.stow_data.specs.Ship.{fits, places};
ghost use Rattle.stow_data.specs.Shipment.{is_aboard};
ghost use Rattle.stow_data.specs.Plans.{container_at, place_at};
ghost use Rattle.plan_files.specs.declared.file_faults.FileNo.TheVariants.{NoMemory as WantOfMemory};
ghost use Rattle.plan_files.specs.Ids.{IsIdTable};
ghost use Rattle.plan_files.specs.PlanOf.{is_bound, spotted, with_facts};

use crate::cell_groups::port_of;
use crate::file_faults::FileNo;
use crate::ids::named;
use crate::standing::{Spot, Standing};
use arrival_plan::{is_taken, place_of, takes};
use baplie::{CellGroup, Facts};
use std::collections::BTreeMap;
use stow_data::{CallNo, Cargo, ContainerNo, FlagList, Name, PlaceNo, Ship};

/// Whether a port is the container's port of discharge.
fn is_bound(cargo: &Cargo, c: ContainerNo, port: &Name) -> bool
    requires { c < length cargo.now.containers }
    ensures { result ≡ is_bound cargo.now (container_at cargo.now c) port.now }
{
    let dest = cargo.container(c).dest;
    port.bytes() == port_of(cargo, dest.0).bytes()
}

/// Whether a container is aboard after a call.
pub fn is_aboard(cargo: &Cargo, c: ContainerNo, call: CallNo) -> bool
    requires { c < length cargo.now.containers }
    ensures { result ≡ is_aboard call (container_at cargo.now c) }
{
    cargo.container(c).is_aboard(call)
}

/// Whether a container stands somewhere already.
pub fn is_placed(placed: &FlagList, c: ContainerNo) -> bool
    requires { c < length placed.now }
    ensures { result ≡ slice_index_or placed.now c false }
{
    *placed.at(c.0 as usize)
}

/// Whether a place takes containers of a container's length.
fn fits_length(ship: &Ship, cargo: &Cargo, p: PlaceNo, c: ContainerNo) -> bool
    requires place { p < length (places ship.now) }
    requires container { c < length cargo.now.containers }
    ensures { result ≡ fits (place_at ship.now p) (container_at cargo.now c).long false }
{
    takes(ship, p, cargo.container(c).long)
}

/// The container that a group tells of, at its place.
#[tactic(auto, unfolding(crate::specs::PlanOf::spotted))]
fn spotted(
    ship: &Ship,
    cargo: &Cargo,
    ids: &BTreeMap<Name, ContainerNo>,
    call: CallNo,
    before: &Standing,
    index: u32,
    group: &CellGroup,
    facts: &Facts,
) -> Result<Spot, FileNo>
    requires index { index < 2 ^ 29 }
    requires ids { IsIdTable cargo.now.containers ids.now }
    requires each_place { length before.now.plan ≡ length (places ship.now) }
    requires each_container { length before.now.placed ≡ length cargo.now.containers }
    ensures is { result ≡ spotted ship.now cargo.now call before.now index group.now facts.now }
    ensures place { IfOk result (λ s. s.place < length (places ship.now)) }
    ensures container { IfOk result (λ s. s.container < length cargo.now.containers) }
{
    let Some(place) = place_of(ship, group) else {
        return Err(FileNo::NoSuchCell { group: index + 1 });
    };
    let Some(container) = named(ids, cargo, &facts.id) else {
        return Err(FileNo::Unknown {
            id: facts.id.copy(),
        });
    };
    if is_placed(&before.placed, container) {
        return Err(FileNo::Twice {
            id: facts.id.copy(),
        });
    }
    if !fits_length(ship, cargo, place, container) {
        return Err(FileNo::WrongLength {
            id: facts.id.copy(),
        });
    }
    if is_taken(ship, &before.plan, place) {
        return Err(FileNo::CellTaken {
            id: facts.id.copy(),
        });
    }
    if !is_bound(cargo, container, &facts.dest) {
        return Err(FileNo::DischargeDiffers {
            id: facts.id.copy(),
        });
    }
    if !is_aboard(cargo, container, call) {
        return Err(FileNo::NotAboard {
            id: facts.id.copy(),
        });
    }
    Ok(Spot { place, container })
}

/// Puts what a group tells of at its place.
pub fn add_group(
    ship: &Ship,
    cargo: &Cargo,
    ids: &BTreeMap<Name, ContainerNo>,
    call: CallNo,
    standing: &mut Standing,
    index: u32,
    group: &CellGroup,
) -> Result<(), FileNo>
    requires index { index < 2 ^ 29 }
    requires ids { IsIdTable cargo.now.containers ids.now }
    requires each_place { length standing.old.plan ≡ length (places ship.now) }
    requires each_container { length standing.old.placed ≡ length cargo.now.containers }
    ensures added { OnOk result (with_facts ship.now cargo.now call standing.old index group.now group.now.facts ≡ Ok standing.new) }
    ensures each_place { OnOk result (length standing.new.plan ≡ length (places ship.now)) }
    ensures each_container { OnOk result (length standing.new.placed ≡ length cargo.now.containers) }
    ensures fault { IfErr result (λ e. e ≢ WantOfMemory → with_facts ship.now cargo.now call standing.old index group.now group.now.facts ≡ Err e) }
{
    match &group.facts {
        None => Ok(()),
        Some(facts) => {
            let spot = spotted(ship, cargo, ids, call, standing, index, group, facts)?;
            standing.put(spot);
            Ok(())
        }
    }
}
