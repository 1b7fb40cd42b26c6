//! The containers of a cargo by their ids.
ghost use Rattle.std.specs.Prelude.{◌≡◌, ◌≢◌, ◌<◌, ℕ, List, IfOk, IfSome, OnOk, Some, length};
ghost use Rattle.std.specs.BTreeMap.{get};
ghost use Rattle.bookings.specs.Ids.{name_order};
ghost use Rattle.plan_files.specs.Ids.{IsIdTable, number_of};

use std::alloc::Global;
use std::collections::BTreeMap;
use stow_data::{Cargo, ContainerNo, Name, NoMemory};

/// Enters a container's number under its id.
fn enter(
    table: &mut BTreeMap<Name, ContainerNo>,
    id: Name,
    number: ContainerNo,
) -> Result<(), NoMemory>
    ensures this { OnOk result (get name_order table.new id ≡ Some number) }
    ensures others { OnOk result ((other : List ℕ) → other ≢ id → get name_order table.new other ≡ get name_order table.old other) }
{
    table.insert(id, number)?;
    Ok(())
}

/// The numbers of a cargo's containers by their ids.
pub fn id_table(alloc: Global, cargo: &Cargo) -> Result<BTreeMap<Name, ContainerNo>, NoMemory>
    ensures { IfOk result (λ table. IsIdTable cargo.now.containers table) }
{
    let mut table = BTreeMap::new(alloc);
    for number in 0..cargo.len() {
        let c = ContainerNo(number);
        enter(&mut table, cargo.container(c).id.copy(), c)?;
    }
    Ok(table)
}

/// The container of an id.
pub fn named(table: &BTreeMap<Name, ContainerNo>, cargo: &Cargo, id: &Name) -> Option<ContainerNo>
    requires { IsIdTable cargo.now.containers table.now }
    ensures is { result ≡ number_of id.now cargo.now.containers }
    ensures inside { IfSome result (λ c. c < length cargo.now.containers) }
{
    cargo.obeys_rules();
    table.get(id).copied()
}
