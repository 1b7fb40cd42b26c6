//! The plan that a departure file shows.
ghost use Rattle.std.specs.Prelude.{◌≡◌, ◌≢◌, ◌≤◌, ◌^◌, Ok, Err, IfOk, MatchResult, length};
ghost use Rattle.stow_data.specs.Ship.{places};
ghost use Rattle.plan_files.specs.declared.file_faults.FileNo.TheVariants.{NoMemory as WantOfMemory};
ghost use Rattle.plan_files.specs.PlanOf.{plan_of, standing};
ghost use Rattle.plan_files.specs.Shown.{Shows, shown_by};

use crate::file_faults::FileNo;
use crate::groups::add_group;
use crate::ids::id_table;
use crate::missing::first_missing;
use crate::standing::Standing;
use baplie::{CellGroup, Message};
use std::alloc::Global;
use stow_data::{CallNo, Cargo, Plan, Ship};

/// What stands where as the groups tell it, or the first fault of one.
fn standing(
    alloc: Global,
    ship: &Ship,
    cargo: &Cargo,
    call: CallNo,
    groups: &[CellGroup],
) -> Result<Standing, FileNo>
    requires { length groups.now ≤ 2 ^ 29 }
    ensures told { MatchResult result (λ s. standing ship.now cargo.now call groups.now ≡ Ok s) (λ e. e ≢ WantOfMemory → standing ship.now cargo.now call groups.now ≡ Err e) }
    ensures each_container { IfOk result (λ s. length s.placed ≡ length cargo.now.containers) }
{
    let ids = id_table(alloc, cargo)?;
    let mut standing = Standing::nothing(alloc, ship, cargo)?;
    for (index, group) in groups.iter().enumerate() {
        add_group(ship, cargo, &ids, call, &mut standing, index as u32, group)?;
    }
    Ok(standing)
}

/// The plan that a message shows at a call: exactly where it shows one. Groups without a container are passed over.
/// Else the first refusal: that of the first group at fault, or the first container that is aboard and in no group.
#[tactic(auto, unfolding(crate::specs::PlanOf::plan_of))]
pub fn plan_of_message(
    alloc: Global,
    ship: &Ship,
    cargo: &Cargo,
    message: &Message,
    call: CallNo,
) -> Result<Plan, FileNo>
    requires few { length message.now.groups ≤ 2 ^ 29 }
    ensures is { MatchResult result (λ plan. plan_of ship.now cargo.now call message.now.groups ≡ Ok plan) (λ e. e ≢ WantOfMemory → plan_of ship.now cargo.now call message.now.groups ≡ Err e) }
{
    let standing = standing(alloc, ship, cargo, call, message.groups.as_slice())?;
    match first_missing(cargo, call, &standing.placed) {
        None => Ok(standing.plan),
        Some(c) => Err(FileNo::MissingContainer {
            id: cargo.container(c).id.copy(),
        }),
    }
}
