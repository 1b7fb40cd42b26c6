//! A plan without what stands at the places of a set, as a layout.
ghost use Rattle.std.specs.Prelude.{◌≡◌, ◌+◌, ◌<◌, IfOk, OnOk, length};
ghost use Rattle.stow_data.specs.Ship.{places};
ghost use Rattle.stowage_rules.specs.Plan.{IsWellFormed};
ghost use Rattle.greedy_loader.specs.Kept.{IsKept};
ghost use Rattle.greedy_loader.specs.Quays.{HoldsUpTo, IsWithout};

use crate::layout::Layout;
use std::alloc::Global;
use stow_data::{Cargo, FlagList, NoMemory, PlaceNo, Plan, Ship};

/// Puts what stands at a place there, where the place isn't of the set.
fn keep_at(
    layout: &mut Layout,
    ship: &Ship,
    cargo: &Cargo,
    before: &Plan,
    set: &FlagList,
    p: PlaceNo,
) -> Result<(), NoMemory>
    requires formed { IsWellFormed ship.now cargo.now before.now }
    requires each_flag { length set.now ≡ length (places ship.now) }
    requires inside { p < length (places ship.now) }
    requires kept { IsKept ship.now cargo.now layout.old }
    requires holds { HoldsUpTo before.now set.now p layout.old.plan }
    ensures kept { OnOk result (IsKept ship.now cargo.now layout.new) }
    ensures holds { OnOk result (HoldsUpTo before.now set.now (p + 1) layout.new.plan) }
{
    match before.at(p) {
        None => Ok(()),
        Some(c) => {
            if *set.at(p.0 as usize) {
                return Ok(());
            }
            layout.put(ship, cargo, p, c)
        }
    }
}

/// The layout of a well-formed plan without what stands at the places of a set.
pub fn staying(
    alloc: Global,
    ship: &Ship,
    cargo: &Cargo,
    before: &Plan,
    set: &FlagList,
) -> Result<Layout, NoMemory>
    requires formed { IsWellFormed ship.now cargo.now before.now }
    requires each_flag { length set.now ≡ length (places ship.now) }
    ensures kept { IfOk result (λ layout. IsKept ship.now cargo.now layout) }
    ensures plan { IfOk result (λ layout. IsWithout before.now set.now layout.plan) }
{
    let mut layout = Layout::empty(alloc, ship, cargo)?;
    for p in 0..ship.places() {
        keep_at(&mut layout, ship, cargo, before, set, PlaceNo(p))?;
    }
    Ok(layout)
}
