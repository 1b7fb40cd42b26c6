//! What stands where, as the groups so far tell it.
ghost use Rattle.std.specs.Prelude.{◌≡◌, ◌<◌, IfOk, length};
ghost use Rattle.plan_files.specs.PlanOf.{nothing, with_spot};

use std::alloc::Global;
use stow_data::{Cargo, ContainerNo, FlagList, NoMemory, PlaceNo, Plan, Ship};

/// A container, and the place where it stands.
#[derive(Clone, Copy)]
pub struct Spot {
    pub place: PlaceNo,
    pub container: ContainerNo,
}

/// A plan, and for each container whether it stands there.
#[derive(Drop)]
pub struct Standing {
    pub plan: Plan,
    pub placed: FlagList,
}

impl Standing {
    /// Nothing stands yet.
    pub fn nothing(alloc: Global, ship: &Ship, cargo: &Cargo) -> Result<Standing, NoMemory>
        ensures { IfOk result (λ s. s ≡ nothing ship.now cargo.now) }
    {
        Ok(Standing {
            plan: Plan::empty(alloc, ship)?,
            placed: FlagList::filled(alloc, false, cargo.len() as usize)?,
        })
    }

    /// Puts a container at its place.
    pub fn put(&mut self, spot: Spot)
        requires place { spot.place < length self.old.plan }
        requires container { spot.container < length self.old.placed }
        ensures { self.new ≡ with_spot self.old spot }
    {
        self.plan.set(spot.place, Some(spot.container));
        self.placed.set(spot.container.0 as usize, true);
    }
}
