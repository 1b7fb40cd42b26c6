//! What stands aboard, and one container more at its place.
ghost use Rattle.std.specs.Prelude.{◌≡◌, ◌<◌, ◌^◌, IfOk, OnOk, length};
ghost use Rattle.arrival_plan.specs.Arriving.{nothing, with_placed};

use std::alloc::Global;
use stow_data::{Container, ContainerList, ContainerNo, NoMemory, PlaceNo, Plan, Ship};

/// A container, and the place where it stands.
#[derive(Drop)]
pub struct Placed {
    pub place: PlaceNo,
    pub container: Container,
}

/// Containers aboard, and where they stand.
#[derive(Drop)]
pub struct Stowage {
    pub containers: ContainerList,
    pub plan: Plan,
}

impl Stowage {
    /// Nothing aboard.
    pub fn nothing(alloc: Global, ship: &Ship) -> Result<Stowage, NoMemory>
        ensures { IfOk result (λ s. s ≡ nothing ship.now) }
    {
        Ok(Stowage {
            containers: ContainerList::new(alloc),
            plan: Plan::empty(alloc, ship)?,
        })
    }

    /// Puts a container at its place.
    pub fn add(&mut self, placed: Placed) -> Result<(), NoMemory>
        requires inside { placed.place < length self.old.plan }
        requires few { length self.old.containers < 2 ^ 32 }
        ensures { OnOk result (self.new ≡ with_placed self.old placed) }
    {
        let number = ContainerNo(self.containers.len() as u32);
        self.containers.push(placed.container)?;
        self.plan.set(placed.place, Some(number));
        Ok(())
    }
}
