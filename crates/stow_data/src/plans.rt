//! Plans: what stands at each place.
ghost use Rattle.std.specs.Prelude.{◌≡◌, ◌<◌, IfOk, None, Some, length, replicate, slice_get, slice_set};
ghost use Rattle.stow_data.specs.Ship.{places};

use crate::list::{NoMemory, Seq};
use crate::numbers::{ContainerNo, PlaceNo};
use crate::ships::Ship;
use std::alloc::Global;
use std::marker::Model;

/// A plan: for each place of a ship the container that stands there, or none.
#[derive(Drop)]
pub struct Plan {
    places: Seq<Option<ContainerNo>>,
}

impl Model for Plan {
    ghost use Rattle.std.specs.Prelude.{List, Option, ℕ};

    ghost Value = { List (Option ℕ) };

    ghost view = { λ p. p.places };
}

impl Plan {
    /// The plan of a ship on which nothing stands.
    pub fn empty(alloc: Global, ship: &Ship) -> Result<Plan, NoMemory>
        ensures { IfOk result (λ plan. plan ≡ replicate (length (places ship.now)) None) }
    {
        Ok(Plan {
            places: Seq::filled(alloc, None, ship.places() as usize)?,
        })
    }

    /// The number of places.
    pub fn len(&self) -> usize
        ensures { result ≡ length self.now }
    {
        self.places.len()
    }

    /// What stands at a place.
    pub fn at(&self, p: PlaceNo) -> Option<ContainerNo>
        requires { p < length self.now }
        ensures { slice_get self.now p ≡ Some result }
    {
        *self.places.at(p.0 as usize)
    }

    /// Puts a container at a place, or empties it.
    pub fn set(&mut self, p: PlaceNo, c: Option<ContainerNo>)
        requires { p < length self.old }
        ensures { self.new ≡ slice_set self.old p c }
    {
        self.places.set(p.0 as usize, c);
    }

    /// A copy of the plan.
    pub fn copy(&self, alloc: Global) -> Result<Plan, NoMemory>
        ensures { IfOk result (λ plan. plan ≡ self.now) }
    {
        Ok(Plan {
            places: self.places.copy(alloc)?,
        })
    }
}

/// A list of plans, as of the departures of a voyage.
pub type PlanList = Seq<Plan>;
