//! Containers of a class of dangerous goods.
ghost use Rattle.std.specs.Prelude.{◌≡◌, ◌↔◌, ◌<◌, IsTrue, length};
ghost use Rattle.stow_data.specs.Ship.{places};
ghost use Rattle.stowage_rules.specs.Faults.{HasClassAt};
ghost use Rattle.stowage_rules.specs.Places.{AreOfClass};

use arrayvec::ArrayVec;
use stow_data::{Cargo, Name, PlaceNo, Plan, Ship};

/// Numbers of places, kept in place: a ship has at most 3,000.
pub type PlaceNumbers = ArrayVec<u32, 3000>;

/// Whether a container of this class stands at a place.
pub fn has_class(cargo: &Cargo, plan: &Plan, p: PlaceNo, class: &Name) -> bool
    requires { p < length plan.now }
    ensures { IsTrue result ↔ HasClassAt cargo.now plan.now p class.now }
{
    match plan.at(p) {
        None => false,
        Some(c) => {
            if c.0 >= cargo.len() {
                return false;
            }
            match &cargo.container(c).class {
                Some(own) => own == class,
                None => false,
            }
        }
    }
}

/// The places at which containers of a class stand, by rising number. It takes no memory.
pub fn places_of_class(ship: &Ship, cargo: &Cargo, plan: &Plan, class: &Name) -> PlaceNumbers
    requires { length plan.now ≡ length (places ship.now) }
    ensures { AreOfClass cargo.now plan.now class.now (length (places ship.now)) result.items }
{
    let mut found = ArrayVec::new();
    for p in 0..ship.places() {
        if has_class(cargo, plan, PlaceNo(p), class) {
            found.push(p);
        }
    }
    found
}
