//! The first fault of a plan against the five rules of a departure.
ghost use Rattle.std.specs.Prelude.{◌≡◌, MatchOption};
ghost use Rattle.stowage_rules.specs.Plan.{IsWellFormed};
ghost use Rattle.stowage_rules.specs.Faults.{IsFirstFault, MeetsRules};

use crate::plugs::first_unplugged;
use crate::separation::first_unseparated;
use crate::supports::{first_twenty_on_forty, first_unsupported};
use crate::weights::first_heavy;
use stow_data::{Cargo, HalfNo, PlaceNo, Plan, Ship, StackNo};

/// A rule of a departure that a plan breaks, and where. In the first two, the half-cell is the upper one, which is
/// filled; a separation has its index from 0, the place of a container of its first class, and that of one of its
/// second class.
#[derive(Clone, Copy, PartialEq, Eq)]
pub enum RuleBroken {
    Support {
        half: HalfNo,
    },
    TwentyOnForty {
        half: HalfNo,
    },
    NoPlug {
        place: PlaceNo,
    },
    /// The weight of the stack in kilograms, each container's rounded up to the ship's step.
    StackWeight {
        stack: StackNo,
        kg: u64,
    },
    Separation {
        index: u32,
        first: PlaceNo,
        second: PlaceNo,
    },
}

/// The first fault of a well-formed plan: by the number of the rule, then by the fields. None exactly where all five
/// rules hold. It takes no memory.
pub fn departure_fault(ship: &Ship, cargo: &Cargo, plan: &Plan) -> Option<RuleBroken>
    requires { IsWellFormed ship.now cargo.now plan.now }
    ensures { MatchOption result (MeetsRules ship.now cargo.now plan.now) (λ fault. IsFirstFault ship.now cargo.now plan.now fault) }
{
    if let Some(half) = first_unsupported(ship, plan) {
        return Some(RuleBroken::Support { half });
    }
    if let Some(half) = first_twenty_on_forty(ship, cargo, plan) {
        return Some(RuleBroken::TwentyOnForty { half });
    }
    if let Some(place) = first_unplugged(ship, cargo, plan) {
        return Some(RuleBroken::NoPlug { place });
    }
    if let Some((stack, kg)) = first_heavy(ship, cargo, plan) {
        return Some(RuleBroken::StackWeight { stack, kg });
    }
    match first_unseparated(ship, cargo, plan) {
        None => None,
        Some(found) => Some(RuleBroken::Separation {
            index: found.0,
            first: found.1,
            second: found.2,
        }),
    }
}
