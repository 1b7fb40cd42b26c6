//! Plans and departures: what a well-formed plan is, the five rules of a departure, and plain programs beside them.
#![tactic(auto)]

mod classes;
mod departures;
mod faults;
mod half_cells;
mod plugs;
mod separation;
mod supports;
mod tiers;
mod weights;

pub use departures::{holds_aboard, is_departure, is_well_formed};
pub use faults::{RuleBroken, departure_fault};
pub use half_cells::{filler, filler_near, is_taken, is_twenty, takes_side};
pub use supports::is_filled;
pub use tiers::first_of_tier;
