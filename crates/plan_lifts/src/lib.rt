//! What must be lifted: how a set of filled places spreads upward and onto hatch covers, the least lifts of given departures with their cost, the moves that do them, and the laws of both bounds on the lifts of legal voyages.
#![tactic(auto)]

mod lifting;
mod listing;
mod moving;
mod picking;
mod spreading;

pub use lifting::{LiftLists, Lifted, LiftsFault, lifts};
pub use listing::LiftList;
pub use moving::{MoveLists, moves_of};
pub use spreading::spread;
