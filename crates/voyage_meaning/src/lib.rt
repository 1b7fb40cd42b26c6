//! Crane moves, the ship at a berth, and legal voyages: the definitions, and what does or refuses a move by them.
#![tactic(auto)]

mod berth;
mod columns;
mod covers;
mod crane;
mod laws;
mod moves;
mod numbering;
mod refusals;
mod standing;

pub use berth::{Berth, Unfinished};
pub use crane::{MoveList, cost_of_call, cost_of_voyage, run};
pub use laws::allowed_without_fault;
pub use moves::Move;
pub use refusals::MoveFault;
