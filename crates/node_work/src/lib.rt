//! One node of the search: its box tightened, its multipliers raised, and then closed, divided, or a solution.
#![tactic(auto)]

mod bounding;
mod choosing;
mod dual_state;
mod ending;
mod positions;
mod retracing;
mod solving;
mod stages;
mod state;
mod tables;
mod working;

pub use bounding::root_bound;
pub use partial_plan::BaseMatrix;
pub use solving::TableSolver;
pub use state::WorkerState;
pub use tables::Tables;
pub use working::work;
