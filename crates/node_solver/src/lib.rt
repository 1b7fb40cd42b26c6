//! How a node of the search ends, and what ends nodes.
#![tactic(auto)]

mod solver;
mod solving;
mod worked;

pub use solver::Solver;
pub use solving::NodeSolver;
pub use worked::Worked;
