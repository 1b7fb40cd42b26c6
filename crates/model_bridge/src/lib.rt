//! Between the 0-1 program and voyages: each solution gives a legal voyage, and each legal voyage gives a solution; plans from a solution, and a solution from plans.
#![tactic(auto)]

mod assignments;
mod begins;
mod pairs;
mod plans;
mod solutions;

pub use assignments::assignment_of;
pub use plans::plan_of;
pub use solutions::{bounds_are_of_voyages, each_solution_sails, each_voyage_solves};
