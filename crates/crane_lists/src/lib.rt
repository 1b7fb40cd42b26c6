//! Work lists for cranes: the moves of a call shared out in rounds, one move a crane and round, and the laws of such lists.
#![tactic(auto)]

mod bays;
mod laws;
mod ordering;
mod pairs;
mod rounds;
mod sharing;
mod tasks;
mod windows;

pub use laws::{
    crane_lists_keep_the_work, independent_moves_commute, least_rounds_bound_crane_lists,
};
pub use rounds::{Round, Rounds};
pub use sharing::share;
pub use tasks::{ContainerList2, Task, containers_of};
pub use windows::least;
