//! The checker of proof trees: whether a tree proves a bound on the cost of every solution.
#![tactic(auto)]

mod amounts;
mod blank;
mod check;
mod cleaning;
mod forcing;
mod holders;
mod laws;
mod named_rows;
mod priced_box;
mod prices;
mod settled;
mod steps;
mod subtrees;
mod sums;
mod walk;

pub use certificate::BoundNo;
pub use check::{best_bound, check_bound};
pub use laws::{proved_or_fault, records_are_few};
pub use settled::settled_bound;
