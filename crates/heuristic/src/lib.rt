//! The search's heuristic: random greedy voyages that respect a box, and a stay of the cheapest, by which the search divides.
//!
//! What a run draws, takes over and keeps are invariants over the sizes of a voyage, as its facts and its state are: so every write is at an index that is proved to be there.
#![tactic(auto)]

mod chance;
mod guide;
mod kept;
mod leave;
mod lifting;
mod placing;
mod planner;
mod rule;
mod sailing;
mod scope;
mod trade;

pub use planner::{HeuristicLimits, Planner};
