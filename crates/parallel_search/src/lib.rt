//! The search with any number of workers: each with a solver of its own, with a deque from which the others steal.
#![tactic(auto)]

mod beginning;
mod finishing;
mod joining;
mod searching;
mod slots;
mod threading;

pub use searching::search;
