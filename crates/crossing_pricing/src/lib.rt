//! The pricing of crossing rows, which chains of calls gain most: the gains of crossing rows by pairs of calls, and the packing of chains that the first raises come from.
#![tactic(auto)]

mod best_pairs;
mod packing;
mod pairs;
mod tracing;

pub use best_pairs::{Best, NOTHING, most_of};
pub use packing::{Candidate, candidates};
pub use pairs::{PairSides, PairTable, gaps_by_pair};
pub use tracing::chain_of;
