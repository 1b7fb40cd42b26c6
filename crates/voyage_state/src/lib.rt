//! A voyage in the making: what of a ship, a cargo and their 0-1 program is the same in every one, and what stands where, waits on the quay and has ended.
//!
//! Both are invariants over `Sizes`: their lists have an entry for each stack, cover, kind and place, and what names one of these names one that there is. So every write is at an index that is proved to be there.
#![tactic(auto)]

mod bonds;
mod facts;
mod gathering;
mod prices;
mod ship_state;
mod sizes;

pub use facts::{Arrived, Facts, KindFacts, Lot, Mark, Spot, StackFacts, TIERS, bit_of};
pub use gathering::gather_facts;
pub use prices::Prices;
pub use ship_state::{Classed, Column, Hatch, Pile, Planned, ShipState, Stay};
pub use sizes::Sizes;
