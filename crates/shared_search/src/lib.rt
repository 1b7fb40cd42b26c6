//! What the workers of a search share: the best value, the tickets and the budget in three atomic words, and racks of deques, one for each worker, from which the others steal.
#![tactic(auto)]

mod board;
mod closing;
mod deques;
mod opening;
mod racks;
mod rule;
mod tally;
mod view;

pub use board::{Board, Owner, Seat, Totals};
pub use closing::Closed;
pub use racks::{Pass, Rack};
pub use rule::Wanted;
pub use tally::{Did, Tally};
pub use view::{Role, View};
