//! The work list of a call: its moves, shared out to cranes in rounds, as it is printed.
#![tactic(auto)]

mod printing;
mod sharing;

pub use sharing::work_list;
