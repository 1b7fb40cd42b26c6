//! The journals of a search's workers, put together into one proof tree.
#![tactic(auto)]

mod gathering;
mod laws;
mod nodes;

pub use gathering::gather;
pub use laws::gathered_journals_prove;
