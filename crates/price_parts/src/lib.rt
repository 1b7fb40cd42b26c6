//! Dual values of a voyage's program, raised in ways that are measured, and told.
#![tactic(auto)]

mod follows;
mod prices;

pub use follows::write_follows;
pub use prices::{write_raises, write_root, write_value};
