//! Boxes of a voyage's program, tightened in ways that are measured, and told.
#![tactic(auto)]

mod asked;
mod boxes;
mod dives;
mod plans;
mod words;

pub use asked::asked_of;
pub use boxes::{write_along, write_kept, write_plain, write_steps};
pub use dives::write_dives;
pub use plans::{planned, step_down, write_voyage};
pub use words::write_count;
