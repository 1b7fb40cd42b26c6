//! The reader of a ship's profile (TOML): the ship, or the first fault of the text.
#![tactic(auto)]

mod cells;
mod class_pair;
mod covers;
mod faults;
mod keys;
mod laws;
mod named_stacks;
mod position;
mod profile_text;
mod separations;
mod separations_so_far;
mod stack_finder;
mod stacks;

pub use faults::{ProfileFault, ProfileKey};
pub use laws::shared_cells_are_named;
pub use profile_text::read_profile;
