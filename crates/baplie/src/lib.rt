//! BAPLIE 2.2 bay plans: what a message says, how one is read from an interchange's segments, and how one is written.
#![tactic(auto)]

mod causes;
mod cell_groups;
mod endings;
mod faults;
mod groups;
mod law;
mod parts;
mod read_back;
mod reading;
mod roles;
mod texts;
mod writing;

pub use causes::{Cause, Prior};
pub use faults::BaplieFault;
pub use law::{message_or_fault, nothing_left_out};
pub use parts::{CellGroup, Facts, GroupList, Message, MessageList};
pub use read_back::read_is_whole;
pub use reading::read_baplie;
pub use texts::{cell_text, read_cell_text, read_count, read_weight};
pub use writing::write_baplie;
