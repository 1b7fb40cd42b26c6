//! The bay plan of the ship as it comes in, as cargo beside the bookings.
#![tactic(auto)]

mod cells;
mod faults;
mod groups;
mod ids;
mod law;
mod settling;
mod stowage;

pub use cells::{is_taken, place_of, takes};
pub use faults::ArrivalFault;
pub use law::{none_left_ashore, read_can_be_settled};
pub use settling::settle;
