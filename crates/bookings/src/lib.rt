//! The reader of bookings (TOML): a voyage's rotation and its containers, or the first fault of the text; and the cargo that bookings make.
#![tactic(auto)]

mod booking_keys;
mod cargo;
mod entries;
mod faults;
mod ids;
mod keyed;
mod reader;
mod shipment;

pub use booking_keys::BookingKey;
pub use cargo::cargo_of;
pub use faults::BookingFault;
pub use reader::read_bookings;
pub use shipment::{Booking, BookingList, Bookings};
