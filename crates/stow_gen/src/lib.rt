//! A made ship and its bookings, by number: the same texts for the same number, which the readers accept, and whose program is within the limits.
#![tactic(auto)]

mod drawn_bookings;
mod draws;
mod made_texts;
mod profile;
#[cfg(test)]
mod tests;
mod words;

pub use drawn_bookings::make_bookings;
pub use made_texts::{made_texts_are_read, made_voyages_are_within};
pub use profile::make_profile;
