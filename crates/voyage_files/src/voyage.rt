//! A ship with its bookings and its cargo.
use baplie::Message;
use bookings::Bookings;
use stow_data::{Cargo, Ship};

/// A ship, the bookings of its voyage, the bay plan with which it comes in, and the cargo that they make.
#[derive(Drop)]
pub struct BookedVoyage {
    pub ship: Ship,
    pub bookings: Bookings,
    /// None where the ship comes in empty.
    pub message: Option<Message>,
    pub cargo: Cargo,
}

/// What a ship comes in with: its bay plan, None where it comes in empty, and the cargo that this makes of its bookings.
#[derive(Drop)]
pub struct ComesIn {
    pub message: Option<Message>,
    pub cargo: Cargo,
}
