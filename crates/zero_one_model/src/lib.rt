//! The 0-1 program of a voyage, built: its variables and rows by number, with their coefficients, and boxes (after Avriel, Penn, Shpirer and Witteboon, 1998).
#![tactic(auto)]

mod boxes;
mod building;
mod filing;
mod index;
mod lots;
mod model;
mod refusals;
mod runs;

pub use boxes::Box01;
pub use model::Model;
pub use refusals::ModelNo;
