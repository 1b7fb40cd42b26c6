//! The loader's rule for every ship: what is lifted at a call, where each container goes, and the departures of a voyage.
#![tactic(auto)]

mod boarding;
mod choosing;
mod clearing;
mod departing;
mod halves;
mod law;
mod layout;
mod lifted;
mod opening;
mod quay;
mod taking_out;
mod waiting;

pub use boarding::{load_all, load_one};
pub use choosing::choice;
pub use departing::{depart, load};
pub use law::one_voyage;
pub use layout::Layout;
pub use lifted::lifted_at;
pub use quay::in_order;
pub use taking_out::staying;
pub use waiting::quay_of;
