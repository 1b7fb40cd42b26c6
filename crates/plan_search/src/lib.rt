//! The plans of a voyage of low cost, and the certificate of a bound on the cost of every legal voyage.
#![tactic(auto)]

mod closing;
mod crew;
mod improving;
mod loaded;
mod planning;
mod run;

pub use planning::{Planned, plan_voyage};
