//! For each bay plan file its picture beside it, and for several files a page that steps through them.
#![tactic(auto)]

mod ending;
mod naming;
mod reading;
mod status;
mod top;
mod work;

pub use status::Status;
pub use top::view;
