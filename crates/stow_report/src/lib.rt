//! The texts that are printed of what is refused, of a bay plan and of a crane list.
#![tactic(auto)]

mod arrivals;
mod crane_lists;
mod departures;
mod faults;
mod inputs;
mod law;
mod lines;
mod listings;
mod numbers;
mod reports;
mod verdicts;

pub use arrivals::arrival_line;
pub use crane_lists::{CraneMove, CraneReport, CraneRound, CraneRounds, crane_list};
pub use departures::{departure_line, plan_line};
pub use faults::{interchange_line, message_line};
pub use inputs::{booking_line, limit_line, profile_line};
pub use law::read_is_listable;
pub use lines::{Field, FieldList, Group, Line, keyed, numbered, refusal};
pub use listings::{containers_in, kilograms_in, listing};
pub use numbers::{NumbersNo, confirmed, numbers_line};
pub use reports::report;
pub use verdicts::{bound_line, cert_line, file_line};
