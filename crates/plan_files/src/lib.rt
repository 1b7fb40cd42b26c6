//! Departure files (ISO 9735, SMDG BAPLIE 2.2): the file of a call, as a message and as its text; the plan that a file shows, or why it shows none; and whether files show the departures of a legal voyage, and what these cost.
#![tactic(auto)]

mod cell_groups;
mod checking;
mod departure_file;
mod departure_segments;
mod file_faults;
mod groups;
mod ids;
mod laws;
mod legal_law;
mod missing;
mod moved_groups;
mod plan_faults;
mod reading;
mod shown_law;
mod standing;

pub use cell_groups::port_of;
pub use checking::{FileSet, check_plan, file_set_of};
pub use departure_file::{departure_text, message_of};
pub use file_faults::FileNo;
pub use laws::departure_reads;
pub use legal_law::legal_is_checked;
pub use plan_faults::PlanNo;
pub use reading::plan_of_message;
pub use shown_law::told_is_shown;
