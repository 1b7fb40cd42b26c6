//! What the program does with its words, its files and its output.
#![tactic(auto)]

mod answering;
mod checking;
mod cranes;
mod departures;
mod ending;
mod law;
mod making;
mod planning;
mod process;
mod refusing;
mod sharing;
mod showing;
mod status;
mod top;
mod verdict;
mod work;

pub use answering::answer_to;
pub use law::answers_agree;
pub use process::{exit_code, program};
pub use status::Status;
pub use top::stow;
