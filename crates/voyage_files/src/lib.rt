//! A voyage's files: profile, bookings and bay plans as they are read, and departure files with their certificate as they are judged.
#![tactic(auto)]

mod answer;
mod arriving;
mod inputs;
mod judging;
mod law;
mod lines;
mod numbers;
mod reading;
mod refusals;
mod refusing;
mod texts;
mod voyage;

pub use answer::Answer;
pub use inputs::Inputs;
pub use judging::judge;
pub use law::{one_judgement, written_is_read};
pub use lines::line_of;
pub use reading::{Found, ReadStop, read, read_inputs, read_inputs_at};
pub use refusals::JudgeNo;
pub use texts::{TextList, departures_in};
pub use voyage::BookedVoyage;
