//! A search by events, each accepted or refused: the rule of the search machine after every list of them; and the judge of records at their nodes, by the rows of a voyage's program.
#![tactic(auto)]

mod amounts;
mod boxes;
mod event_nodes;
mod events;
mod full;
mod judge;
mod judge_state;
mod judged;
mod judging;
mod machine;
mod naming;
mod nodes;
mod tally;
mod verdicts;
mod worth;

pub use event_nodes::{Step, lead_to};
pub use events::Event;
pub use judge::RecordJudge;
pub use judging::Judge;
pub use machine::{Core, Ended};
