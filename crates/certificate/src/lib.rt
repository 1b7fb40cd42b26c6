//! Certificates of a bound: a proof tree with its head, and their text; and nodes of a search, each with the records above it, which it shares with others.
#![tactic(auto)]

mod copies;
mod faults;
mod few;
mod journals;
mod kept_rows;
mod laws;
mod line_reader;
mod lines;
mod nodes;
mod parsing;
mod reading;
mod refusals;
mod scanning;
mod trails;
mod tree;
mod words;
mod writing;

pub use faults::CertFault;
pub use few::Few;
pub use journals::{Entry, Journal, JournalList, Path, PathList};
pub use kept_rows::{KeptRaise, KeptRaiseList, KeptRow, KeptRowList};
pub use laws::answers_are_determined;
pub use lines::Line;
pub use nodes::Node;
pub use reading::read_cert;
pub use refusals::BoundNo;
pub use trails::{SharedRecord, Trail};
pub use tree::{End, Head, Outcome, Record, Tree};
pub use writing::{write_cert, write_row};
