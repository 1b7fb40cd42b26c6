//! The lines of a certificate.
use crate::tree::{End, Outcome};
use zero_one_rows::{Raise, Row};

/// A line of a certificate.
#[derive(Drop)]
pub enum Line {
    Title,
    Outcome(Outcome),
    Rehandles(Option<u64>),
    Bound(u64),
    Nodes(u64),

    /// A record begins; whether its multipliers start from zero.
    Node(bool),
    Step(Row),
    Change(Raise),

    /// A record ends.
    Ends(End),

    /// The certificate ends.
    Close,
}
