//! How a node ends.

use certificate::Record;
use zero_one_model::Box01;

/// How a node ends.
#[derive(Drop)]
pub enum Worked {
    /// By a leaf that closes at the cut.
    Closed(Record),
    /// Its box is divided by a free variable.
    Branched(Record),
    /// Its box is full, violates no base row and costs less than the cut. The leaf closes at that cost.
    Full {
        entry: Record,
        full: Box01,
        cost: u64,
    },
    /// Memory was wanting, and nothing is said of the node.
    NoMemory,
}
