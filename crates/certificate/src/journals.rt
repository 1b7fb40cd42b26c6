//! What the workers of a search keep: the records that ended nodes.
use crate::tree::Record;
use stow_data::{FlagList, Seq};

/// The way from the root of a search to a node: the value of each branch on it.
pub type Path = FlagList;

/// The paths of several nodes.
pub type PathList = Seq<Path>;

/// A node's record, at the node's path.
#[derive(Drop)]
pub struct Entry {
    pub path: Path,
    pub record_of: Record,
}

/// The records that one worker made, in the order in which it made them.
pub type Journal = Seq<Entry>;

/// The journals of all workers.
pub type JournalList = Seq<Journal>;
