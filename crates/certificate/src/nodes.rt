//! Nodes of a search.

use crate::journals::Path;
use crate::trails::Trail;

/// A node of a search.
#[derive(Drop)]
pub struct Node {
    /// The value of each branch from the root down to the node.
    pub path: Path,

    /// The records of its ancestors, the root's first. Each ends in a branch.
    pub trail: Trail,
}
