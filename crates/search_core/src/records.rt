//! What ended nodes.

use crate::node_keys::NodeKey;

/// A record, and the node that it ended.
#[derive(Drop)]
pub struct Done<T> {
    pub node: NodeKey,
    pub entry: T,
}
