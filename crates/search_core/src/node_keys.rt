//! Which node of a search.

/// A node of a search: the root, or a half of the node that an entry ended, by the branch's value. Entries count from 0.
#[derive(Clone, Copy, PartialEq, Eq)]
pub enum NodeKey {
    Root,
    Half { entry: usize, value: bool },
}
