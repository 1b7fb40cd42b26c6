//! The children of a divided node.
ghost use Rattle.std.specs.Prelude.{◌≡◌, ◌↔◌, ◌<◌, IsTrue, [], ◌∷◌, List, Some, length};
ghost use Rattle.search_core.specs.declared.node_keys.NodeKey.{NodeKey};

use crate::node_keys::NodeKey;
use std::marker::Model;

/// The children that aren't pushed yet, in the order of their pushes. Contracts see their list.
#[derive(Drop)]
pub struct Children {
    first: Option<NodeKey>,
    second: Option<NodeKey>,
}

impl Model for Children {
    ghost use Rattle.std.specs.Prelude.{List, ◌++◌};
    ghost use Rattle.std.specs.Option.{option_to_list};
    ghost use Rattle.search_core.specs.declared.node_keys.NodeKey.{NodeKey};

    ghost Value = { List NodeKey };

    ghost view = { λ c. option_to_list c.first ++ option_to_list c.second };
}

impl Children {
    /// No children.
    pub fn none() -> Children
        ensures { result ≡ [] }
    {
        Children {
            first: None,
            second: None,
        }
    }

    /// Two children.
    pub fn both(first: NodeKey, second: NodeKey) -> Children
        ensures { result ≡ first ∷ second ∷ [] }
    {
        Children {
            first: Some(first),
            second: Some(second),
        }
    }

    /// Whether each child is pushed.
    pub fn is_empty(&self) -> bool
        ensures { IsTrue result ↔ (self.now ≡ []) }
    {
        self.first.is_none() && self.second.is_none()
    }

    /// How many there are.
    pub fn len(&self) -> usize
        ensures { result ≡ length self.now }
    {
        self.first.is_some() as usize + self.second.is_some() as usize
    }

    /// The first child, which leaves the list.
    pub fn take(&mut self) -> Option<NodeKey>
        requires { 0 < length self.old }
        ensures { (n : NodeKey) × (rest : List NodeKey) × (result ≡ Some n) × (self.old ≡ n ∷ rest) × (self.new ≡ rest) }
    {
        match self.first {
            Some(child) => {
                self.first = None;
                Some(child)
            }
            None => {
                let child = self.second;
                self.second = None;
                child
            }
        }
    }
}
