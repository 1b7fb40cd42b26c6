//! How much there is of what a voyage handles.

/// How much there is of what a voyage handles: the lists of a planner have an entry for each.
#[derive(Clone, Copy)]
pub struct Sizes {
    pub stacks: u32,
    /// Hatch covers.
    pub covers: u32,
    pub kinds: u32,
    pub places: u32,
    /// Places of all lots.
    pub stays: u32,
    /// The last call.
    pub calls: u32,
}
