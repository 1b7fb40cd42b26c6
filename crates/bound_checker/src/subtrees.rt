//! Subtrees of which no node was left open.
ghost use Rattle.std.specs.Prelude.{◌≡◌, ◌<◌, ◌≤◌, ◌^◌, IfOk, IfSome, length};
ghost use Rattle.bound_checker.specs.Subtrees.{AreSizes, IsSubtree};

use certificate::{End, Record};
use std::alloc::Global;
use stow_data::NoMemory;

/// How many records the subtree at a place has. None where one of its nodes was left open, or none is known to begin there.
pub fn known_size(tree: &[Record], sizes: &[Option<usize>], place: usize) -> Option<usize>
    requires { AreSizes tree.now sizes.now }
    ensures size { IfSome result (IsSubtree tree.now place) }
    ensures within { IfSome result (λ size. size ≤ length tree.now) }
    ensures some { IfSome result (λ size. 0 < size) }
{
    *sizes.get(place)?
}

// The same by the record at the place, where the sizes behind it are known.
fn size_at(tree: &[Record], sizes: &[Option<usize>], place: usize) -> Option<usize>
    requires place { place < length tree.now }
    requires few { length tree.now < 2 ^ 32 }
    requires sizes { AreSizes tree.now sizes.now }
    ensures { IfSome result (IsSubtree tree.now place) }
{
    match tree[place].end {
        End::Leaf => Some(1),
        End::Left => None,
        End::Branch(_) => {
            let first = known_size(tree, sizes, place + 1)?;
            let second = known_size(tree, sizes, place + 1 + first)?;
            Some(1 + first + second)
        }
    }
}

/// How many records the subtree at each place has, from the last place to the first. None where one of its nodes was left open.
pub fn sizes_of(alloc: Global, tree: &[Record]) -> Result<Vec<Option<usize>>, NoMemory>
    requires { length tree.now < 2 ^ 32 }
    ensures { IfOk result (λ sizes. AreSizes tree.now sizes.items) }
{
    let mut sizes = Vec::from_elem(alloc, None, tree.len())?;
    for place in (0..tree.len()).rev() {
        let size = size_at(tree, sizes.as_slice(), place);
        sizes[place] = size;
    }
    Ok(sizes)
}
