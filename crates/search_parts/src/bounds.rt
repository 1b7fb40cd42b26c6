//! What records prove.
use bound_checker::best_bound;
use box_parts::write_count;
use certificate::{BoundNo, Tree};
use std::alloc::Global;
use stow_data::{Bytes, NoMemory};
use zero_one_model::Model;

/// The greatest bound up to this one that a tree proves, where it proves any.
pub fn write_best(
    alloc: Global,
    model: &Model,
    tree: &Tree,
    most: u64,
    out: &mut Bytes,
) -> Result<(), NoMemory> {
    if tree.len() >= 1 << 32 {
        return out.extend(b"too long\n");
    }
    match best_bound(alloc, model, tree, most) {
        Ok(best) => write_count(out, b"best", best),
        Err(BoundNo::NoMemory) => Err(NoMemory),
        Err(_) => out.extend(b"proves none\n"),
    }
}
