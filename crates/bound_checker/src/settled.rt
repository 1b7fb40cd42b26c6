//! The greatest bound that a settled tree proves.
ghost use Rattle.std.specs.Prelude.{◌≡◌, ◌≢◌, ◌<◌, ◌≤◌, ◌≤ℤ◌, ◌+◌, ◌^◌, ℕ, Bool, IfOk, IfErr, pos, length};
ghost use Rattle.proof_trees.specs.Program.{cost_of};
ghost use Rattle.zero_one_rows.specs.Rows.{base, IsSolution, CrossingRowsHold};
ghost use Rattle.bound_checker.specs.Entries.{ProvesBound, SettlesBound, IsBestBound};
ghost use Rattle.bound_checker.specs.Subtrees.{AreSizes, Stays};
ghost use Rattle.bound_checker.specs.Walks.{IsSomewhere};

use crate::subtrees::{known_size, sizes_of};
use crate::walk::{Bounds, Walk};
use certificate::{BoundNo, Record, Tree};
use std::alloc::Global;
use stow_data::NoMemory;
use zero_one_model::Model;

// Where a walk stands, and the greatest bound that no box refutes so far.
#[derive(Clone, Copy)]
struct Standing {
    place: usize,
    best: u64,
}

// Takes the record at a place.
fn take_at(
    alloc: Global,
    model: &Model,
    walk: &mut Walk,
    tree: &[Record],
    at: Standing,
) -> Result<u64, BoundNo>
    requires place { at.place < length tree.now }
    requires few { length tree.now < 2 ^ 32 }
    requires at { IsSomewhere model.now walk.old }
    ensures best { (most : ℕ) → Stays model.now most tree.now at.place at.best walk.old → IfOk result (λ best. Stays model.now most tree.now (at.place + 1) best walk.new) }
    ensures refused { (most : ℕ) → Stays model.now most tree.now at.place at.best walk.old → ProvesBound model.now tree.now 0 → IfErr result (λ fault. fault ≢ BoundNo.NoMemory → ⊥) }
{
    let bounds = Bounds {
        low: 0,
        high: at.best,
    };
    walk.take(alloc, model, &tree[at.place], bounds, at.place as u32 + 1)
}

// Takes the record at a place, or passes by its subtree, where no node of that was left open.
fn go_on(
    alloc: Global,
    model: &Model,
    walk: &mut Walk,
    tree: &[Record],
    sizes: &[Option<usize>],
    at: Standing,
) -> Result<Standing, BoundNo>
    requires place { at.place < length tree.now }
    requires few { length tree.now < 2 ^ 32 }
    requires sizes { AreSizes tree.now sizes.now }
    requires stays { (most : ℕ) × Stays model.now most tree.now at.place at.best walk.old }
    ensures best { (most : ℕ) → Stays model.now most tree.now at.place at.best walk.old → IfOk result (λ next. Stays model.now most tree.now next.place next.best walk.new) }
    ensures further { IfOk result (λ next. at.place < next.place) }
    ensures refused { (most : ℕ) → Stays model.now most tree.now at.place at.best walk.old → ProvesBound model.now tree.now 0 → IfErr result (λ fault. fault ≢ BoundNo.NoMemory → ⊥) }
{
    let Some(size) = known_size(tree, sizes, at.place) else {
        let best = take_at(alloc, model, walk, tree, at)?;
        return Ok(Standing {
            place: at.place + 1,
            best,
        });
    };
    walk.leave(alloc, model)?;
    Ok(Standing {
        place: at.place + size,
        best: at.best,
    })
}

// Goes through the records of a tree.
fn go_through(
    alloc: Global,
    model: &Model,
    walk: &mut Walk,
    tree: &[Record],
    sizes: &[Option<usize>],
    most: u64,
) -> Result<u64, BoundNo>
    requires few { length tree.now < 2 ^ 32 }
    requires sizes { AreSizes tree.now sizes.now }
    requires begins { Stays model.now most tree.now 0 most walk.old }
    requires proves { ProvesBound model.now tree.now 0 }
    ensures best { IfOk result (IsBestBound model.now tree.now most) }
    ensures refused { IfErr result (λ fault. fault ≢ BoundNo.NoMemory → ⊥) }
{
    let mut at = Standing {
        place: 0,
        best: most,
    };
    while at.place < tree.len() {
        at = go_on(alloc, model, walk, tree, sizes, at)?;
    }
    Ok(at.best)
}

// The same from the root on.
fn walk_settled(
    alloc: Global,
    model: &Model,
    tree: &[Record],
    sizes: &[Option<usize>],
    most: u64,
) -> Result<u64, BoundNo>
    requires few { length tree.now < 2 ^ 32 }
    requires sizes { AreSizes tree.now sizes.now }
    requires settled { SettlesBound model.now tree.now most }
    requires proves { ProvesBound model.now tree.now 0 }
    ensures best { IfOk result (IsBestBound model.now tree.now most) }
    ensures refused { IfErr result (λ fault. fault ≢ BoundNo.NoMemory → ⊥) }
{
    let mut walk = Walk::start(alloc, model)?;
    let best = go_through(alloc, model, &mut walk, tree, sizes, most);
    drop(walk);
    best
}

/// The greatest number up to `most` that a tree proves, where it proves that number but for nodes that were left open. Every solution costs at least what is answered, where solutions meet the crossing rows.
///
/// It takes the records above nodes that were left open, and passes the other subtrees by: so a tree of which nearly all nodes were closed takes the time of reading it once.
pub fn settled_bound(alloc: Global, model: &Model, tree: &Tree, most: u64) -> Result<u64, NoMemory>
    requires few { length tree.now < 2 ^ 32 }
    requires settled { SettlesBound model.now tree.now most }
    requires proves { ProvesBound model.now tree.now 0 }
    ensures best { IfOk result (IsBestBound model.now tree.now most) }
    ensures costs { IfOk result (λ best. CrossingRowsHold model.now → (x : ℕ → Bool) → IsSolution model.now x → pos best ≤ℤ cost_of (base model.now) x) }
{
    let sizes = sizes_of(alloc, tree.as_slice())?;
    match walk_settled(alloc, model, tree.as_slice(), sizes.as_slice(), most) {
        Ok(best) => Ok(best),
        Err(BoundNo::NoMemory) => Err(NoMemory),
        Err(_) => unreachable!(),
    }
}
