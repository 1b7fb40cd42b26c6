//! The check of a tree.
ghost use Rattle.std.specs.Prelude.{◌≡◌, ◌≢◌, ℕ, Bool, [], ◌∷◌, OnOk, IfOk, IfErr, None, Some, ◌+◌, pos, ◌≤ℤ◌, ◌<◌, ◌≤◌, ◌^◌, length};
ghost use Rattle.proof_trees.specs.Program.{cost_of};
ghost use Rattle.proof_trees.specs.Trees.{root};
ghost use Rattle.zero_one_rows.specs.Rows.{base, whole, IsSolution, CrossingRowsHold};
ghost use Rattle.bound_checker.specs.Entries.{ProvesBound, IsBestBound};
ghost use Rattle.bound_checker.specs.Faults.{first_fault};
ghost use Rattle.bound_checker.specs.Walks.{IsAt, Narrows};

use crate::walk::{Bounds, Walk};
use certificate::{BoundNo, Tree};
use std::alloc::Global;
use zero_one_model::Model;

// Takes the records of a tree, from the root on.
fn take_all(
    alloc: Global,
    model: &Model,
    walk: &mut Walk,
    tree: &Tree,
    bounds: Bounds,
) -> Result<u64, BoundNo>
    requires few { length tree.now < 2 ^ 32 }
    requires order { bounds.low ≤ bounds.high }
    requires root { IsAt model.now walk.old (root (whole model.now) ∷ []) }
    ensures best { IfOk result (λ best. Narrows bounds.low bounds.high best (λ bound. first_fault model.now tree.now bound ≡ None) (λ bound. first_fault model.now tree.now bound ≢ None)) }
    ensures refused { IfErr result (λ fault. fault ≢ BoundNo.NoMemory → first_fault model.now tree.now bounds.low ≡ Some fault) }
{
    let mut best = bounds.high;
    let mut node: u32 = 0;
    for entry in tree.as_slice() {
        node += 1;
        let left = Bounds {
            low: bounds.low,
            high: best,
        };
        best = walk.take(alloc, model, entry, left, node)?;
    }
    if !walk.done {
        return Err(BoundNo::TreeEnds);
    }
    Ok(best)
}

// The greatest bound up to the high one that a tree proves, where it proves the low one; or its first fault at that.
fn walk_tree(alloc: Global, model: &Model, tree: &Tree, bounds: Bounds) -> Result<u64, BoundNo>
    requires few { length tree.now < 2 ^ 32 }
    requires order { bounds.low ≤ bounds.high }
    ensures best { IfOk result (λ best. Narrows bounds.low bounds.high best (λ bound. first_fault model.now tree.now bound ≡ None) (λ bound. first_fault model.now tree.now bound ≢ None)) }
    ensures refused { IfErr result (λ fault. fault ≢ BoundNo.NoMemory → first_fault model.now tree.now bounds.low ≡ Some fault) }
{
    let mut walk = Walk::start(alloc, model)?;
    let best = take_all(alloc, model, &mut walk, tree, bounds);
    drop(walk);
    best
}

/// Whether a tree proves a bound over the program's rows. Each refusal but want of memory names the first fault in preorder; within a record its steps come first, then its raises in order, then its end. Every solution costs at least a proved bound, where solutions meet the crossing rows.
pub fn check_bound(alloc: Global, model: &Model, tree: &Tree, bound: u64) -> Result<(), BoundNo>
    requires few { length tree.now < 2 ^ 32 }
    ensures proves { OnOk result (ProvesBound model.now tree.now bound) }
    ensures costs { OnOk result (CrossingRowsHold model.now → (x : ℕ → Bool) → IsSolution model.now x → pos bound ≤ℤ cost_of (base model.now) x) }
    ensures refused { IfErr result (λ fault. fault ≢ BoundNo.NoMemory → first_fault model.now tree.now bound ≡ Some fault) }
    ensures short { IfErr result (λ fault. fault ≢ BoundNo.NoMemory → ProvesBound model.now tree.now bound → ⊥) }
{
    let bounds = Bounds {
        low: bound,
        high: bound,
    };
    walk_tree(alloc, model, tree, bounds)?;
    Ok(())
}

/// The greatest number up to `most` that a tree proves. Exactly where it doesn't prove 0 it is refused, with the first fault that it has at bound 0. Every solution costs at least what is answered, where solutions meet the crossing rows. It takes one walk over the tree.
pub fn best_bound(alloc: Global, model: &Model, tree: &Tree, most: u64) -> Result<u64, BoundNo>
    requires few { length tree.now < 2 ^ 32 }
    ensures best { IfOk result (λ best. IsBestBound model.now tree.now most best) }
    ensures costs { IfOk result (λ best. CrossingRowsHold model.now → (x : ℕ → Bool) → IsSolution model.now x → pos best ≤ℤ cost_of (base model.now) x) }
    ensures refused { IfErr result (λ fault. fault ≢ BoundNo.NoMemory → first_fault model.now tree.now 0 ≡ Some fault) }
    ensures short { IfErr result (λ fault. fault ≢ BoundNo.NoMemory → ProvesBound model.now tree.now 0 → ⊥) }
{
    let bounds = Bounds { low: 0, high: most };
    walk_tree(alloc, model, tree, bounds)
}
