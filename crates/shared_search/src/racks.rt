//! One deque for each worker.
ghost use Rattle.std.specs.Prelude.{◌≡◌, ℕ, ◌+◌, ◌<◌, ◌≤◌, ◌⊎◌, ◌∷◌, ◌++◌, [], length, IfOk, IfSome, IfNone, IfErr, OnOk};
ghost use Rattle.std.specs.Prelude.{slice_index_or};
ghost use Rattle.crossbeam_deque.specs.Handles.{view, taken, worker_view, worker_capacity, worker_index};
ghost use Rattle.shared_search.specs.Bags.{hand, Found};
ghost use Rattle.shared_search.specs.Misses.{one_more};
ghost use Rattle.shared_search.specs.Racks.{IsPassAt, misses_of, puts_of, room_at, took_weight, FoundEmpty, FoundFew};
ghost use Rattle.certificate.specs.declared.nodes.Node.{Node};

use crate::deques::{Deque, Thief, Token, put, steal, take};
use crate::rule::Wanted;
use certificate::Node;

/// A deque for each worker, as thieves see them. `M` says what each node meets that is put.
#[derive(Drop)]
pub struct Rack<M: Wanted> {
    pub thieves: Vec<Thief<M>>,
    // How many puts of a pass at least aren't refused.
    pub(crate) room: usize,
}

/// What one worker holds of a rack: its own deque, its number, and for each deque its part of the right to know it whole.
#[derive(Drop)]
pub struct Pass<M: Wanted> {
    pub own: Deque<M>,
    pub number: usize,
    pub tokens: Vec<Token>,
    // For each deque, how often it was found with nothing to take; the greatest u64 stands for itself and more.
    pub(crate) misses: Vec<u64>,
}

// Counts one more find of nothing at this deque.
fn miss(misses: &mut Vec<u64>, deque: usize)
    requires { deque < length misses.old.items }
    ensures { misses.new.items ≡ one_more deque misses.old.items }
{
    misses[deque] = misses[deque].saturating_add(1);
}

impl<M: Wanted> Rack<M> {
    /// Puts a node at the back of the worker's own deque. The node comes back where the deque is full.
    pub fn put(&self, pass: &mut Pass<M>, node: Node) -> Result<(), Node>
        requires pass { IsPassAt self.now pass.old }
        requires node { M.meets node }
        ensures pass { IsPassAt self.now pass.new }
        ensures number { pass.new.number ≡ pass.old.number }
        ensures put { OnOk result (puts_of pass.new ≡ puts_of pass.old ++ node ∷ []) }
        ensures back { IfErr result (λ x. (x ≡ node) × (puts_of pass.new ≡ puts_of pass.old) × (room_at self.now ≤ length (puts_of pass.old))) }
        ensures misses { misses_of pass.new ≡ misses_of pass.old }
        ensures took { (h : Node → ℕ) → took_weight h pass.new ≡ took_weight h pass.old }
    {
        put(&mut pass.own, node)
    }

    // Takes the last node of the worker's own deque, and counts nothing.
    fn take_own(&self, pass: &mut Pass<M>) -> Option<Node>
        requires pass { IsPassAt self.now pass.old }
        ensures pass { IsPassAt self.now pass.new }
        ensures number { pass.new.number ≡ pass.old.number }
        ensures put { puts_of pass.new ≡ puts_of pass.old }
        ensures took { IfSome result (λ x. M.meets x × ((h : Node → ℕ) → took_weight h pass.new ≡ took_weight h pass.old + h x)) }
        ensures none { IfNone result (((h : Node → ℕ) → took_weight h pass.new ≡ took_weight h pass.old) × FoundEmpty M.meets pass.old) }
        ensures misses { misses_of pass.new ≡ misses_of pass.old }
    {
        take(&mut pass.own)
    }

    /// Takes the last node of the worker's own deque.
    pub fn take(&self, pass: &mut Pass<M>) -> Option<Node>
        requires pass { IsPassAt self.now pass.old }
        ensures pass { IsPassAt self.now pass.new }
        ensures number { pass.new.number ≡ pass.old.number }
        ensures put { puts_of pass.new ≡ puts_of pass.old }
        ensures took { IfSome result (λ x. M.meets x × ((h : Node → ℕ) → took_weight h pass.new ≡ took_weight h pass.old + h x)) }
        ensures none { IfNone result ((h : Node → ℕ) → took_weight h pass.new ≡ took_weight h pass.old) }
        ensures found { IfSome result (λ _. misses_of pass.new ≡ misses_of pass.old) }
        ensures empty { IfNone result ((misses_of pass.new ≡ one_more pass.old.number (misses_of pass.old)) × FoundEmpty M.meets pass.old) }
    {
        match self.take_own(pass) {
            Some(node) => Some(node),
            None => {
                miss(&mut pass.misses, pass.number);
                None
            }
        }
    }

    // Steals the first node of that deque, and counts nothing.
    fn steal_at(&self, pass: &mut Pass<M>, victim: usize) -> Option<Node>
        requires pass { IsPassAt self.now pass.old }
        requires victim { victim < length self.now.thieves.items }
        ensures pass { IsPassAt self.now pass.new }
        ensures number { pass.new.number ≡ pass.old.number }
        ensures put { puts_of pass.new ≡ puts_of pass.old }
        ensures took { IfSome result (λ x. M.meets x × ((h : Node → ℕ) → took_weight h pass.new ≡ took_weight h pass.old + h x)) }
        ensures none { IfNone result ((h : Node → ℕ) → took_weight h pass.new ≡ took_weight h pass.old) }
        ensures few { IfNone result (FoundFew M.meets victim pass.old pass.new) }
        ensures misses { misses_of pass.new ≡ misses_of pass.old }
    {
        steal(&self.thieves[victim], &mut pass.tokens[victim])
    }

    /// Steals the first node of the deque of the worker with this number, counted from 0.
    pub fn steal(&self, pass: &mut Pass<M>, victim: usize) -> Option<Node>
        requires pass { IsPassAt self.now pass.old }
        requires victim { victim < length self.now.thieves.items }
        ensures pass { IsPassAt self.now pass.new }
        ensures number { pass.new.number ≡ pass.old.number }
        ensures put { puts_of pass.new ≡ puts_of pass.old }
        ensures took { IfSome result (λ x. M.meets x × ((h : Node → ℕ) → took_weight h pass.new ≡ took_weight h pass.old + h x)) }
        ensures none { IfNone result ((h : Node → ℕ) → took_weight h pass.new ≡ took_weight h pass.old) }
        ensures found { IfSome result (λ _. misses_of pass.new ≡ misses_of pass.old) }
        ensures few { IfNone result ((misses_of pass.new ≡ one_more victim (misses_of pass.old)) × FoundFew M.meets victim pass.old pass.new) }
    {
        match self.steal_at(pass, victim) {
            Some(node) => Some(node),
            None => {
                miss(&mut pass.misses, victim);
                None
            }
        }
    }
}
