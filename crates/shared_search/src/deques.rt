//! A deque whose nodes are put and taken under one rule.

ghost use Rattle.std.specs.Prelude.{◌≡◌, ℕ, ◌+◌, ◌-◌, ◌<◌, ◌⊎◌, ◌≤◌, ◌^◌, ◌++◌, ◌∷◌, [], length, All, IfOk, IfErr, IfSome, IfNone, OnOk, OnErr};
ghost use Rattle.crossbeam_deque.specs.Handles.{view, IsPassOf, SamePass, taken, worker_deque, worker_flavor, worker_view, worker_capacity, worker_index, SameWorker, stealer_deque, stealer_flavor};
ghost use Rattle.search_core.specs.Bags.{weigh, Every};
ghost use Rattle.shared_search.specs.Bags.{hand, Found};
ghost use Rattle.certificate.specs.declared.nodes.Node.{Node};

use crate::rule::{Cut, Fair, Hand, Note, Pops, Puts, Takes, Total, Wanted};
use certificate::Node;
use crossbeam_deque::{Pass, Steal, Stealer, Worker};
use std::alloc::Global;
use stow_data::NoMemory;

pub type Deque<M> = Worker<Node, Global, Hand, Fair<M>>;

pub type Thief<M> = Stealer<Node, Global, Hand, Fair<M>>;

pub type Token = Pass<Node, Hand>;

/// Adds the node at the back.
pub fn put<M: Wanted>(own: &mut Deque<M>, node: Node) -> Result<(), Node>
    requires part { 0 < (worker_view own.old).parts }
    requires node { M.meets node }
    ensures same { SameWorker own.old own.new }
    ensures put { OnOk result ((worker_view own.new ≡ hand (worker_view own.old).parts ((worker_view own.old).put ++ node ∷ []) (worker_view own.old).took) × (worker_index own.new ≡ worker_index own.old + 1)) }
    ensures back { IfErr result (λ x. (x ≡ node) × (worker_view own.new ≡ worker_view own.old) × (worker_index own.new ≡ worker_index own.old)) }
    ensures room { IfErr result (λ _. worker_capacity own.old ≤ worker_index own.old) }
{
    own.push_as::<Puts>(node)
}

/// Takes the last node.
pub fn take<M: Wanted>(own: &mut Deque<M>) -> Option<Node>
    requires part { 0 < (worker_view own.old).parts }
    requires lifo { worker_flavor own.old ≡ 1 }
    ensures same { SameWorker own.old own.new × (worker_index own.new ≤ worker_index own.old) }
    ensures took { IfSome result (λ x. (worker_view own.new ≡ hand (worker_view own.old).parts (worker_view own.old).put ((worker_view own.old).took ++ x ∷ [])) × M.meets x) }
    ensures none { IfNone result ((worker_view own.new ≡ worker_view own.old) × Found M.meets 0 (worker_view own.old)) }
{
    own.pop_as::<Pops<M>>()
}

/// Takes the first node.
pub fn steal<M: Wanted>(thief: &Thief<M>, token: &mut Token) -> Option<Node>
    requires table { IsPassOf (stealer_deque thief.now) token.old }
    requires part { 0 < (view token.old).parts }
    requires lifo { stealer_flavor thief.now ≡ 1 }
    ensures same { SamePass token.old token.new }
    ensures parts { ((view token.new).parts ≡ (view token.old).parts) × ((view token.new).put ≡ (view token.old).put) }
    ensures took { IfSome result (λ x. (view token.new ≡ hand (view token.old).parts (view token.old).put ((view token.old).took ++ x ∷ [])) × M.meets x) }
    ensures none { IfNone result ((view token.new ≡ view token.old) × (Found M.meets 1 (view token.old) ⊎ (taken token.old + 18446744073709551615 ≤ taken token.new))) }
{
    for tries in 0..u64::MAX {
        match thief.steal_as::<Takes<M>>(token) {
            Steal::Success(node) => return Some(node),
            Steal::Empty => return None,
            Steal::Retry => {}
        }
    }
    None
}

/// An empty deque whose first `room` puts succeed.
pub fn deque<M: Wanted>(alloc: Global, room: usize) -> Result<Deque<M>, NoMemory>
    ensures { IfOk result (λ w. (worker_flavor w ≡ 1) × (worker_view w ≡ hand 1024 [] []) × (worker_index w ≡ 0) × (room ≤ worker_capacity w)) }
{
    Ok(Deque::lifo_as(alloc, room)?)
}

/// A pass for a thief.
pub fn token<M: Wanted>(own: &mut Deque<M>) -> Token
    requires { 1 < (worker_view own.old).parts }
    ensures same { SameWorker own.old own.new × (worker_index own.new ≡ worker_index own.old) × IsPassOf (worker_deque own.old) result }
    ensures rule { (worker_view own.new ≡ hand ((worker_view own.old).parts - 1) (worker_view own.old).put (worker_view own.old).took) × (view result ≡ hand 1 [] []) }
{
    own.another::<Cut>()
}

/// A copy of what the deque's own pass knows. It has no part.
pub fn note<M: Wanted>(own: &mut Deque<M>) -> Token
    ensures same { SameWorker own.old own.new × (worker_index own.new ≡ worker_index own.old) }
    ensures view { worker_view own.new ≡ worker_view own.old }
    ensures note { view result ≡ hand 0 (worker_view own.old).put (worker_view own.old).took }
{
    own.another::<Note>()
}

pub fn give_back<M: Wanted>(own: &mut Deque<M>, token: Token)
    requires table { IsPassOf (worker_deque own.old) token }
    requires part { 0 < (worker_view own.old).parts }
    requires more { 0 < (view token).parts }
    ensures same { SameWorker own.old own.new × (worker_index own.new ≡ worker_index own.old) }
    ensures rule { worker_view own.new ≡ hand ((worker_view own.old).parts + (view token).parts) ((worker_view own.old).put ++ (view token).put) ((worker_view own.old).took ++ (view token).took) }
{
    own.absorb::<Cut>(token)
}

/// What the deque still holds.
pub fn rest<M: Wanted>(alloc: Global, mut own: Deque<M>) -> Result<Vec<Node>, NoMemory>
    requires all { (worker_view own).parts ≡ 1024 }
    requires lifo { worker_flavor own ≡ 1 }
    ensures bag { IfOk result (λ rest. (h : Node → ℕ) → weigh h (worker_view own).put ≡ weigh h (worker_view own).took + weigh h rest.items) }
    ensures meets { IfOk result (λ rest. Every M.meets rest.items) }
{
    let mut rest = Vec::new(alloc);
    let count = own.len_as::<Total>();
    for k in 0..count {
        match take(&mut own) {
            Some(node) => rest.push(node)?,
            None => return Ok(rest),
        }
    }
    own.len_as::<Total>();
    Ok(rest)
}
