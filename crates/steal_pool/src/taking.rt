//! Where a worker gets nodes, and where it puts them.
ghost use Rattle.std.specs.Prelude.{◌≡◌, ℕ, ◌+◌, ◌<◌, [], IfOk, OnOk, IfSome, IfNone, length};
ghost use Rattle.certificate.specs.declared.nodes.Node.{Node};
ghost use Rattle.search_core.specs.Bags.{weigh, Every};
ghost use Rattle.shared_search.specs.Racks.{IsPassAt, puts_of, room_at, took_weight, put_weight};
ghost use Rattle.steal_pool.specs.Deeds.{EachHalf, halves_weight};
ghost use Rattle.steal_pool.specs.Rising.{AllRose, OthersRose, NoneFell};

use crate::deeds::Halves;
use certificate::Node;
use shared_search::{Pass, Rack, Wanted};
use stow_data::NoMemory;

// A node stolen from any other worker, the next one first.
fn steal_any<M: Wanted>(rack: &Rack<M>, pass: &mut Pass<M>) -> Option<Node>
    requires pass { IsPassAt rack.now pass.old }
    ensures pass { IsPassAt rack.now pass.new }
    ensures number { pass.new.number ≡ pass.old.number }
    ensures put { puts_of pass.new ≡ puts_of pass.old }
    ensures took { IfSome result (λ x. M.meets x × ((h : Node → ℕ) → took_weight h pass.new ≡ took_weight h pass.old + h x)) }
    ensures none { IfNone result ((h : Node → ℕ) → took_weight h pass.new ≡ took_weight h pass.old) }
    ensures rose { IfNone result (OthersRose pass.old pass.new × NoneFell pass.old pass.new) }
{
    let workers = rack.thieves.len();
    for step in 1..workers {
        let victim = (pass.number + step) % workers;
        if let Some(node) = rack.steal(pass, victim) {
            return Some(node);
        }
    }
    None
}

/// A node from those aside, else from the worker's own deque, else from another worker.
pub fn get<M: Wanted>(rack: &Rack<M>, pass: &mut Pass<M>, aside: &mut Vec<Node>) -> Option<Node>
    requires pass { IsPassAt rack.now pass.old }
    requires aside { Every M.meets aside.old.items }
    ensures pass { IsPassAt rack.now pass.new }
    ensures number { pass.new.number ≡ pass.old.number }
    ensures aside { Every M.meets aside.new.items }
    ensures put { puts_of pass.new ≡ puts_of pass.old }
    ensures took { IfSome result (λ x. M.meets x × ((h : Node → ℕ) → took_weight h pass.new + weigh h aside.old.items ≡ took_weight h pass.old + weigh h aside.new.items + h x)) }
    ensures empty { aside.old.items ≡ [] → aside.new.items ≡ [] }
    ensures rose { IfNone result (AllRose pass.old pass.new) }
    ensures none { IfNone result ((aside.old.items ≡ []) × (aside.new.items ≡ []) × ((h : Node → ℕ) → took_weight h pass.new ≡ took_weight h pass.old)) }
{
    if let Some(node) = aside.pop() {
        return Some(node);
    }
    if let Some(node) = rack.take(pass) {
        return Some(node);
    }
    steal_any(rack, pass)
}

/// Puts a node on the worker's own deque, or aside where the deque refuses it.
pub fn lay<M: Wanted>(
    rack: &Rack<M>,
    pass: &mut Pass<M>,
    aside: &mut Vec<Node>,
    node: Node,
) -> Result<(), NoMemory>
    requires pass { IsPassAt rack.now pass.old }
    requires aside { Every M.meets aside.old.items }
    requires node { M.meets node }
    ensures pass { IsPassAt rack.now pass.new }
    ensures number { pass.new.number ≡ pass.old.number }
    ensures aside { OnOk result (Every M.meets aside.new.items) }
    ensures took { (h : Node → ℕ) → took_weight h pass.new ≡ took_weight h pass.old }
    ensures bag { OnOk result ((h : Node → ℕ) → put_weight h pass.new + weigh h aside.new.items ≡ put_weight h pass.old + weigh h aside.old.items + h node) }
    ensures within { OnOk result (length (puts_of pass.new) < room_at rack.now → (aside.new.items ≡ aside.old.items) × (length (puts_of pass.old) < room_at rack.now)) }
{
    match rack.put(pass, node) {
        Ok(()) => Ok(()),
        Err(node) => {
            aside.push(node)?;
            Ok(())
        }
    }
}

// Puts both halves of a node, that of value 0 first, so that the worker goes on with that of value 1.
fn lay_both<M: Wanted>(
    rack: &Rack<M>,
    pass: &mut Pass<M>,
    aside: &mut Vec<Node>,
    halves: Halves,
) -> Result<(), NoMemory>
    requires pass { IsPassAt rack.now pass.old }
    requires aside { Every M.meets aside.old.items }
    requires halves { M.meets halves.zero × M.meets halves.one }
    ensures pass { IsPassAt rack.now pass.new }
    ensures number { pass.new.number ≡ pass.old.number }
    ensures aside { OnOk result (Every M.meets aside.new.items) }
    ensures took { (h : Node → ℕ) → took_weight h pass.new ≡ took_weight h pass.old }
    ensures bag { OnOk result ((h : Node → ℕ) → put_weight h pass.new + weigh h aside.new.items ≡ put_weight h pass.old + weigh h aside.old.items + (h halves.zero + h halves.one)) }
    ensures within { OnOk result (length (puts_of pass.new) < room_at rack.now → (aside.new.items ≡ aside.old.items) × (length (puts_of pass.old) < room_at rack.now)) }
{
    let Halves { zero, one } = halves;
    lay(rack, pass, aside, zero)?;
    lay(rack, pass, aside, one)
}

/// Puts the halves of a node that was divided.
pub fn lay_halves<M: Wanted>(
    rack: &Rack<M>,
    pass: &mut Pass<M>,
    aside: &mut Vec<Node>,
    halves: Option<Halves>,
) -> Result<(), NoMemory>
    requires pass { IsPassAt rack.now pass.old }
    requires aside { Every M.meets aside.old.items }
    requires halves { EachHalf M.meets halves }
    ensures pass { IsPassAt rack.now pass.new }
    ensures number { pass.new.number ≡ pass.old.number }
    ensures aside { OnOk result (Every M.meets aside.new.items) }
    ensures took { (h : Node → ℕ) → took_weight h pass.new ≡ took_weight h pass.old }
    ensures bag { OnOk result ((h : Node → ℕ) → put_weight h pass.new + weigh h aside.new.items ≡ put_weight h pass.old + weigh h aside.old.items + halves_weight h halves) }
    ensures within { OnOk result (length (puts_of pass.new) < room_at rack.now → (aside.new.items ≡ aside.old.items) × (length (puts_of pass.old) < room_at rack.now)) }
{
    match halves {
        Some(halves) => lay_both(rack, pass, aside, halves),
        None => Ok(()),
    }
}
