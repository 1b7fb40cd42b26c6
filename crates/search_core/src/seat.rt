//! One worker.
ghost use Rattle.std.specs.Prelude.{◌≡◌, ℕ, ◌+◌, ◌<◌, ◌≤◌, ◌↔◌, false, true, IsTrue, IfOk, IfSome, OnOk, OnErr, List, [], ◌∷◌, ◌++◌, Some, None, length};
ghost use Rattle.search_core.specs.Machine.{idle, Worker};
ghost use Rattle.search_core.specs.declared.node_keys.NodeKey.{NodeKey};
ghost use Rattle.search_core.specs.declared.node_keys.NodeKey.TheVariants.{Root};
ghost use Rattle.search_core.specs.Rooms.{Roomy};

use crate::children::Children;
use crate::node_keys::NodeKey;
use std::alloc::Global;
use std::collections::VecDeque;
use std::marker::Model;
use stow_data::NoMemory;

/// What one worker has: the nodes that wait, the node in its hand, children that aren't pushed yet, the value that it saw, and whether the node in hand has a ticket.
#[derive(Drop)]
pub struct Seat {
    deque: VecDeque<NodeKey>,
    hand: Option<NodeKey>,
    made: Children,
    seen: Option<u64>,
    ticket: bool,
}

impl Model for Seat {
    ghost use Rattle.std.specs.Prelude.{ℕ, ◌-◌};
    ghost use Rattle.search_core.specs.Rooms.{Roomy, Emptied};
    ghost use Rattle.std.specs.VecDeque.{deque_len, deque_capacity};

    ghost Value = { Roomy };

    ghost view = { λ s. record { worker = record { deque = s.deque.items; hand = s.hand; made = s.made; seen = s.seen; ticket = s.ticket }; room = deque_capacity s.deque - deque_len s.deque } };

    ghost invariant = { λ s. Emptied s.hand s.made };
}

impl Seat {
    /// A worker that has nothing. It takes no memory.
    pub fn idle(alloc: Global) -> Seat
        ensures { result.worker ≡ idle }
    {
        Seat {
            deque: VecDeque::new(alloc),
            hand: None,
            made: Children::none(),
            seen: None,
            ticket: false,
        }
    }

    /// A worker that has the root in its deque.
    pub fn with_root(alloc: Global) -> Result<Seat, NoMemory>
        ensures { IfOk result (λ seat. seat.worker ≡ record { deque = Root ∷ []; hand = None; made = []; seen = None; ticket = false }) }
    {
        let mut seat = Seat::idle(alloc);
        seat.deque.push_back(NodeKey::Root)?;
        Ok(seat)
    }

    /// Makes room for so many more nodes.
    pub fn reserve(&mut self, nodes: usize) -> Result<(), NoMemory>
        ensures worker { self.new.worker ≡ self.old.worker }
        ensures room { OnOk result (nodes ≤ self.new.room) }
        ensures kept { self.old.room ≤ self.new.room }
    {
        self.deque.reserve(nodes)?;
        Ok(())
    }

    /// Whether the hand is empty and no child waits to be pushed.
    pub fn may_take(&self) -> bool
        ensures { IsTrue result ↔ ((self.now.worker.hand ≡ None) × (self.now.worker.made ≡ [])) }
    {
        self.hand.is_none() && self.made.is_empty()
    }

    /// How many nodes wait in the deque.
    pub fn waiting(&self) -> usize
        ensures { result ≡ length self.now.worker.deque }
    {
        self.deque.len()
    }

    /// The node in the hand.
    pub fn hand(&self) -> Option<NodeKey>
        ensures hand { result ≡ self.now.worker.hand }
        ensures pushed { IfSome result (λ _. self.now.worker.made ≡ []) }
    {
        self.hand
    }

    /// The value that it saw last.
    pub fn seen(&self) -> Option<u64>
        ensures { result ≡ self.now.worker.seen }
    {
        self.seen
    }

    /// Whether the node in hand has a ticket.
    pub fn has_ticket(&self) -> bool
        ensures { result ≡ self.now.worker.ticket }
    {
        self.ticket
    }

    /// Takes the last node of the deque into the hand.
    pub fn pop(&mut self)
        requires waits { 0 < length self.old.worker.deque }
        requires free { self.old.worker.made ≡ [] }
        ensures worker { (n : NodeKey) × (rest : List NodeKey) × (self.old.worker.deque ≡ rest ++ n ∷ []) × (self.new.worker ≡ record self.old.worker { deque = rest; hand = Some n }) }
        ensures room { self.old.room ≤ self.new.room }
    {
        self.hand = self.deque.pop_back();
    }

    /// Gives the first node of the deque away.
    pub fn give(&mut self) -> Option<NodeKey>
        requires waits { 0 < length self.old.worker.deque }
        ensures worker { (n : NodeKey) × (rest : List NodeKey) × (result ≡ Some n) × (self.old.worker.deque ≡ n ∷ rest) × (self.new.worker ≡ record self.old.worker { deque = rest }) }
        ensures room { self.old.room ≤ self.new.room }
    {
        self.deque.pop_front()
    }

    /// Has this in its hand from now on.
    pub fn take(&mut self, node: Option<NodeKey>)
        requires free { self.old.worker.made ≡ [] }
        ensures worker { self.new.worker ≡ record self.old.worker { hand = node } }
        ensures room { self.new.room ≡ self.old.room }
    {
        self.hand = node;
    }

    /// Sees a value.
    pub fn see(&mut self, value: u64)
        ensures worker { self.new.worker ≡ record self.old.worker { seen = Some value } }
        ensures room { self.new.room ≡ self.old.room }
    {
        self.seen = Some(value);
    }

    /// How many children wait to be pushed.
    pub fn unpushed(&self) -> usize
        ensures { result ≡ length self.now.worker.made }
    {
        self.made.len()
    }

    /// Pushes the first child that waits.
    pub fn push(&mut self)
        requires child { 0 < length self.old.worker.made }
        requires room { 0 < self.old.room }
        ensures worker { (n : NodeKey) × (rest : List NodeKey) × (self.old.worker.made ≡ n ∷ rest) × (self.new.worker ≡ record self.old.worker { made = rest; deque = self.old.worker.deque ++ n ∷ [] }) }
        ensures room { self.old.room ≤ self.new.room + 1 }
    {
        if let Some(child) = self.made.take() {
            self.deque.push_back_reserved(child);
        }
    }

    /// Has a ticket for the node in hand.
    pub fn ticket(&mut self)
        ensures worker { self.new.worker ≡ record self.old.worker { ticket = true } }
        ensures room { self.new.room ≡ self.old.room }
    {
        self.ticket = true;
    }

    /// Lets the node in hand go, which has no ticket.
    pub fn leave(&mut self)
        ensures worker { self.new.worker ≡ record self.old.worker { hand = None } }
        ensures room { self.new.room ≡ self.old.room }
    {
        self.hand = None;
    }

    /// Ends the node in hand.
    pub fn end(&mut self)
        ensures worker { self.new.worker ≡ record self.old.worker { hand = None; ticket = false } }
        ensures room { self.new.room ≡ self.old.room }
    {
        self.hand = None;
        self.ticket = false;
    }

    /// Ends the node in hand, and has two children to push.
    pub fn divide(&mut self, first: NodeKey, second: NodeKey)
        ensures worker { self.new.worker ≡ record self.old.worker { hand = None; ticket = false; made = first ∷ second ∷ [] } }
        ensures room { self.new.room ≡ self.old.room }
    {
        self.hand = None;
        self.ticket = false;
        self.made = Children::both(first, second);
    }
}
