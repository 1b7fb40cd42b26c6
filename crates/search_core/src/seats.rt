//! All workers, and what they share.
ghost use Rattle.std.specs.Prelude.{◌≡◌, ℕ, ◌+◌, ◌<◌, ◌≤◌, IfOk, OnOk, OnErr, IfErr, length, replicate, map, Some, None, true, false, [], ◌∷◌, ◌++◌, IfSome};
ghost use Rattle.search_core.specs.Machine.{idle, begin_with, worker as holder, with_worker, IsWorker, Pushes, Pops, Steals, Loads, Draws, lesser};
ghost use Rattle.search_core.specs.Refusals.{Holding, RefusesPush, RefusesPop, RefusesSteal, RefusesLoad, RefusesDraw};
ghost use Rattle.search_core.specs.declared.node_keys.NodeKey.{NodeKey as Key};
ghost use Rattle.search_core.specs.declared.node_keys.NodeKey.TheVariants.{Root, Half};
ghost use Rattle.search_core.specs.Bags.{Every};
ghost use Rattle.search_core.specs.Rooms.{worker_of, EndsHand, HalvesHand, LacksTicket};

use crate::node_keys::NodeKey;
use crate::records::Done;
use crate::refused::Refused;
use crate::seat::Seat;
use std::alloc::Global;
use std::marker::Model;
use stow_data::NoMemory;

/// The workers of a search with their nodes by key, the best value, the tickets, the nodes that were left and those that were ended.
///
/// Contracts see the state of the search machine over keys, and how many events it takes at least without memory.
#[derive(Drop)]
pub struct Seats<T> {
    seats: Vec<Seat>,
    start: u64,
    budget: u64,
    word: u64,

    /// Tickets within the budget. Those past it are as many as the nodes that were left.
    drawn: u64,
    left: Vec<NodeKey>,
    ended: Vec<Done<T>>,
    spare: usize,
}

impl<T> Model for Seats<T> {
    ghost use Rattle.std.specs.Prelude.{◌+◌, map, length};
    ghost use Rattle.search_core.specs.declared.records.Done.{Done as Ended};
    ghost use Rattle.search_core.specs.Rooms.{Reserved, worker_of, HasRoom};

    ghost Value = { Reserved (Ended T) };

    ghost view = { λ s. record { state = record { workers = map worker_of s.seats.items; start = s.start; budget = s.budget; word = s.word; drawn = s.drawn + length s.left.items; left = s.left.items; ended = s.ended.items }; spare = s.spare } };

    ghost invariant = { λ s. HasRoom s.spare s.seats.items s.drawn s.budget s.left s.ended };
}

/// So many workers that have nothing.
#[tactic(auto, using(crate::proofs::Workers::worker_more))]
fn idle_seats(alloc: Global, count: u32) -> Result<Vec<Seat>, NoMemory>
    ensures { IfOk result (λ v. map worker_of v.items ≡ replicate count idle) }
{
    let mut seats = Vec::new(alloc);
    for _worker in 0..count {
        seats.push(Seat::idle(alloc))?;
    }
    Ok(seats)
}

/// Makes room for so many more nodes in each deque.
fn reserve_all(seats: &mut Vec<Seat>, nodes: usize) -> Result<(), NoMemory>
    ensures workers { map worker_of seats.new.items ≡ map worker_of seats.old.items }
    ensures room { OnOk result (Every (λ s. nodes ≤ s.room) seats.new.items) }
    ensures kept { (n : ℕ) → Every (λ s. n ≤ s.room) seats.old.items → Every (λ s. n ≤ s.room) seats.new.items }
{
    for at in 0..seats.len() {
        seats[at].reserve(nodes)?;
    }
    Ok(())
}

#[tactic(auto)]
impl<T: Drop> Seats<T> {
    /// So many workers, of whom the first has the root in its deque.
    pub fn start(alloc: Global, workers: u32, start: u64, budget: u64) -> Result<Seats<T>, NoMemory>
        requires { 0 < workers }
        ensures state { IfOk result (λ seats. seats.state ≡ begin_with Root workers start budget) }
        ensures none { IfOk result (λ seats. seats.spare ≡ 0) }
    {
        let mut seats = idle_seats(alloc, workers)?;
        seats[0] = Seat::with_root(alloc)?;
        Ok(Seats {
            seats,
            start,
            budget,
            word: start,
            drawn: 0,
            left: Vec::new(alloc),
            ended: Vec::new(alloc),
            spare: 0,
        })
    }

    /// Makes room for so many events.
    pub fn reserve(&mut self, events: usize) -> Result<(), NoMemory>
        ensures state { self.new.state ≡ self.old.state }
        ensures room { OnOk result (events ≤ self.new.spare) }
        ensures kept { self.old.spare ≤ self.new.spare }
        ensures most { (n : ℕ) → self.old.spare ≤ n → events ≤ n → self.new.spare ≤ n }
    {
        if events <= self.spare {
            return Ok(());
        }
        self.left.reserve(events)?;
        self.ended.reserve(events)?;
        reserve_all(&mut self.seats, events)?;
        self.spare = events;
        Ok(())
    }

    /// How many events it takes at least without memory.
    pub fn spare(&self) -> usize
        ensures { result ≡ self.now.spare }
    {
        self.spare
    }

    /// The best value so far.
    pub fn word(&self) -> u64
        ensures { result ≡ self.now.state.word }
    {
        self.word
    }

    /// How many workers there are.
    pub fn workers(&self) -> usize
        ensures { result ≡ length self.now.state.workers }
    {
        self.seats.len()
    }

    /// The node in a worker's hand.
    pub fn hand(&self, worker: u32) -> Option<NodeKey>
        requires { IsWorker self.now.state worker }
        ensures hand { result ≡ (holder self.now.state worker).hand }
        ensures pushed { IfSome result (λ _. (holder self.now.state worker).made ≡ []) }
    {
        self.seats[worker as usize].hand()
    }

    /// The value that a worker saw last.
    pub fn seen(&self, worker: u32) -> Option<u64>
        requires { IsWorker self.now.state worker }
        ensures { result ≡ (holder self.now.state worker).seen }
    {
        self.seats[worker as usize].seen()
    }

    /// Whether the node in a worker's hand has a ticket.
    pub fn has_ticket(&self, worker: u32) -> bool
        requires { IsWorker self.now.state worker }
        ensures { result ≡ (holder self.now.state worker).ticket }
    {
        self.seats[worker as usize].has_ticket()
    }

    /// How many nodes wait in a worker's deque.
    pub fn waiting(&self, worker: u32) -> usize
        requires { IsWorker self.now.state worker }
        ensures { result ≡ length (holder self.now.state worker).deque }
    {
        self.seats[worker as usize].waiting()
    }

    /// The node in a worker's hand, which has a ticket.
    pub fn ticketed(&self, worker: u32) -> Result<NodeKey, Refused>
        ensures held { IfOk result (λ n. Holding self.now.state worker n true) }
        ensures pushed { IfOk result (λ _. (holder self.now.state worker).made ≡ []) }
        ensures refused { IfErr result (λ cause. LacksTicket self.now.state worker cause) }
    {
        if worker as usize >= self.seats.len() {
            return Err(Refused::NoWorker);
        }
        let Some(node) = self.hand(worker) else {
            return Err(Refused::HandEmpty);
        };
        if !self.has_ticket(worker) {
            return Err(Refused::NoTicket);
        }
        Ok(node)
    }

    /// The ended nodes.
    pub fn ended(&self) -> &[Done<T>]
        ensures { result.now ≡ self.now.state.ended }
    {
        self.ended.as_slice()
    }

    /// The nodes that were left.
    pub fn left(&self) -> &[NodeKey]
        ensures { result.now ≡ self.now.state.left }
    {
        self.left.as_slice()
    }

    /// A worker moves its first child that waits to the back of its deque.
    pub fn push(&mut self, worker: u32) -> Result<(), Refused>
        requires { 0 < self.old.spare }
        ensures done { OnOk result (Pushes self.old.state worker self.new.state) }
        ensures refused { IfErr result (λ cause. RefusesPush self.old.state worker cause) }
        ensures unchanged { OnErr result (self.new ≡ self.old) }
        ensures spare { self.old.spare ≤ self.new.spare + 1 }
        ensures most { self.new.spare ≤ self.old.spare }
    {
        let at = worker as usize;
        if at >= self.seats.len() {
            return Err(Refused::NoWorker);
        }
        if self.seats[at].unpushed() == 0 {
            return Err(Refused::NoChild);
        }
        self.seats[at].push();
        self.spare = self.spare - 1;
        Ok(())
    }

    /// A worker takes the last node of its own deque into its hand.
    pub fn pop(&mut self, worker: u32) -> Result<(), Refused>
        ensures done { OnOk result (Pops self.old.state worker self.new.state) }
        ensures refused { IfErr result (λ cause. RefusesPop self.old.state worker cause) }
        ensures unchanged { OnErr result (self.new ≡ self.old) }
        ensures spare { self.new.spare ≡ self.old.spare }
    {
        let at = worker as usize;
        if at >= self.seats.len() {
            return Err(Refused::NoWorker);
        }
        if !self.seats[at].may_take() {
            return Err(Refused::HandFull);
        }
        if self.seats[at].waiting() == 0 {
            return Err(Refused::DequeEmpty);
        }
        self.seats[at].pop();
        Ok(())
    }

    /// A worker takes the first node of the victim's deque into its hand.
    pub fn steal(&mut self, worker: u32, victim: u32) -> Result<(), Refused>
        ensures done { OnOk result (Steals self.old.state worker victim self.new.state) }
        ensures refused { IfErr result (λ cause. RefusesSteal self.old.state worker victim cause) }
        ensures unchanged { OnErr result (self.new ≡ self.old) }
        ensures spare { self.new.spare ≡ self.old.spare }
    {
        let at = worker as usize;
        let from = victim as usize;
        if at >= self.seats.len() || from >= self.seats.len() {
            return Err(Refused::NoWorker);
        }
        if !self.seats[at].may_take() {
            return Err(Refused::HandFull);
        }
        if self.seats[from].waiting() == 0 {
            return Err(Refused::DequeEmpty);
        }
        let node = self.seats[from].give();
        self.seats[at].take(node);
        Ok(())
    }

    /// A worker sees the best value.
    pub fn load(&mut self, worker: u32) -> Result<(), Refused>
        ensures done { OnOk result (Loads self.old.state worker self.new.state) }
        ensures refused { IfErr result (λ cause. RefusesLoad self.old.state worker cause) }
        ensures unchanged { OnErr result (self.new ≡ self.old) }
        ensures spare { self.new.spare ≡ self.old.spare }
    {
        let at = worker as usize;
        if at >= self.seats.len() {
            return Err(Refused::NoWorker);
        }
        let word = self.word;
        self.seats[at].see(word);
        Ok(())
    }

    /// A worker draws the next ticket for the node in its hand. Past the budget the node is left.
    pub fn draw(&mut self, worker: u32) -> Result<(), Refused>
        requires { 0 < self.old.spare }
        ensures done { OnOk result (Draws self.old.state worker self.new.state) }
        ensures refused { IfErr result (λ cause. RefusesDraw self.old.state worker cause) }
        ensures unchanged { OnErr result (self.new ≡ self.old) }
        ensures spare { self.old.spare ≤ self.new.spare + 1 }
        ensures most { self.new.spare ≤ self.old.spare }
    {
        let at = worker as usize;
        if at >= self.seats.len() {
            return Err(Refused::NoWorker);
        }
        let Some(node) = self.seats[at].hand() else {
            return Err(Refused::HandEmpty);
        };
        if self.seats[at].has_ticket() {
            return Err(Refused::HasTicket);
        }
        if self.drawn < self.budget {
            self.seats[at].ticket();
            self.drawn = self.drawn + 1;
        } else {
            self.seats[at].leave();
            self.left.push_reserved(node);
            self.spare = self.spare - 1;
        }
        Ok(())
    }

    /// The record ends the node in a worker's hand.
    pub fn end_hand(&mut self, worker: u32, done: Done<T>)
        requires hand { IsWorker self.old.state worker × ((holder self.old.state worker).hand ≡ Some done.node) }
        requires room { 0 < self.old.spare }
        ensures done { EndsHand self.old.state worker done.node done self.new.state }
        ensures spare { self.old.spare ≡ self.new.spare + 1 }
    {
        self.seats[worker as usize].end();
        self.ended.push_reserved(done);
        self.spare = self.spare - 1;
    }

    /// The record ends the node in a worker's hand, whose halves wait to be pushed.
    pub fn divide_hand(&mut self, worker: u32, done: Done<T>)
        requires hand { IsWorker self.old.state worker × ((holder self.old.state worker).hand ≡ Some done.node) }
        requires room { 0 < self.old.spare }
        ensures done { HalvesHand self.old.state worker done.node done self.new.state }
        ensures spare { self.old.spare ≡ self.new.spare + 1 }
    {
        let entry = self.ended.len();
        let one = NodeKey::Half { entry, value: true };
        let zero = NodeKey::Half {
            entry,
            value: false,
        };
        self.seats[worker as usize].divide(one, zero);
        self.ended.push_reserved(done);
        self.spare = self.spare - 1;
    }

    /// The best value becomes the lesser of itself and a price.
    pub fn offer(&mut self, price: u64)
        ensures state { self.new.state ≡ record self.old.state { word = lesser self.old.state.word price } }
        ensures spare { self.new.spare ≡ self.old.spare }
    {
        if price < self.word {
            self.word = price;
        }
    }

    /// The ended nodes, those that were left, and the best value.
    pub fn finish(self) -> (Vec<Done<T>>, Vec<NodeKey>, u64)
        ensures ended { result.0.items ≡ self.state.ended }
        ensures left { result.1.items ≡ self.state.left }
        ensures word { result.2 ≡ self.state.word }
    {
        (self.ended, self.left, self.word)
    }
}
