//! The search: its state, and its answer to each event.
ghost use Rattle.std.specs.Prelude.{◌≡◌, ℕ, ◌+◌, ◌<◌, ◌≤◌, IfOk, IfErr, OnOk, OnErr, length, map, option_map};
ghost use Rattle.zero_one_rows.specs.Rows.{whole, CrossingRowsHold};
ghost use Rattle.zero_one_rows.specs.Counted.{base_rows};
ghost use Rattle.certificate.specs.Entries.{same_row, entry_of};
ghost use Rattle.search_core.specs.Machine.{at_its_path, begin, worker as holder, IsWorker, Accepts, Push, Pop, Steal, Load, Offer, Draw, Close, Divide, ObeysRule};
ghost use Rattle.search_core.specs.Refusals.{Refuses};
ghost use Rattle.search_core.specs.Outcomes.{path_of};
ghost use Rattle.event_search.specs.Nodes.{told_node, placed};
ghost use Rattle.event_search.specs.Events.{event_of};
ghost use Rattle.event_search.specs.Cores.{IsAnswer, IsAnswerTo};
ghost use Rattle.event_search.specs.Answered.{IsAnswerOf};

use crate::event_nodes::{entries_of, full_node, paths_of};
use crate::events::{Event, given_back};
use crate::judged::{judge_branch, judge_close, judge_offer};
use crate::judging::Judge;
use certificate::{Journal, Node, PathList, Record};
use search_core::{Done, Refused, Seats};
use std::alloc::Global;
use std::marker::Model;
use stow_data::NoMemory;

/// What a search by events ends with.
#[derive(Drop)]
pub struct Ended {
    /// The records that ended nodes, in the order of their events.
    pub entries: Journal,

    /// The paths of the nodes that were left.
    pub left: PathList,

    /// The best value.
    pub word: u64,
}

/// A search of a voyage's program by any number of workers. The rule of the search machine holds from the start on and after each event: every solution cheaper than the best value lies in the box of an open node.
///
/// Contracts see the voyage, the state of the machine, and how many events it takes at least without memory.
#[derive(Drop)]
pub struct Core<J: Judge> {
    seats: Seats<Record>,
    judge: J,
}

impl<J: Judge> Model for Core<J> {
    ghost use Rattle.event_search.specs.Cores.{Course, state_at, IsCore};

    ghost Value = { Course };

    ghost view = { λ c. record { voyage = J.voyage c.judge; state = state_at (J.voyage c.judge) c.seats.state; spare = c.seats.spare } };

    ghost invariant = { λ c. IsCore (J.voyage c.judge) (J.room c.judge) c.seats.state c.seats.spare };
}

impl<J: Judge + Drop> Core<J> {
    /// So many workers, of whom the first has the root in its deque. It is asked that each solution meets the crossing rows.
    pub fn start(
        alloc: Global,
        judge: J,
        workers: u32,
        start: u64,
        budget: u64,
    ) -> Result<Core<J>, NoMemory>
        requires workers { 0 < workers }
        requires crossing { CrossingRowsHold (J.voyage judge) }
        ensures voyage { IfOk result (λ core. core.voyage ≡ J.voyage judge) }
        ensures begins { IfOk result (λ core. core.state ≡ begin workers start budget) }
    {
        let seats = Seats::start(alloc, workers, start, budget)?;
        Ok(Core { seats, judge })
    }

    /// Makes room for so many events.
    pub fn reserve(&mut self, events: u32) -> Result<(), NoMemory>
        ensures voyage { self.new.voyage ≡ self.old.voyage }
        ensures state { self.new.state ≡ self.old.state }
        ensures room { OnOk result (events ≤ self.new.spare) }
        ensures kept { self.old.spare ≤ self.new.spare }
    {
        let wanted = events as usize;
        if wanted <= self.seats.spare() {
            return Ok(());
        }
        let Some(entries) = self.seats.ended().len().checked_add(wanted) else {
            return Err(NoMemory);
        };
        self.judge.reserve(entries)?;
        self.seats.reserve(wanted)
    }

    /// How many events it takes at least without memory.
    pub fn spare(&self) -> usize
        ensures { result ≡ self.now.spare }
    {
        self.seats.spare()
    }

    /// The best value so far.
    pub fn word(&self) -> u64
        ensures { result ≡ self.now.state.word }
    {
        self.seats.word()
    }

    /// How many workers there are.
    pub fn workers(&self) -> usize
        ensures { result ≡ length self.now.state.workers }
    {
        self.seats.workers()
    }

    /// The value that a worker saw last.
    pub fn seen(&self, worker: u32) -> Option<u64>
        requires { IsWorker self.now.state worker }
        ensures { result ≡ (holder self.now.state worker).seen }
    {
        self.seats.seen(worker)
    }

    /// Whether the node in a worker's hand has a ticket.
    pub fn has_ticket(&self, worker: u32) -> bool
        requires { IsWorker self.now.state worker }
        ensures { result ≡ (holder self.now.state worker).ticket }
    {
        self.seats.has_ticket(worker)
    }

    /// How many nodes wait in a worker's deque.
    pub fn waiting(&self, worker: u32) -> usize
        requires { IsWorker self.now.state worker }
        ensures { result ≡ length (holder self.now.state worker).deque }
    {
        self.seats.waiting(worker)
    }

    /// The node in a worker's hand: its path, and copies of the records above it.
    pub fn hand(&self, alloc: Global, worker: u32) -> Result<Option<Node>, NoMemory>
        requires { IsWorker self.now.state worker }
        ensures { IfOk result (λ node. option_map (told_node self.now.voyage) node ≡ (holder self.now.state worker).hand) }
    {
        match self.seats.hand(worker) {
            Some(key) => {
                let node = full_node(alloc, self.seats.ended(), key)?;
                Ok(Some(node))
            }
            None => Ok(None),
        }
    }

    /// The records that ended nodes in the order of their events, the paths of the nodes that were left, and the best value.
    pub fn finish(self, alloc: Global) -> Result<Ended, NoMemory>
        ensures entries { IfOk result (λ end. map (placed self.voyage) end.entries ≡ map at_its_path self.state.ended) }
        ensures left { IfOk result (λ end. end.left ≡ map path_of self.state.left) }
        ensures word { IfOk result (λ end. end.word ≡ self.state.word) }
    {
        let entries = entries_of(alloc, self.seats.ended())?;
        let left = paths_of(alloc, self.seats.ended(), self.seats.left())?;
        let word = self.seats.word();
        Ok(Ended {
            entries,
            left,
            word,
        })
    }

    /// Every solution that is cheaper than the best value lies in an open node's box; and the other facts of the rule.
    pub fn obeys_rule(&self)
        ensures { ObeysRule same_row (whole self.now.voyage) self.now.state }
    {
        let _opened = &self.seats;
    }

    fn push(&mut self, worker: u32) -> Result<(), Refused>
        requires { 0 < self.old.spare }
        ensures { IsAnswer self.old (Push worker) self.new result }
    {
        self.seats.push(worker)
    }

    fn pop(&mut self, worker: u32) -> Result<(), Refused>
        ensures { IsAnswer self.old (Pop worker) self.new result }
    {
        self.seats.pop(worker)
    }

    fn steal(&mut self, worker: u32, victim: u32) -> Result<(), Refused>
        ensures { IsAnswer self.old (Steal worker victim) self.new result }
    {
        self.seats.steal(worker, victim)
    }

    fn load(&mut self, worker: u32) -> Result<(), Refused>
        ensures { IsAnswer self.old (Load worker) self.new result }
    {
        self.seats.load(worker)
    }

    fn draw(&mut self, worker: u32) -> Result<(), Refused>
        requires { 0 < self.old.spare }
        ensures { IsAnswer self.old (Draw worker) self.new result }
    {
        self.seats.draw(worker)
    }

    fn offer(&mut self, worker: u32, entry: &Record) -> Result<(), Refused>
        ensures { IsAnswer self.old (Offer worker (entry_of self.old.voyage entry.now)) self.new result }
    {
        match judge_offer(&mut self.judge, &self.seats, worker, entry) {
            Ok(price) => {
                self.seats.offer(price);
                Ok(())
            }
            Err(cause) => Err(cause),
        }
    }

    fn close(&mut self, worker: u32, entry: Record) -> Result<(), (Refused, Record)>
        requires { 0 < self.old.spare }
        ensures { IsAnswerTo entry self.old (Close worker (entry_of self.old.voyage entry)) self.new result }
    {
        match judge_close(&mut self.judge, &self.seats, worker, &entry) {
            Ok(node) => {
                let done = Done { node, entry };
                self.seats.end_hand(worker, done);
                Ok(())
            }
            Err(cause) => Err((cause, entry)),
        }
    }

    fn branch(&mut self, worker: u32, entry: Record) -> Result<(), (Refused, Record)>
        requires { 0 < self.old.spare }
        ensures { IsAnswerTo entry self.old (Divide worker (entry_of self.old.voyage entry)) self.new result }
    {
        match judge_branch(&mut self.judge, &self.seats, worker, &entry) {
            Ok(node) => {
                let done = Done { node, entry };
                self.seats.divide_hand(worker, done);
                Ok(())
            }
            Err(cause) => Err((cause, entry)),
        }
    }

    /// Accepts an event, or refuses it with the first cause that stands. After a refusal all is unchanged, and the event comes back. It takes no memory, and uses up the room of one event at most.
    pub fn accept(&mut self, event: Event) -> Result<(), (Refused, Event)>
        requires { 0 < self.old.spare }
        ensures accepted { OnOk result (Accepts same_row (whole self.old.voyage) (base_rows self.old.voyage) self.old.state (event_of self.old.voyage event) self.new.state) }
        ensures refused { IfErr result (λ no. Refuses same_row (whole self.old.voyage) (base_rows self.old.voyage) self.old.state (event_of self.old.voyage event) no.0) }
        ensures given_back { IfErr result (λ no. no.1 ≡ event) }
        ensures unchanged { OnErr result (self.new ≡ self.old) }
        ensures room { OnOk result (self.old.spare ≤ self.new.spare + 1) }
        ensures voyage { self.new.voyage ≡ self.old.voyage }
    {
        self.answer(event)
    }

    // The answer to an event.
    fn answer(&mut self, event: Event) -> Result<(), (Refused, Event)>
        requires { 0 < self.old.spare }
        ensures { IsAnswerOf event self.old self.new result }
    {
        match event {
            Event::Push { worker } => given_back(self.push(worker), Event::Push { worker }),
            Event::Pop { worker } => given_back(self.pop(worker), Event::Pop { worker }),
            Event::Steal { worker, victim } => given_back(
                self.steal(worker, victim),
                Event::Steal { worker, victim },
            ),
            Event::Load { worker } => given_back(self.load(worker), Event::Load { worker }),
            Event::Draw { worker } => given_back(self.draw(worker), Event::Draw { worker }),
            Event::Offer { worker, entry } => {
                let answer = self.offer(worker, &entry);
                given_back(answer, Event::Offer { worker, entry })
            }
            Event::Close { worker, entry } => match self.close(worker, entry) {
                Ok(()) => Ok(()),
                Err((cause, entry)) => Err((cause, Event::Close { worker, entry })),
            },
            Event::Branch { worker, entry } => match self.branch(worker, entry) {
                Ok(()) => Ok(()),
                Err((cause, entry)) => Err((cause, Event::Branch { worker, entry })),
            },
        }
    }
}
