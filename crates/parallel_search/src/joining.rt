//! What the workers brought back, taken in.
ghost use Rattle.std.specs.Prelude.{◌≡◌, ℕ, ◌+◌, ◌++◌, ◌∷◌, [], ◌≤◌, IfOk, OnOk, length, map};
ghost use Rattle.zero_one_rows.specs.Variables.{Voyage};
ghost use Rattle.search_core.specs.Bags.{Every};
ghost use Rattle.shared_search.specs.Rule.{joined, none_yet};
ghost use Rattle.steal_pool.specs.Deeds.{no_deeds};
ghost use Rattle.parallel_search.specs.Ends.{AreOwn, BringsOwn, IsWorkerEnd, IsEnd, deeds_of, pass_of};
ghost use Rattle.parallel_search.specs.Starts.{IsUnused};
ghost use Rattle.parallel_search.specs.Together.{both, cheaper_of};

use crate::slots::WorkerEnd;
use certificate::{JournalList, Node, PathList};
use shared_search::{Board, Owner, Pass, Wanted};
use std::alloc::Global;
use steal_pool::{Deeds, Solution};
use stow_data::NoMemory;

/// What several workers did.
#[derive(Drop)]
pub struct AllDeeds {
    pub journals: JournalList,
    pub left: PathList,
    pub best: Option<Solution>,
}

/// What the workers brought back: their passes, the nodes that their deques refused, and what they did.
#[derive(Drop)]
pub struct Ended<M: Wanted> {
    pub passes: Vec<Pass<M>>,
    pub aside: Vec<Node>,
    pub all: AllDeeds,
}

// The cheaper one of two solutions.
fn cheaper(a: Option<Solution>, b: Option<Solution>) -> Option<Solution>
    ensures { result ≡ cheaper_of a b }
{
    match (a, b) {
        (None, other) => other,
        (Some(a), None) => Some(a),
        (Some(a), Some(b)) => { if b.cost < a.cost { Some(b) } else { Some(a) } }
    }
}

/// Adds nodes to a list.
pub fn append_nodes(to: &mut Vec<Node>, from: Vec<Node>) -> Result<(), NoMemory>
    ensures { OnOk result (to.new.items ≡ to.old.items ++ from.items) }
{
    let mut from = from;
    to.append(&mut from)?;
    Ok(())
}

// Adds paths to a list.
fn append_paths(to: &mut PathList, from: PathList) -> Result<(), NoMemory>
    ensures { OnOk result (to.new ≡ to.old ++ from) }
{
    for path in from.into_items() {
        to.push(path)?;
    }
    Ok(())
}

impl AllDeeds {
    // Nothing yet. It takes no memory.
    fn none(alloc: Global) -> AllDeeds
        ensures deeds { deeds_of result ≡ no_deeds }
        ensures journals { result.journals ≡ [] }
    {
        AllDeeds {
            journals: JournalList::new(alloc),
            left: PathList::new(alloc),
            best: None,
        }
    }

    /// Adds what another worker did.
    pub fn add(&mut self, deeds: Deeds) -> Result<(), NoMemory>
        ensures deeds { OnOk result (deeds_of self.new ≡ both (deeds_of self.old) deeds) }
        ensures journals { OnOk result (self.new.journals ≡ self.old.journals ++ deeds.journal ∷ []) }
    {
        let Deeds {
            journal,
            left,
            best,
        } = deeds;
        self.best = cheaper(self.best.take(), best);
        self.journals.push(journal)?;
        append_paths(&mut self.left, left)?;
        Ok(())
    }
}

// Takes in a worker's pass, and the nodes that its deque refused.
fn take_in_nodes<M: Wanted>(
    ended: &mut Ended<M>,
    pass: Pass<M>,
    aside: Vec<Node>,
) -> Result<(), NoMemory>
    ensures passes { OnOk result (ended.new.passes.items ≡ ended.old.passes.items ++ pass ∷ []) }
    ensures aside { OnOk result (ended.new.aside.items ≡ ended.old.aside.items ++ aside.items) }
    ensures all { ended.new.all ≡ ended.old.all }
{
    ended.passes.push(pass)?;
    append_nodes(&mut ended.aside, aside)?;
    Ok(())
}

// Takes in what a worker brought back, and its seat.
fn take_in<M: Wanted>(
    board: &Board,
    owner: &mut Owner,
    ended: &mut Ended<M>,
    worker_end: WorkerEnd<M>,
) -> Result<(), NoMemory>
    requires owner { owner.old.board ≡ board.now.id }
    requires seat { worker_end.seat.board ≡ board.now.id }
    requires top { board.now.start ≤ none_yet }
    ensures owner { owner.new.board ≡ owner.old.board }
    ensures view { owner.new.view ≡ joined owner.old.view worker_end.seat.view }
    ensures passes { OnOk result (ended.new.passes.items ≡ ended.old.passes.items ++ worker_end.pass ∷ []) }
    ensures end { OnOk result ((m : Voyage) → IsEnd M.meets board.now m owner.old.view ended.old → IsWorkerEnd M.meets board.now m worker_end → IsEnd M.meets board.now m owner.new.view ended.new) }
    ensures own { OnOk result ((room : ℕ) → AreOwn room ended.old → BringsOwn room worker_end → AreOwn room ended.new) }
{
    let WorkerEnd {
        pass,
        seat,
        deeds,
        aside,
    } = worker_end;
    board.join(owner, seat);
    match take_in_nodes(ended, pass, aside) {
        Ok(()) => ended.all.add(deeds),
        Err(no) => {
            drop(deeds);
            Err(no)
        }
    }
}

// Takes in what each worker brought back, and its seat.
fn take_in_each<M: Wanted>(
    board: &Board,
    owner: &mut Owner,
    ended: &mut Ended<M>,
    worker_ends: Vec<WorkerEnd<M>>,
) -> Result<(), NoMemory>
    requires owner { owner.old.board ≡ board.now.id }
    requires seats { Every (λ worker_end. worker_end.seat.board ≡ board.now.id) worker_ends.items }
    requires top { board.now.start ≤ none_yet }
    ensures owner { owner.new.board ≡ owner.old.board }
    ensures made { owner.new.view.made ≡ owner.old.view.made }
    ensures taken { OnOk result (owner.new.view.taken ≡ owner.old.view.taken + length worker_ends.items) }
    ensures passes { OnOk result (ended.new.passes.items ≡ ended.old.passes.items ++ map pass_of worker_ends.items) }
    ensures end { OnOk result ((m : Voyage) → IsEnd M.meets board.now m owner.old.view ended.old → Every (IsWorkerEnd M.meets board.now m) worker_ends.items → IsEnd M.meets board.now m owner.new.view ended.new) }
    ensures own { OnOk result ((room : ℕ) → AreOwn room ended.old → Every (BringsOwn room) worker_ends.items → AreOwn room ended.new) }
{
    for worker_end in worker_ends {
        take_in(board, owner, ended, worker_end)?;
    }
    Ok(())
}

/// Takes in what all workers brought back, and their seats.
pub fn take_in_all<M: Wanted>(
    alloc: Global,
    board: &Board,
    owner: &mut Owner,
    worker_ends: Vec<WorkerEnd<M>>,
) -> Result<Ended<M>, NoMemory>
    requires owner { owner.old.board ≡ board.now.id }
    requires seats { Every (λ worker_end. worker_end.seat.board ≡ board.now.id) worker_ends.items }
    requires top { board.now.start ≤ none_yet }
    requires view { IsUnused board.now.start owner.old.view }
    ensures owner { owner.new.board ≡ owner.old.board }
    ensures made { owner.new.view.made ≡ owner.old.view.made }
    ensures taken { OnOk result (owner.new.view.taken ≡ owner.old.view.taken + length worker_ends.items) }
    ensures passes { IfOk result (λ ended. ended.passes.items ≡ map pass_of worker_ends.items) }
    ensures end { IfOk result (λ ended. (m : Voyage) → Every (IsWorkerEnd M.meets board.now m) worker_ends.items → IsEnd M.meets board.now m owner.new.view ended) }
    ensures own { IfOk result (λ ended. (room : ℕ) → Every (BringsOwn room) worker_ends.items → AreOwn room ended) }
{
    let mut ended = Ended {
        passes: Vec::new(alloc),
        aside: Vec::new(alloc),
        all: AllDeeds::none(alloc),
    };
    match take_in_each(board, owner, &mut ended, worker_ends) {
        Ok(()) => Ok(ended),
        Err(no) => Err(no),
    }
}
