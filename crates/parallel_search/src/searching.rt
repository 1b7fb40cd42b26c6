//! The search with any number of workers.
ghost use Rattle.std.specs.Prelude.{◌≡◌, ℕ, ◌<◌, ◌≤◌, ◌+◌, ◌++◌, ◌∷◌, [], List, IfOk, OnOk, length, map};
ghost use Rattle.stow_data.specs.Shipment.{IsCargo, most_cost};
ghost use Rattle.shared_search.specs.declared.view.View.{View as Views};
ghost use Rattle.shared_search.specs.Rule.{fresh, seen_at, after_split, joined};
ghost use Rattle.certificate.specs.declared.nodes.Node.{Node as Nodes};
ghost use Rattle.shared_search.specs.Racks.{AreAll, IsFresh, IsPassAt, all_put, all_took, room_at};
ghost use Rattle.shared_search.specs.Tallies.{did_of, room_of, workers_of};
ghost use Rattle.node_solver.specs.Work.{IsNode};
ghost use Rattle.search_core.specs.Bags.{weigh, Every};
ghost use Rattle.search_core.specs.Machine.{root_node};
ghost use Rattle.steal_pool.specs.Found.{IsFound};
ghost use Rattle.steal_pool.specs.Deeds.{box_of, on_nodes, IsDone};
ghost use Rattle.parallel_search.specs.Ends.{AreOwn, AreUnder, IsEnd, IsJoined, deeds_of, found_of};
ghost use Rattle.parallel_search.specs.Together.{both};
ghost use Rattle.parallel_search.specs.Tallied.{IsTallied};
ghost use Rattle.steal_pool.specs.Jobs.{Means};
ghost use Rattle.parallel_search.specs.Starts.{IsAsked, IsMaker};

use crate::beginning::begin_all;
use crate::finishing::finish;
use crate::joining::{AllDeeds, Ended, append_nodes, take_in_all};
use crate::threading::{Shared, serve_all};
use certificate::Node;
use node_solver::{NodeSolver, Solver};
use shared_search::{Board, Closed, Owner, Pass, Rack, Tally, Totals, Wanted};
use std::alloc::Global;
use std::marker::Brand;
use std::sync::Wait;
use std::thread::Threads;
use steal_pool::{Deeds, Found, Signs, Solution};
use stow_data::NoMemory;
use stow_io::Gate;
use zero_one_model::Box01;

/// How many nodes a worker puts at least before its deque refuses one.
const ROOM: usize = 1_024;

// The box of a solution.
fn full_box(best: Option<Solution>) -> Option<Box01>
    ensures { result ≡ box_of best }
{
    match best {
        Some(solution) => Some(solution.full),
        None => None,
    }
}

// What was found, by what all workers did, the closed board and the closed rack.
fn found(all: AllDeeds, totals: Totals, tally: Tally) -> Found
    ensures { result ≡ found_of totals.best totals.drawn all tally }
{
    let AllDeeds {
        journals,
        left,
        best,
    } = all;
    Found {
        best: totals.best,
        full: full_box(best),
        journals,
        left,
        handled: totals.drawn,
        tally,
    }
}

// What the closed rack still holds, with what the deques refused, and its tally.
fn still_open<M: Wanted>(
    alloc: Global,
    rack: Rack<M>,
    passes: Vec<Pass<M>>,
    aside: Vec<Node>,
) -> Result<(Vec<Node>, Tally), NoMemory>
    requires passes { Every (IsPassAt rack) passes.items }
    requires all { AreAll rack passes.items }
    ensures todo { IfOk result (λ r. (rest : List Nodes) × (r.0.items ≡ rest ++ aside.items) × Every M.meets rest × ((h : Nodes → ℕ) → all_put h passes.items ≡ all_took h passes.items + weigh h rest)) }
    ensures tally { IfOk result (λ r. (workers_of r.1 ≡ map did_of passes.items) × (room_of r.1 ≡ room_at rack)) }
{
    let Closed { rest, tally } = rack.close(alloc, passes)?;
    let mut todo = rest;
    append_nodes(&mut todo, aside)?;
    Ok((todo, tally))
}

// What all did, and these deeds.
fn with_more(mut all: AllDeeds, deeds: Deeds) -> Result<AllDeeds, NoMemory>
    ensures deeds { IfOk result (λ more. deeds_of more ≡ both (deeds_of all) deeds) }
    ensures journals { IfOk result (λ more. more.journals ≡ all.journals ++ deeds.journal ∷ []) }
{
    match all.add(deeds) {
        Ok(()) => Ok(all),
        Err(no) => Err(no),
    }
}

// The same beside a tally.
fn tallied(all: AllDeeds, deeds: Deeds, tally: Tally) -> Result<(AllDeeds, Tally), NoMemory>
    ensures deeds { IfOk result (λ r. deeds_of r.0 ≡ both (deeds_of all) deeds) }
    ensures journals { IfOk result (λ r. r.0.journals ≡ all.journals ++ deeds.journal ∷ []) }
    ensures tally { IfOk result (λ r. r.1 ≡ tally) }
{
    match with_more(all, deeds) {
        Ok(all) => Ok((all, tally)),
        Err(no) => {
            drop(tally);
            Err(no)
        }
    }
}

// Handles these nodes at a seat of its own, which the owner takes in.
fn finish_seated<S: Solver, R: Wait>(
    rt: &R,
    alloc: Global,
    solver: &mut NodeSolver<S>,
    board: &Board,
    owner: &mut Owner,
    todo: Vec<Node>,
) -> Result<Deeds, NoMemory>
    requires cargo { IsCargo solver.old.cargo }
    requires low { board.now.start ≤ most_cost solver.old.cargo + 1 }
    requires owner { (owner.old.board ≡ board.now.id) × (owner.old.view.made < 65536) }
    requires begun { owner.old.view.start ≡ board.now.start }
    requires nodes { Every (IsNode solver.old) todo.items }
    ensures owner { owner.new.board ≡ owner.old.board }
    ensures taken { owner.old.view.made ≡ owner.old.view.taken → owner.new.view.made ≡ owner.new.view.taken }
    ensures done { IfOk result (λ deeds. (found : ℕ) × (seat : Views) × (found ≤ owner.old.view.seen) × (owner.new.view ≡ joined (after_split (seen_at owner.old.view found)) seat) × IsDone solver.old board.now.start seat 0 deeds (λ h. weigh (on_nodes solver.old h) todo.items) (λ h. 0)) }
    ensures under { IfOk result (λ deeds. AreUnder todo.items [] deeds.journal) }
{
    let mut seat = board.split(owner);
    let deeds = finish(rt, alloc, solver, board, &mut seat, todo);
    board.join(owner, seat);
    deeds
}

// Finishes what the closed rack still holds and what the deques refused.
fn finish_off<M: Wanted, S: Solver, R: Wait>(
    rt: &R,
    alloc: Global,
    solver: &mut NodeSolver<S>,
    rack: Rack<M>,
    board: &Board,
    owner: &mut Owner,
    ended: Ended<M>,
) -> Result<(AllDeeds, Tally), NoMemory>
    requires owner { IsJoined M.meets board.now solver.old owner.old }
    requires workers { 0 < length rack.thieves.items }
    requires passes { Every (IsPassAt rack) ended.passes.items }
    requires all { AreAll rack ended.passes.items }
    requires end { IsEnd M.meets board.now solver.old owner.old.view ended }
    requires own { AreOwn (room_at rack) ended }
    ensures owner { owner.new.board ≡ owner.old.board }
    ensures taken { owner.new.view.made ≡ owner.new.view.taken }
    ensures done { IfOk result (λ r. IsDone solver.old board.now.start owner.new.view 0 (deeds_of r.0) (λ h. h root_node) (λ h. 0)) }
    ensures tally { IfOk result (λ r. IsTallied (room_at rack) (length rack.thieves.items) r.0.journals r.1) }
{
    let Ended { passes, aside, all } = ended;
    match still_open(alloc, rack, passes, aside) {
        Ok((todo, tally)) => match finish_seated(rt, alloc, solver, board, owner, todo) {
            Ok(deeds) => tallied(all, deeds, tally),
            Err(no) => {
                drop(all);
                drop(tally);
                Err(no)
            }
        },
        Err(no) => {
            drop(all);
            Err(no)
        }
    }
}

// Finishes what is left, and closes the board.
fn conclude<M: Wanted, S: Solver, R: Wait>(
    rt: &R,
    alloc: Global,
    shared: Shared<M, S>,
    mut owner: Owner,
    ended: Ended<M>,
) -> Result<Found, NoMemory>
    requires owner { IsJoined M.meets shared.board shared.spare owner }
    requires workers { 0 < length shared.rack.thieves.items }
    requires passes { Every (IsPassAt shared.rack) ended.passes.items }
    requires all { AreAll shared.rack ended.passes.items }
    requires end { IsEnd M.meets shared.board shared.spare owner.view ended }
    requires own { AreOwn (room_at shared.rack) ended }
    ensures found { IfOk result (IsFound shared.spare shared.board.start shared.board.budget) }
    ensures tally { IfOk result (λ f. IsTallied (room_at shared.rack) (length shared.rack.thieves.items) f.journals f.tally) }
{
    let Shared {
        rack,
        board,
        signs: _,
        mut spare,
    } = shared;
    let all = finish_off(rt, alloc, &mut spare, rack, &board, &mut owner, ended);
    let totals = board.close(owner);
    match all {
        Ok((all, tally)) => Ok(found(all, totals, tally)),
        Err(no) => Err(no),
    }
}

// What so many workers share, its owner, and their passes.
fn shared_by<M: Wanted, S: Solver>(
    alloc: Global,
    spare: NodeSolver<S>,
    workers: usize,
    budget: u64,
    start: u64,
) -> Result<(Shared<M, S>, Owner, Vec<Pass<M>>), NoMemory>
    requires workers { (0 < workers) × (workers ≤ 16) }
    requires nodes { budget ≤ 100000 }
    ensures numbers { IfOk result (λ r. (r.0.board.start ≡ start) × (r.0.board.budget ≡ budget)) }
    ensures spare { IfOk result (λ r. r.0.spare ≡ spare) }
    ensures owner { IfOk result (λ r. (r.1.board ≡ r.0.board.id) × (r.1.view ≡ fresh start budget)) }
    ensures passes { IfOk result (λ r. Every (IsPassAt r.0.rack) r.2.items) }
    ensures fresh { IfOk result (λ r. Every IsFresh r.2.items) }
    ensures all { IfOk result (λ r. AreAll r.0.rack r.2.items) }
    ensures workers { IfOk result (λ r. length r.0.rack.thieves.items ≡ workers) }
    ensures room { IfOk result (λ r. room_at r.0.rack ≡ 1024) }
{
    let (rack, passes) = match Rack::<M>::new(alloc, workers, ROOM) {
        Ok(made) => made,
        Err(no) => {
            drop(spare);
            return Err(no);
        }
    };
    match Board::new(alloc, start, budget) {
        Ok((board, owner)) => {
            let shared = Shared {
                rack,
                board,
                signs: Signs::new(),
                spare,
            };
            Ok((shared, owner, passes))
        }
        Err(no) => {
            drop(spare);
            drop(rack);
            drop(passes);
            Err(no)
        }
    }
}

// Lets the workers with these passes work, and takes in what they bring back.
fn work_all<M: Wanted + Send + Sync, S: Solver, G: Gate + Sync, R: Threads + Wait + Sync>(
    rt: &R,
    alloc: Global,
    shared: &Shared<M, S>,
    owner: &mut Owner,
    passes: Vec<Pass<M>>,
    solvers: Vec<NodeSolver<S>>,
    gate: &G,
) -> Result<Ended<M>, NoMemory>
    requires maker { IsMaker M.meets shared.now.board shared.now.spare owner.old }
    requires none { owner.old.view.made ≡ 0 }
    requires passes { Every (IsPassAt shared.now.rack) passes.items }
    requires fresh { Every IsFresh passes.items }
    requires all { AreAll shared.now.rack passes.items }
    requires few { length shared.now.rack.thieves.items ≤ 16 }
    requires solvers { Every (λ solver. solver ≡ shared.now.spare) solvers.items }
    requires enough { length shared.now.rack.thieves.items ≤ length solvers.items }
    ensures owner { OnOk result (IsJoined M.meets shared.now.board shared.now.spare owner.new) }
    ensures passes { IfOk result (λ ended. Every (IsPassAt shared.now.rack) ended.passes.items) }
    ensures all { IfOk result (λ ended. AreAll shared.now.rack ended.passes.items) }
    ensures end { IfOk result (λ ended. IsEnd M.meets shared.now.board shared.now.spare owner.new.view ended) }
    ensures own { IfOk result (AreOwn (room_at shared.now.rack)) }
{
    let worker_starts = begin_all(alloc, shared, owner, passes, solvers)?;
    let worker_ends = serve_all(rt, alloc, shared, gate, worker_starts)?;
    take_in_all(alloc, &shared.board, owner, worker_ends)
}

// Searches over what is shared, by the workers with these passes.
fn search_on<M: Wanted + Send + Sync, S: Solver, G: Gate + Sync, R: Threads + Wait + Sync>(
    rt: &R,
    alloc: Global,
    shared: Shared<M, S>,
    mut owner: Owner,
    passes: Vec<Pass<M>>,
    solvers: Vec<NodeSolver<S>>,
    gate: &G,
) -> Result<Found, NoMemory>
    requires maker { IsMaker M.meets shared.board shared.spare owner }
    requires none { owner.view.made ≡ 0 }
    requires passes { Every (IsPassAt shared.rack) passes.items }
    requires fresh { Every IsFresh passes.items }
    requires all { AreAll shared.rack passes.items }
    requires some { 0 < length shared.rack.thieves.items }
    requires few { length shared.rack.thieves.items ≤ 16 }
    requires solvers { Every (λ solver. solver ≡ shared.spare) solvers.items }
    requires enough { length shared.rack.thieves.items ≤ length solvers.items }
    ensures found { IfOk result (IsFound shared.spare shared.board.start shared.board.budget) }
    ensures tally { IfOk result (λ f. IsTallied (room_at shared.rack) (length shared.rack.thieves.items) f.journals f.tally) }
{
    match work_all(rt, alloc, &shared, &mut owner, passes, solvers, gate) {
        Ok(ended) => conclude(rt, alloc, shared, owner, ended),
        Err(no) => Err(no),
    }
}

// Searches by so many workers as there are solvers, whose nodes meet what is asked of the program's.
fn search_as<M: Wanted + Send + Sync, S: Solver, G: Gate + Sync, R: Threads + Wait + Sync>(
    rt: &R,
    alloc: Global,
    solvers: Vec<NodeSolver<S>>,
    spare: NodeSolver<S>,
    budget: u64,
    start: u64,
    gate: &G,
) -> Result<Found, NoMemory>
    requires means { Means M.meets spare }
    requires solvers { Every (λ solver. solver ≡ spare) solvers.items }
    requires asked { IsAsked spare (length solvers.items) budget start }
    ensures found { IfOk result (IsFound spare start budget) }
    ensures tally { IfOk result (λ f. IsTallied 1024 (length solvers.items) f.journals f.tally) }
{
    match shared_by::<M, S>(alloc, spare, solvers.len(), budget, start) {
        Ok((shared, owner, passes)) => search_on(rt, alloc, shared, owner, passes, solvers, gate),
        Err(no) => {
            drop(solvers);
            Err(no)
        }
    }
}

/// Searches the program for a solution that costs less than the start, by a worker with each solver, 1 to 16 of them, and keeps the records that prove what they found.
///
/// At most so many nodes are handled as the budget says, and nodes are left open only where it is used up. The workers have a deque each, with room for 1,024 nodes, and steal from one another; the first has the last solver. Each keeps a journal of the nodes that it handled. Where no thread can be made, their work is done by the caller. The gate is called before each node with the number of the worker and of its turn; what is left when the threads have ended is handled without it, with the spare solver, in a last journal. The tally tells what each worker put on its deque and what it took. Where memory is wanting to one of them, that is the answer once all have ended.
pub fn search<S: Solver, G: Gate + Sync, R: Threads + Wait + Sync>(
    rt: &R,
    alloc: Global,
    solvers: Vec<NodeSolver<S>>,
    spare: NodeSolver<S>,
    budget: u64,
    start: u64,
    gate: &G,
) -> Result<Found, NoMemory>
    requires solvers { Every (λ solver. solver ≡ spare) solvers.items }
    requires asked { IsAsked spare (length solvers.items) budget start }
    ensures found { IfOk result (IsFound spare start budget) }
    ensures tally { IfOk result (λ f. IsTallied 1024 (length solvers.items) f.journals f.tally) }
{
    search_as::<Brand, S, G, R>(rt, alloc, solvers, spare, budget, start, gate)
}
