//! What workers are given, before any node is handled.
ghost use Rattle.std.specs.Prelude.{◌≡◌, ◌+◌, ◌<◌, ◌≤◌, ℕ, IfOk, OnOk, length, map};
ghost use Rattle.certificate.specs.declared.nodes.Node.{Node};
ghost use Rattle.shared_search.specs.Racks.{IsPassAt, IsFresh, number_of, room_at, took_weight, put_weight};
ghost use Rattle.search_core.specs.Bags.{weigh, Every};
ghost use Rattle.parallel_search.specs.Ends.{HasPutFew, IsWorkerStart, start_number};
ghost use Rattle.parallel_search.specs.Starts.{IsMaker, first_node, seed_at};

use crate::slots::WorkerStart;
use crate::threading::Shared;
use certificate::{Node, Path, Trail};
use node_solver::{NodeSolver, Solver};
use shared_search::{Owner, Pass, Rack, Wanted};
use std::alloc::Global;
use steal_pool::lay;
use stow_data::NoMemory;

// The root of the search.
fn root(alloc: Global) -> Node
    ensures { result ≡ first_node }
{
    Node {
        path: Path::new(alloc),
        trail: Trail::new(alloc),
    }
}

// What the first worker begins with: the root on its deque.
fn put_root<M: Wanted>(
    alloc: Global,
    rack: &Rack<M>,
    pass: &mut Pass<M>,
    aside: &mut Vec<Node>,
) -> Result<(), NoMemory>
    requires pass { IsPassAt rack.now pass.old }
    requires aside { Every M.meets aside.old.items }
    requires root { M.meets first_node }
    ensures pass { IsPassAt rack.now pass.new }
    ensures number { pass.new.number ≡ pass.old.number }
    ensures aside { OnOk result (Every M.meets aside.new.items) }
    ensures took { (h : Node → ℕ) → took_weight h pass.new ≡ took_weight h pass.old }
    ensures bag { OnOk result ((h : Node → ℕ) → put_weight h pass.new + weigh h aside.new.items ≡ put_weight h pass.old + weigh h aside.old.items + seed_at h pass.old.number) }
    ensures within { OnOk result (HasPutFew (room_at rack.now) pass.new → aside.new.items ≡ aside.old.items) }
{
    if pass.number == 0 {
        return lay(rack, pass, aside, root(alloc));
    }
    Ok(())
}

// What a worker is given.
fn begin<M: Wanted, S: Solver>(
    alloc: Global,
    shared: &Shared<M, S>,
    owner: &mut Owner,
    pass: Pass<M>,
    solver: NodeSolver<S>,
) -> Result<WorkerStart<M, S>, NoMemory>
    requires maker { IsMaker M.meets shared.now.board shared.now.spare owner.old }
    requires room { owner.old.view.made < 65536 }
    requires pass { IsPassAt shared.now.rack pass × IsFresh pass }
    requires solver { solver ≡ shared.now.spare }
    ensures worker_start { IfOk result (IsWorkerStart M.meets shared.now.rack shared.now.board shared.now.spare) }
    ensures number { IfOk result (λ worker_start. worker_start.pass.number ≡ pass.number) }
    ensures maker { IsMaker M.meets shared.now.board shared.now.spare owner.new }
    ensures made { owner.new.view.made ≡ owner.old.view.made + 1 }
{
    let seat = shared.board.split(owner);
    let mut pass = pass;
    let mut aside = Vec::new(alloc);
    match put_root(alloc, &shared.rack, &mut pass, &mut aside) {
        Ok(()) => Ok(WorkerStart {
            pass,
            seat,
            solver,
            aside,
        }),
        Err(no) => {
            drop(pass);
            drop(seat);
            drop(solver);
            drop(aside);
            Err(no)
        }
    }
}

// What each worker is given: a pass, in their order, and a solver, the last one first.
fn begin_each<M: Wanted, S: Solver>(
    alloc: Global,
    shared: &Shared<M, S>,
    owner: &mut Owner,
    passes: Vec<Pass<M>>,
    solvers: &mut Vec<NodeSolver<S>>,
) -> Result<Vec<WorkerStart<M, S>>, NoMemory>
    requires maker { IsMaker M.meets shared.now.board shared.now.spare owner.old }
    requires room { owner.old.view.made + length passes.items ≤ 65536 }
    requires passes { Every (IsPassAt shared.now.rack) passes.items }
    requires fresh { Every IsFresh passes.items }
    requires solvers { Every (λ solver. solver ≡ shared.now.spare) solvers.old.items }
    requires enough { length passes.items ≤ length solvers.old.items }
    ensures worker_starts { IfOk result (λ worker_starts. Every (IsWorkerStart M.meets shared.now.rack shared.now.board shared.now.spare) worker_starts.items) }
    ensures numbers { IfOk result (λ worker_starts. map start_number worker_starts.items ≡ map number_of passes.items) }
    ensures maker { IsMaker M.meets shared.now.board shared.now.spare owner.new }
    ensures made { OnOk result (owner.new.view.made ≡ owner.old.view.made + length passes.items) }
{
    let mut worker_starts = Vec::new(alloc);
    for pass in passes {
        let Some(solver) = solvers.pop() else {
            unreachable!()
        };
        let worker_start = begin(alloc, shared, owner, pass, solver)?;
        worker_starts.push(worker_start)?;
    }
    Ok(worker_starts)
}

/// What each worker is given, one for each pass: a solver each, the first worker the last one.
pub fn begin_all<M: Wanted, S: Solver>(
    alloc: Global,
    shared: &Shared<M, S>,
    owner: &mut Owner,
    passes: Vec<Pass<M>>,
    mut solvers: Vec<NodeSolver<S>>,
) -> Result<Vec<WorkerStart<M, S>>, NoMemory>
    requires maker { IsMaker M.meets shared.now.board shared.now.spare owner.old }
    requires room { owner.old.view.made + length passes.items ≤ 65536 }
    requires passes { Every (IsPassAt shared.now.rack) passes.items }
    requires fresh { Every IsFresh passes.items }
    requires solvers { Every (λ solver. solver ≡ shared.now.spare) solvers.items }
    requires enough { length passes.items ≤ length solvers.items }
    ensures worker_starts { IfOk result (λ worker_starts. Every (IsWorkerStart M.meets shared.now.rack shared.now.board shared.now.spare) worker_starts.items) }
    ensures numbers { IfOk result (λ worker_starts. map start_number worker_starts.items ≡ map number_of passes.items) }
    ensures maker { IsMaker M.meets shared.now.board shared.now.spare owner.new }
    ensures made { OnOk result (owner.new.view.made ≡ owner.old.view.made + length passes.items) }
{
    let worker_starts = begin_each(alloc, shared, owner, passes, &mut solvers);
    drop(solvers);
    worker_starts
}
