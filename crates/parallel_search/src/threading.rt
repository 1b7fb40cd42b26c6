//! Workers in threads.
ghost use Rattle.std.specs.Prelude.{◌≡◌, ℕ, ◌<◌, [], All, IfOk, length, map, slice_index_or};
ghost use Rattle.shared_search.specs.Racks.{IsPassAt, room_at};
ghost use Rattle.shared_search.specs.Bags.{Each};
ghost use Rattle.steal_pool.specs.Jobs.{IsJob};
ghost use Rattle.parallel_search.specs.declared.slots.WorkerSlot.TheVariants.{Given, Done};
ghost use Rattle.parallel_search.specs.Ends.{BringsOwn, IsWorkerStart, IsWorkerEnd, IsReturned, IsGiven, Brings};

use crate::slots::{WorkerEnd, WorkerSlot, WorkerStart};
use node_solver::{NodeSolver, Solver};
use shared_search::{Board, Rack, Wanted};
use std::alloc::Global;
use std::sync::Wait;
use std::thread::Threads;
use std::{mem, thread};
use steal_pool::{Deeds, Job, Signs, serve};
use stow_data::NoMemory;
use stow_io::Gate;

/// The most workers of a search.
const MOST_WORKERS: usize = 16;

/// What all workers of a search share, and a solver for what they leave.
#[derive(Drop)]
pub struct Shared<M: Wanted, S: Solver> {
    pub rack: Rack<M>,
    pub board: Board,
    pub signs: Signs,
    pub spare: NodeSolver<S>,
}

// What a worker brings back, once its solver is put away.
fn worker_end_of<M: Wanted, S: Solver>(job: Job<M, S>) -> WorkerEnd<M>
    ensures pass { result.pass ≡ job.pass }
    ensures seat { result.seat ≡ job.seat }
    ensures deeds { result.deeds ≡ job.deeds }
    ensures aside { result.aside ≡ job.aside }
{
    let Job {
        pass,
        seat,
        solver,
        turns: _,
        deeds,
        aside,
    } = job;
    drop(solver);
    WorkerEnd {
        pass,
        seat,
        deeds,
        aside,
    }
}

// Takes a worker's turns, with the solver that it has.
fn serve_on<M: Wanted, S: Solver, G: Gate, R: Wait>(
    rt: &R,
    alloc: Global,
    shared: &Shared<M, S>,
    gate: &G,
    job: Job<M, S>,
) -> Result<WorkerEnd<M>, NoMemory>
    requires job { IsJob M.meets shared.now.rack shared.now.board job.solver 0 [] job }
    requires none_over { job.seat.view.over ≡ 0 }
    ensures { IfOk result (λ worker_end. IsWorkerEnd M.meets shared.now.board job.solver worker_end × IsPassAt shared.now.rack worker_end.pass × (worker_end.pass.number ≡ job.pass.number) × (worker_end.seat.board ≡ shared.now.board.id) × BringsOwn (room_at shared.now.rack) worker_end) }
{
    let served = serve(
        rt,
        alloc,
        &shared.rack,
        &shared.board,
        &shared.signs,
        gate,
        job,
    )?;
    Ok(worker_end_of(served))
}

// Takes a worker's turns.
fn take_turns<M: Wanted, S: Solver, G: Gate, R: Wait>(
    rt: &R,
    alloc: Global,
    shared: &Shared<M, S>,
    gate: &G,
    worker_start: WorkerStart<M, S>,
) -> Result<WorkerEnd<M>, NoMemory>
    requires { IsWorkerStart M.meets shared.now.rack shared.now.board shared.now.spare worker_start }
    ensures { IfOk result (IsReturned M.meets shared.now.rack shared.now.board shared.now.spare worker_start) }
{
    let WorkerStart {
        pass,
        seat,
        solver,
        aside,
    } = worker_start;
    let job = Job {
        pass,
        seat,
        solver,
        turns: 0,
        deeds: Deeds::none(alloc),
        aside,
    };
    serve_on(rt, alloc, shared, gate, job)
}

// A worker takes its turns, and leaves in its slot what it brings back. Where memory is wanting to it, it tells the others to stop: what it had is gone, so they might wait for nodes that nobody has.
fn run_worker<M: Wanted, S: Solver, G: Gate, R: Wait>(
    rt: &R,
    alloc: Global,
    shared: &Shared<M, S>,
    gate: &G,
    slot: &mut WorkerSlot<M, S>,
)
    requires { IsGiven M.meets shared.now.rack shared.now.board shared.now.spare slot.old }
    ensures { Brings M.meets shared.now.rack shared.now.board shared.now.spare slot.old slot.new }
{
    let worker_start = match mem::replace(slot, WorkerSlot::Empty) {
        WorkerSlot::Given(worker_start) => worker_start,
        WorkerSlot::Done(_) | WorkerSlot::Empty => unreachable!(),
    };
    match take_turns(rt, alloc, shared, gate, worker_start) {
        Ok(worker_end) => drop(mem::replace(slot, WorkerSlot::Done(worker_end))),
        Err(NoMemory) => shared.signs.stop(),
    }
}

// A slot for each worker.
fn give_all<M: Wanted, S: Solver>(
    alloc: Global,
    worker_starts: Vec<WorkerStart<M, S>>,
) -> Result<Vec<WorkerSlot<M, S>>, NoMemory>
    ensures { IfOk result (λ slots. slots.items ≡ map (λ worker_start. Given worker_start) worker_starts.items) }
{
    let mut slots = Vec::new(alloc);
    for worker_start in worker_starts {
        slots.push(WorkerSlot::Given(worker_start))?;
    }
    Ok(slots)
}

// What a worker brought back, where it came back.
fn worker_end_in<M: Wanted, S: Solver>(slot: WorkerSlot<M, S>) -> Result<WorkerEnd<M>, NoMemory>
    ensures { IfOk result (λ worker_end. slot ≡ Done worker_end) }
{
    match slot {
        WorkerSlot::Done(worker_end) => Ok(worker_end),
        WorkerSlot::Given(worker_start) => {
            drop(worker_start);
            Err(NoMemory)
        }
        WorkerSlot::Empty => Err(NoMemory),
    }
}

// What the workers brought back, where all came back.
fn all_worker_ends<M: Wanted, S: Solver>(
    alloc: Global,
    slots: Vec<WorkerSlot<M, S>>,
) -> Result<Vec<WorkerEnd<M>>, NoMemory>
    ensures { IfOk result (λ worker_ends. slots.items ≡ map (λ worker_end. Done worker_end) worker_ends.items) }
{
    let mut worker_ends = Vec::new(alloc);
    for slot in slots {
        worker_ends.push(worker_end_in(slot)?)?;
    }
    Ok(worker_ends)
}

// Each worker takes its turns in a thread, or, where none can be made, behind the others.
fn run_workers<M: Wanted + Send + Sync, S: Solver, G: Gate + Sync, R: Threads + Wait + Sync>(
    rt: &R,
    alloc: Global,
    shared: &Shared<M, S>,
    gate: &G,
    slots: &mut [WorkerSlot<M, S>],
)
    requires { All (IsGiven M.meets shared.now.rack shared.now.board shared.now.spare) slots.old }
    ensures length { length slots.new ≡ length slots.old }
    ensures each { (i : ℕ) (d : _) → i < length slots.old → Brings M.meets shared.now.rack shared.now.board shared.now.spare (slice_index_or slots.old i d) (slice_index_or slots.new i d) }
{
    thread::for_each_mut(
        rt,
        slots,
        MOST_WORKERS,
        &|_number: usize, slot: &mut WorkerSlot<M, S>|
            requires { IsGiven M.meets shared.now.rack shared.now.board shared.now.spare slot.now }
            ensures { Brings M.meets shared.entry.now.rack shared.entry.now.board shared.entry.now.spare slot.entry.now slot.exit.now }
        { run_worker(rt, alloc, shared, gate, slot) },
    );
}

/// Each worker takes its turns in a thread; where none can be made, one after another. Where memory is wanting to one, the others stop.
pub fn serve_all<M: Wanted + Send + Sync, S: Solver, G: Gate + Sync, R: Threads + Wait + Sync>(
    rt: &R,
    alloc: Global,
    shared: &Shared<M, S>,
    gate: &G,
    worker_starts: Vec<WorkerStart<M, S>>,
) -> Result<Vec<WorkerEnd<M>>, NoMemory>
    requires { All (IsWorkerStart M.meets shared.now.rack shared.now.board shared.now.spare) worker_starts.items }
    ensures { IfOk result (λ worker_ends. Each (IsReturned M.meets shared.now.rack shared.now.board shared.now.spare) worker_starts.items worker_ends.items) }
{
    let mut slots = give_all(alloc, worker_starts)?;
    run_workers(rt, alloc, shared, gate, slots.as_mut_slice());
    all_worker_ends(alloc, slots)
}
