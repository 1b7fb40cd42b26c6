//! What a worker is given, and what it brings back.

use certificate::Node;
use node_solver::{NodeSolver, Solver};
use shared_search::{Pass, Seat, Wanted};
use steal_pool::Deeds;

/// What a worker is given: its pass to the rack, its seat at the board, its solver, and the nodes that its deque refused.
#[derive(Drop)]
pub struct WorkerStart<M: Wanted, S: Solver> {
    pub pass: Pass<M>,
    pub seat: Seat,
    pub solver: NodeSolver<S>,
    pub aside: Vec<Node>,
}

/// What a worker brings back: its pass and its seat, what it did, and the nodes that its deque refused.
#[derive(Drop)]
pub struct WorkerEnd<M: Wanted> {
    pub pass: Pass<M>,
    pub seat: Seat,
    pub deeds: Deeds,
    pub aside: Vec<Node>,
}

/// A worker's slot: what it is given, and then what it brings back. It is empty where memory was wanting to the worker.
#[derive(Drop)]
pub enum WorkerSlot<M: Wanted, S: Solver> {
    Given(WorkerStart<M, S>),
    Done(WorkerEnd<M>),
    Empty,
}
