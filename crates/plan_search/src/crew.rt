//! The search of a program over tables that are built for it.
ghost use Rattle.std.specs.Prelude.{◌≡◌, ◌<◌, ◌≤◌, ◌+◌, IfOk, length};
ghost use Rattle.stow_data.specs.Shipment.{IsCargo, most_cost};
ghost use Rattle.search_core.specs.Bags.{Every};
ghost use Rattle.steal_pool.specs.Found.{IsFound};
ghost use Rattle.parallel_search.specs.Starts.{IsAsked};
ghost use Rattle.parallel_search.specs.Tallied.{IsTallied};

use heuristic::Planner;
use node_solver::NodeSolver;
use node_work::{BaseMatrix, TableSolver, Tables};
use std::alloc::Global;
use std::sync::Wait;
use std::thread::Threads;
use steal_pool::Found;
use stow_data::NoMemory;
use stow_io::Gate;
use zero_one_model::Model;

// So many solvers over the tables. The last one, which is the first worker's, has this planner.
fn solvers_over<'a>(
    alloc: Global,
    tables: &'a Tables<'a>,
    planner: Planner,
    workers: usize,
) -> Result<Vec<NodeSolver<TableSolver<'a>>>, NoMemory>
    requires { 0 < workers }
    ensures many { IfOk result (λ solvers. length solvers.items ≡ workers) }
    ensures each { IfOk result (λ solvers. Every (λ solver. solver ≡ tables.now) solvers.items) }
{
    let mut solvers = Vec::new(alloc);
    for _ in 1..workers {
        let other = planner.beside(alloc)?;
        solvers.push(NodeSolver::of(TableSolver::new(tables, Some(other))))?;
    }
    solvers.push(NodeSolver::of(TableSolver::new(tables, Some(planner))))?;
    Ok(solvers)
}

// Searches with so many solvers over these tables.
fn search_together<G: Gate + Sync, R: Threads + Wait + Sync>(
    rt: &R,
    alloc: Global,
    tables: &Tables,
    planner: Planner,
    workers: usize,
    budget: u64,
    start: u64,
    gate: &G,
) -> Result<Found, NoMemory>
    requires { IsAsked tables.now workers budget start }
    ensures found { IfOk result (IsFound tables.now start budget) }
    ensures tally { IfOk result (λ f. IsTallied 1024 workers f.journals f.tally) }
{
    let solvers = solvers_over(alloc, tables, planner, workers)?;
    let spare = NodeSolver::of(TableSolver::new(tables, None));
    parallel_search::search(rt, alloc, solvers, spare, budget, start, gate)
}

// Searches over the matrix of the program's base rows.
fn search_over<G: Gate + Sync, R: Threads + Wait + Sync>(
    rt: &R,
    alloc: Global,
    matrix: &BaseMatrix,
    planner: Planner,
    workers: usize,
    budget: u64,
    start: u64,
    gate: &G,
) -> Result<Found, NoMemory>
    requires { IsAsked matrix.now workers budget start }
    ensures found { IfOk result (IsFound matrix.now start budget) }
    ensures tally { IfOk result (λ f. IsTallied 1024 workers f.journals f.tally) }
{
    let tables = Tables::build(alloc, matrix);
    search_together(rt, alloc, &tables, planner, workers, budget, start, gate)
}

/// Searches the program for a solution that costs less than the start, by 1 to 16 workers.
///
/// Each worker has a solver, and a deque from which the others steal. There is a journal for each, and a last one for the caller. A solver's planner chooses the variables by which boxes are divided: the first worker's goes on from the given one, the others begin beside it, and share what is the same in every voyage.
pub fn search_program<G: Gate + Sync, R: Threads + Wait + Sync>(
    rt: &R,
    alloc: Global,
    model: &Model,
    planner: Planner,
    workers: usize,
    budget: u64,
    start: u64,
    gate: &G,
) -> Result<Found, NoMemory>
    requires cargo { IsCargo model.now.cargo }
    requires workers { (0 < workers) × (workers ≤ 16) }
    requires nodes { budget ≤ 100000 }
    requires start { start ≤ most_cost model.now.cargo + 1 }
    ensures found { IfOk result (IsFound model.now start budget) }
    ensures tally { IfOk result (λ f. IsTallied 1024 workers f.journals f.tally) }
{
    match BaseMatrix::build(alloc, model) {
        Ok(matrix) => search_over(rt, alloc, &matrix, planner, workers, budget, start, gate),
        Err(no) => {
            drop(planner);
            Err(no)
        }
    }
}
