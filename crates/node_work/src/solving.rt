//! The solver of a program's nodes that the workers of a search have.
ghost use Rattle.std.specs.Prelude.{◌≡◌, ◌≤◌, ◌+◌, IfOk, OnOk, IfSome};
ghost use Rattle.stow_data.specs.Shipment.{IsCargo, most_cost};
ghost use Rattle.zero_one_rows.specs.Variables.{Voyage};
ghost use Rattle.node_solver.specs.Work.{IsNode, begins_at, most_at, Works};

use crate::state::WorkerState;
use crate::tables::Tables;
use certificate::Node;
use heuristic::Planner;
use node_solver::{Solver, Worked};
use std::alloc::Global;
use std::marker;
use stow_data::NoMemory;

/// Ends nodes with a state over a program's tables, which is made when the first node comes, by the thread that works there. Its planner goes on where the given one stands, where there is one. Contracts see the voyage.
#[derive(Drop)]
pub struct TableSolver<'a> {
    tables: &'a Tables<'a>,
    planner: Option<Planner>,
    state: Option<WorkerState<'a>>,
}

impl<'a> marker::Model for TableSolver<'a> {
    ghost use Rattle.zero_one_rows.specs.Variables.{Voyage};

    ghost Value = { Voyage };

    ghost use Rattle.node_work.specs.Solvers.{voyage_of, IsSolver};

    ghost view = { voyage_of };

    ghost invariant = { IsSolver };
}

// A planner of the program's voyages, made by this thread: it goes on where the given one stands, where there is one.
fn planner_of(
    alloc: Global,
    tables: &Tables,
    given: &Option<Planner>,
) -> Result<Planner, NoMemory> {
    match given {
        Some(planner) => planner.moved(alloc),
        None => Planner::new(alloc, tables.model()),
    }
}

// A state over the tables, whose planner goes on where the given one stands, where there is one.
fn fresh_state<'a>(
    alloc: Global,
    tables: &'a Tables<'a>,
    given: &Option<Planner>,
) -> Result<WorkerState<'a>, NoMemory>
    ensures { IfOk result (λ state. state ≡ tables.now) }
{
    let planner = planner_of(alloc, tables, given)?;
    WorkerState::fresh(alloc, tables, planner)
}

impl<'a> TableSolver<'a> {
    /// A solver over these tables, whose planner goes on where this one stands. It takes no memory yet.
    pub fn new(tables: &'a Tables<'a>, planner: Option<Planner>) -> TableSolver<'a>
        ensures { result ≡ tables.now }
    {
        TableSolver {
            tables,
            planner,
            state: None,
        }
    }

    // Makes the state, where there is none yet.
    fn make_state(&mut self, alloc: Global) -> Result<(), NoMemory>
        ensures { self.new ≡ self.old }
    {
        if self.state.is_none() {
            self.state = Some(fresh_state(alloc, self.tables, &self.planner)?);
            self.planner = None;
        }
        Ok(())
    }

    // Ends a node with the state, where there is one.
    fn work_by_state(&mut self, alloc: Global, node: &Node, cut: u64) -> Worked
        requires cargo { IsCargo self.old.cargo }
        requires trail { IsNode self.old node.now }
        requires cut { cut ≤ most_cost self.old.cargo + 1 }
        ensures same { self.new ≡ self.old }
        ensures worked { Works self.old (begins_at self.old node.now) (most_at node.now) cut result }
    {
        let Some(state) = &mut self.state else {
            return Worked::NoMemory;
        };
        state.work(alloc, node, cut)
    }
}

impl<'a> Solver for TableSolver<'a> {
    ghost voyage = { λ m. m };

    fn work(&mut self, alloc: Global, node: &Node, cut: u64) -> Worked {
        match self.make_state(alloc) {
            Ok(()) => self.work_by_state(alloc, node, cut),
            Err(NoMemory) => Worked::NoMemory,
        }
    }
}
