//! The work on one node.
ghost use Rattle.std.specs.Prelude.{◌≡◌, ◌≤◌, ◌+◌, IfOk};
ghost use Rattle.stow_data.specs.Shipment.{IsCargo, most_cost};
ghost use Rattle.node_solver.specs.Work.{IsNode, begins_at, most_at, Works};

use crate::state::WorkerState;
use crate::tables::Tables;
use certificate::Node;
use heuristic::Planner;
use node_solver::Worked;
use partial_plan::BaseMatrix;
use std::alloc::Global;
use stow_data::NoMemory;
use zero_one_model::Model;

/// The most raises of a node.
pub fn most_raises(node: &Node) -> u32
    ensures { result ≡ most_at node.now }
{
    if node.path.is_empty() { 4096 } else { 64 }
}

/// How many voyages are tried at most for the branch of a node.
pub const MOST_RUNS: u32 = 100;

/// After how many looks at places none is begun, so that large ships have fewer.
pub const MOST_LOOKS: u64 = 5_000;

// The work on a node with a state that is made for it; want of memory is an error.
fn work_by(alloc: Global, tables: &Tables, node: &Node, cut: u64) -> Result<Worked, NoMemory>
    requires cargo { IsCargo tables.now.cargo }
    requires trail { IsNode tables.now node.now }
    requires cut { cut ≤ most_cost tables.now.cargo + 1 }
    ensures { IfOk result (Works tables.now (begins_at tables.now node.now) (most_at node.now) cut) }
{
    let planner = Planner::new(alloc, tables.model())?;
    let mut state = WorkerState::fresh(alloc, tables, planner)?;
    Ok(state.work(alloc, node, cut))
}

// The same over tables that are built for it.
fn work_afresh(alloc: Global, model: &Model, node: &Node, cut: u64) -> Result<Worked, NoMemory>
    requires cargo { IsCargo model.now.cargo }
    requires trail { IsNode model.now node.now }
    requires cut { cut ≤ most_cost model.now.cargo + 1 }
    ensures { IfOk result (Works model.now (begins_at model.now node.now) (most_at node.now) cut) }
{
    let matrix = BaseMatrix::build(alloc, model)?;
    let tables = Tables::build(alloc, &matrix);
    work_by(alloc, &tables, node, cut)
}

/// Ends a node against a cut, the cost below which a solution is of use, with a state that is made for it.
///
/// The box of the node is tightened by base rows for as long as one of them forces a variable. Then multipliers are raised, at most 4,096 times at the root and 64 times elsewhere, until the box closes or nothing more raises its dual value. A box that stays open is divided by a free variable; a full box that costs less than the cut is a solution.
pub fn work(alloc: Global, model: &Model, node: &Node, cut: u64) -> Worked
    requires cargo { IsCargo model.now.cargo }
    requires trail { IsNode model.now node.now }
    requires cut { cut ≤ most_cost model.now.cargo + 1 }
    ensures { Works model.now (begins_at model.now node.now) (most_at node.now) cut result }
{
    match work_afresh(alloc, model, node, cut) {
        Ok(worked) => worked,
        Err(NoMemory) => Worked::NoMemory,
    }
}
