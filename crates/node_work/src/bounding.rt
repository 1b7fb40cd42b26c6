//! What the root alone tells of all voyages.
ghost use Rattle.std.specs.Prelude.{◌≡◌, ◌≤◌, ◌+◌};
ghost use Rattle.stow_data.specs.Shipment.{IsCargo, most_cost};
ghost use Rattle.zero_one_rows.specs.Variables.{Voyage};
ghost use Rattle.node_solver.specs.Work.{IsNode};

use crate::state::WorkerState;
use crate::tables::Tables;
use certificate::{Node, Path, Trail};
use heuristic::Planner;
use node_solver::Worked;
use partial_plan::BaseMatrix;
use std::alloc::Global;
use stow_data::NoMemory;
use zero_one_model::Model;

// The root.
fn root(alloc: Global) -> Node
    ensures { (m : Voyage) → IsNode m result }
{
    Node {
        path: Path::new(alloc),
        trail: Trail::new(alloc),
    }
}

// A cut that the program allows: this one or the greatest.
#[tactic(auto, using(crate::proofs::Ends::cost_low))]
fn cut_at(model: &Model, most: u64) -> u64
    requires { IsCargo model.now.cargo }
    ensures { result ≤ most_cost model.now.cargo + 1 }
{
    most.min(model.limit() + 1)
}

// What the root tells at a cut.
fn bound_at(alloc: Global, tables: &Tables, cut: u64) -> Result<u64, NoMemory>
    requires cargo { IsCargo tables.now.cargo }
    requires cut { cut ≤ most_cost tables.now.cargo + 1 }
{
    let planner = Planner::new(alloc, tables.model())?;
    let mut state = WorkerState::fresh(alloc, tables, planner)?;
    match state.work(alloc, &root(alloc), cut) {
        Worked::Closed(_) => Ok(cut),
        Worked::Branched(_) => Ok(state.bound()),
        Worked::Full { cost, .. } => Ok(cost),
        Worked::NoMemory => Err(NoMemory),
    }
}

/// What each voyage costs at least, as far as the root tells; at most this number. It is a hint, of which nothing is said.
pub fn root_bound(alloc: Global, model: &Model, most: u64) -> Result<u64, NoMemory>
    requires { IsCargo model.now.cargo }
{
    let matrix = BaseMatrix::build(alloc, model)?;
    let tables = Tables::build(alloc, &matrix);
    bound_at(alloc, &tables, cut_at(model, most))
}
