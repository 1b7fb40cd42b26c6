//! What a worker keeps from node to node.
ghost use Rattle.std.specs.Prelude.{◌≡◌, ◌≤◌, ◌+◌, IfOk};
ghost use Rattle.stow_data.specs.Shipment.{IsCargo, most_cost};
ghost use Rattle.node_work.specs.DualStates.{IsDualState};
ghost use Rattle.node_work.specs.Positions.{IsPosition};
ghost use Rattle.node_solver.specs.Work.{IsNode, begins_at, most_at, Works};

use crate::dual_state::DualState;
use crate::ending::least_cost;
use crate::positions::TreePosition;
use crate::tables::Tables;
use crate::working::{MOST_LOOKS, MOST_RUNS, most_raises};
use certificate::Node;
use dual_bound::RowTable;
use heuristic::{HeuristicLimits, Planner};
use node_solver::Worked;
use std::alloc::Global;
use std::marker;
use stow_data::NoMemory;
use zero_one_model::Model;

/// A worker's box and multipliers, which go from a node to the next: back to the last record that both have in common, and on by the others. Contracts see the voyage alone, so a used state does what a fresh one does.
#[derive(Drop)]
pub struct WorkerState<'a> {
    tables: &'a Tables<'a>,
    planner: Planner,
    position: TreePosition<'a>,
    dual_state: DualState<'a>,
}

impl<'a> marker::Model for WorkerState<'a> {
    ghost use Rattle.zero_one_rows.specs.Variables.{Voyage};

    ghost Value = { Voyage };

    ghost use Rattle.node_work.specs.States.{voyage_of, IsState};

    ghost view = { voyage_of };

    ghost invariant = { IsState };
}

// The work on a node from where the last one left the box; want of memory is an error.
fn work_at_position(
    alloc: Global,
    model: &Model,
    table: &RowTable,
    planner: &mut Planner,
    position: &mut TreePosition,
    dual_state: &mut DualState,
    node: &Node,
    cut: u64,
) -> Result<Worked, NoMemory>
    requires table { table.now ≡ model.now }
    requires cargo { IsCargo model.now.cargo }
    requires position { IsPosition model.now position.old }
    requires dual_state { IsDualState model.now dual_state.old }
    requires trail { IsNode model.now node.now }
    requires cut { cut ≤ most_cost model.now.cargo + 1 }
    ensures position { IsPosition model.now position.new }
    ensures dual_state { IsDualState model.now dual_state.new }
    ensures worked { IfOk result (Works model.now (begins_at model.now node.now) (most_at node.now) cut) }
{
    let path = node.path.as_slice();
    position.walk_to(alloc, model, path, &node.trail)?;
    dual_state.price_along(alloc, model, table, &node.trail)?;
    let limits = HeuristicLimits {
        cut,
        enough: 0,
        runs: MOST_RUNS,
        looks: MOST_LOOKS,
    };
    let most = most_raises(node);
    position.end(alloc, model, table, planner, dual_state, most, limits)
}

// The work on a node from where the last one left the box.
fn work_at(
    alloc: Global,
    model: &Model,
    table: &RowTable,
    planner: &mut Planner,
    position: &mut TreePosition,
    dual_state: &mut DualState,
    node: &Node,
    cut: u64,
) -> Worked
    requires table { table.now ≡ model.now }
    requires cargo { IsCargo model.now.cargo }
    requires position { IsPosition model.now position.old }
    requires dual_state { IsDualState model.now dual_state.old }
    requires trail { IsNode model.now node.now }
    requires cut { cut ≤ most_cost model.now.cargo + 1 }
    ensures position { IsPosition model.now position.new }
    ensures dual_state { IsDualState model.now dual_state.new }
    ensures worked { Works model.now (begins_at model.now node.now) (most_at node.now) cut result }
{
    match work_at_position(
        alloc, model, table, planner, position, dual_state, node, cut,
    ) {
        Ok(worked) => worked,
        Err(NoMemory) => Worked::NoMemory,
    }
}

impl<'a> WorkerState<'a> {
    /// A state that has seen no node. The planner is to be one of the program's voyages; contracts hold with any.
    pub fn fresh(
        alloc: Global,
        tables: &'a Tables<'a>,
        planner: Planner,
    ) -> Result<WorkerState<'a>, NoMemory>
        ensures { IfOk result (λ state. state ≡ tables.now) }
    {
        let position = TreePosition::root(alloc, tables.matrix())?;
        let dual_state = DualState::start(alloc, tables.matrix())?;
        Ok(WorkerState {
            tables,
            planner,
            position,
            dual_state,
        })
    }

    /// The least cost that the last node's multipliers allow, as far as they tell.
    pub fn bound(&self) -> u64 {
        least_cost(self.dual_state.gauge.value())
    }

    /// Ends a node against a cut, as `work` does.
    pub fn work(&mut self, alloc: Global, node: &Node, cut: u64) -> Worked
        requires cargo { IsCargo self.old.cargo }
        requires trail { IsNode self.old node.now }
        requires cut { cut ≤ most_cost self.old.cargo + 1 }
        ensures same { self.new ≡ self.old }
        ensures worked { Works self.old (begins_at self.old node.now) (most_at node.now) cut result }
    {
        work_at(
            alloc,
            self.tables.model(),
            self.tables.rows(),
            &mut self.planner,
            &mut self.position,
            &mut self.dual_state,
            node,
            cut,
        )
    }
}
