//! What a worker ends nodes with.
ghost use Rattle.std.specs.Prelude.{◌≡◌, ◌≤◌, ◌+◌};
ghost use Rattle.stow_data.specs.Shipment.{IsCargo, most_cost};
ghost use Rattle.node_solver.specs.Work.{IsNode, begins_at, most_at, Works};

use crate::solver::Solver;
use crate::worked::Worked;
use certificate::Node;
use std::alloc::Global;
use std::marker;

/// What a worker ends nodes with. Contracts see the voyage alone, so a used one does what a fresh one does.
#[derive(Drop)]
pub struct NodeSolver<S: Solver> {
    solver: S,
}

impl<S: Solver> marker::Model for NodeSolver<S> {
    ghost use Rattle.zero_one_rows.specs.Variables.{Voyage};

    ghost Value = { Voyage };

    ghost view = { λ d. S.voyage d.solver };
}

impl<S: Solver> NodeSolver<S> {
    /// The one with this solver.
    pub fn of(solver: S) -> NodeSolver<S>
        ensures { result ≡ S.voyage solver }
    {
        NodeSolver { solver }
    }

    /// Ends a node against a cut, the cost below which a solution is of use.
    pub fn work(&mut self, alloc: Global, node: &Node, cut: u64) -> Worked
        requires cargo { IsCargo self.old.cargo }
        requires trail { IsNode self.old node.now }
        requires cut { cut ≤ most_cost self.old.cargo + 1 }
        ensures same { self.new ≡ self.old }
        ensures worked { Works self.old (begins_at self.old node.now) (most_at node.now) cut result }
    {
        self.solver.work(alloc, node, cut)
    }
}
