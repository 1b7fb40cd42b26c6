//! What ends nodes.
ghost use Rattle.std.specs.Prelude.{◌≡◌, ◌≤◌, ◌+◌};
ghost use Rattle.stow_data.specs.Shipment.{IsCargo, most_cost};
ghost use Rattle.node_solver.specs.Work.{IsNode, begins_at, most_at, Works};

use crate::worked::Worked;
use certificate::Node;
use std::alloc::Global;

/// What ends the nodes of a program's search, one after another. Each worker has one of its own.
pub trait Solver: Drop + Send + Sync {
    ghost use Rattle.zero_one_rows.specs.Variables.{Voyage};

    /// The voyage whose program it is.
    ghost voyage: { Self → Voyage };

    /// Ends a node against a cut, the cost below which a solution is of use.
    fn work(&mut self, alloc: Global, node: &Node, cut: u64) -> Worked
        requires cargo { IsCargo (voyage self.old).cargo }
        requires trail { IsNode (voyage self.old) node.now }
        requires cut { cut ≤ most_cost (voyage self.old).cargo + 1 }
        ensures same { voyage self.new ≡ voyage self.old }
        ensures worked { Works (voyage self.old) (begins_at (voyage self.old) node.now) (most_at node.now) cut result };
}
