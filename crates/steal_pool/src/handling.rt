//! The work on one node by the best value that all know.
ghost use Rattle.std.specs.Prelude.{◌≡◌, ◌≤◌, ◌+◌, ℕ, IfOk};
ghost use Rattle.stow_data.specs.Shipment.{IsCargo, most_cost};
ghost use Rattle.node_solver.specs.Work.{IsNode, node_of};
ghost use Rattle.steal_pool.specs.Handling.{IsHandled};
ghost use Rattle.steal_pool.specs.UnderWay.{Tells};
ghost use Rattle.steal_pool.specs.Deeds.{EachHalf, Flow, IsDone, halves_weight, on_nodes};

use crate::deeds::{Deeds, Halves};
use certificate::Node;
use node_solver::{NodeSolver, Solver, Worked};
use shared_search::{Board, Seat};
use std::alloc::Global;
use stow_data::NoMemory;

// Offers the cost of a full box.
fn tell(board: &Board, seat: &mut Seat, ended: &Worked)
    requires { seat.old.board ≡ board.now.id }
    ensures seat { seat.new.board ≡ seat.old.board }
    ensures told { Tells ended.now seat.old.view seat.new.view }
{
    if let Worked::Full { cost, .. } = ended {
        board.offer(seat, *cost);
    }
}

/// Handles a node for which a ticket was drawn: with the worker's solver, against the best value.
pub fn handle<S: Solver>(
    alloc: Global,
    solver: &mut NodeSolver<S>,
    board: &Board,
    seat: &mut Seat,
    deeds: &mut Deeds,
    node: Node,
) -> Result<Option<Halves>, NoMemory>
    requires cargo { IsCargo solver.old.cargo }
    requires start { seat.old.view.start ≤ most_cost solver.old.cargo + 1 }
    requires seat { seat.old.board ≡ board.now.id }
    requires node { IsNode solver.old node }
    ensures same { solver.new ≡ solver.old }
    ensures seat { seat.new.board ≡ seat.old.board }
    ensures over { seat.new.view.over ≡ seat.old.view.over }
    ensures tickets { seat.new.view.tickets ≡ seat.old.view.tickets }
    ensures handled { IfOk result (IsHandled solver.old node seat.old.view seat.new.view deeds.old deeds.new) }
    ensures halves { IfOk result (EachHalf (IsNode solver.old)) }
    ensures done { IfOk result (λ halves. (start : ℕ) (came gone : Flow) → IsDone solver.old start seat.old.view 1 deeds.old came (λ h. gone h + h (node_of solver.old node))
        → IsDone solver.old start seat.new.view 0 deeds.new came (λ h. gone h + halves_weight (on_nodes solver.old h) halves)) }
{
    let cut = board.best(seat);
    let ended = solver.work(alloc, &node, cut);
    tell(board, seat, &ended);
    deeds.end(alloc, node, ended)
}
