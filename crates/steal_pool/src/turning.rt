//! One turn of a worker.
ghost use Rattle.std.specs.Prelude.{◌≡◌, ◌≢◌, IfOk, OnOk, ◌∷◌, []};
ghost use Rattle.steal_pool.specs.declared.turning.Turned.TheVariants.{Spent};
ghost use Rattle.steal_pool.specs.Jobs.{IsJob};
ghost use Rattle.steal_pool.specs.Turns.{CameTo, IsWorkedOff};

use crate::handling::handle;
use crate::job::Job;
use crate::signs::Signs;
use crate::taking::{get, lay_halves};
use certificate::Node;
use node_solver::Solver;
use shared_search::{Board, Rack, Wanted};
use std::alloc::Global;
use stow_data::NoMemory;
use stow_io::Gate;

/// What a turn came to.
pub enum Turned {
    /// A node was handled.
    Handled,
    /// There was none.
    Nothing,
    /// There was no ticket, and the node was left.
    Spent,
}

// Handles a node for which a ticket was drawn.
fn work_off<M: Wanted, S: Solver>(
    alloc: Global,
    rack: &Rack<M>,
    board: &Board,
    signs: &Signs,
    job: &mut Job<M, S>,
    node: Node,
) -> Result<(), NoMemory>
    requires job { IsJob M.meets rack.now board.now job.old.solver 1 (node ∷ []) job.old }
    ensures job { OnOk result (IsJob M.meets rack.now board.now job.old.solver 0 [] job.new) }
    ensures number { job.new.pass.number ≡ job.old.pass.number }
    ensures over { job.new.seat.view.over ≡ job.old.seat.view.over }
    ensures tickets { job.new.seat.view.tickets ≡ job.old.seat.view.tickets }
    ensures handled { OnOk result (IsWorkedOff job.old.solver node job.old job.new) }
{
    let halves = handle(
        alloc,
        &mut job.solver,
        board,
        &mut job.seat,
        &mut job.deeds,
        node,
    )?;
    signs.node_ended(halves.is_some());
    lay_halves(rack, &mut job.pass, &mut job.aside, halves)
}

/// One turn of a worker: it takes a node from those aside, else from its own deque, else from another worker; passes the gate; draws a ticket, and leaves the node where there is none; and else handles the node.
pub fn turn<M: Wanted, S: Solver, G: Gate>(
    alloc: Global,
    rack: &Rack<M>,
    board: &Board,
    signs: &Signs,
    gate: &G,
    job: &mut Job<M, S>,
) -> Result<Turned, NoMemory>
    requires job { IsJob M.meets rack.now board.now job.old.solver 0 [] job.old }
    requires none_over { job.old.seat.view.over ≡ 0 }
    ensures job { OnOk result (IsJob M.meets rack.now board.now job.old.solver 0 [] job.new) }
    ensures number { job.new.pass.number ≡ job.old.pass.number }
    ensures came { IfOk result (λ turned. CameTo job.old.solver turned job.old job.new) }
    ensures over { IfOk result (λ turned. turned ≢ Spent → job.new.seat.view.over ≡ 0) }
{
    let Some(node) = get(rack, &mut job.pass, &mut job.aside) else {
        return Ok(Turned::Nothing);
    };
    job.turns = job.turns.saturating_add(1);
    gate.before(job.pass.number as u32 + 1, job.turns);
    if board.draw(&mut job.seat).is_none() {
        job.deeds.left.push(node.path)?;
        return Ok(Turned::Spent);
    }
    work_off(alloc, rack, board, signs, job, node)?;
    Ok(Turned::Handled)
}
