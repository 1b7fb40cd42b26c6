//! What is done when the threads have ended.
ghost use Rattle.std.specs.Prelude.{◌≡◌, ◌<◌, ◌≤◌, ◌+◌, true, false, ◌++◌, ◌∷◌, [], List, IfOk, OnOk};
ghost use Rattle.stow_data.specs.Shipment.{IsCargo, most_cost};
ghost use Rattle.node_solver.specs.Work.{IsNode};
ghost use Rattle.certificate.specs.declared.nodes.Node.{Node as Nodes};
ghost use Rattle.search_core.specs.Bags.{weigh, Every};
ghost use Rattle.steal_pool.specs.Deeds.{Flow, IsDone, on_nodes};
ghost use Rattle.parallel_search.specs.Ends.{AreUnder, IsRest, IsLive, halves_in};
ghost use Rattle.parallel_search.specs.Starts.{IsUnused};

use certificate::Node;
use node_solver::{NodeSolver, Solver};
use shared_search::{Board, Seat};
use std::alloc::Global;
use std::sync::Wait;
use steal_pool::{Deeds, Halves, handle};
use stow_data::NoMemory;

/// What is still to do, and what was done.
#[derive(Drop)]
pub struct Rest {
    pub todo: Vec<Node>,
    pub deeds: Deeds,
}

impl Rest {
    // Adds the halves of a node that was divided.
    fn add(&mut self, halves: Option<Halves>) -> Result<(), NoMemory>
        ensures todo { OnOk result (self.new.todo.items ≡ self.old.todo.items ++ halves_in halves) }
        ensures deeds { self.new.deeds ≡ self.old.deeds }
    {
        if let Some(Halves { zero, one }) = halves {
            self.todo.push(zero)?;
            self.todo.push(one)?;
        }
        Ok(())
    }

    // Handles a node for which a ticket was drawn.
    fn settle<S: Solver>(
        &mut self,
        alloc: Global,
        solver: &mut NodeSolver<S>,
        board: &Board,
        seat: &mut Seat,
        node: Node,
    ) -> Result<(), NoMemory>
        requires cargo { IsCargo solver.old.cargo }
        requires start { board.now.start ≤ most_cost solver.old.cargo + 1 }
        requires seat { seat.old.board ≡ board.now.id }
        requires rest { (all : Flow) × IsRest solver.old board.now.start seat.old.view 1 all (self.old.todo.items ++ node ∷ []) self.old.deeds }
        ensures same { solver.new ≡ solver.old }
        ensures seat { seat.new.board ≡ seat.old.board }
        ensures over { seat.new.view.over ≡ seat.old.view.over }
        ensures rest { OnOk result ((all : Flow) → IsRest solver.old board.now.start seat.old.view 1 all (self.old.todo.items ++ node ∷ []) self.old.deeds → IsRest solver.old board.now.start seat.new.view 0 all self.new.todo.items self.new.deeds) }
        ensures under { OnOk result ((first : List Nodes) → AreUnder first (self.old.todo.items ++ node ∷ []) self.old.deeds.journal → AreUnder first self.new.todo.items self.new.deeds.journal) }
    {
        let halves = handle(alloc, solver, board, seat, &mut self.deeds, node)?;
        self.add(halves)
    }

    // Draws a ticket for a node while there are any, and else leaves it.
    fn step<S: Solver>(
        &mut self,
        alloc: Global,
        solver: &mut NodeSolver<S>,
        board: &Board,
        seat: &mut Seat,
        node: Node,
        live: bool,
    ) -> Result<bool, NoMemory>
        requires cargo { IsCargo solver.old.cargo }
        requires start { board.now.start ≤ most_cost solver.old.cargo + 1 }
        requires seat { seat.old.board ≡ board.now.id }
        requires live { IsLive live seat.old.view }
        requires rest { (all : Flow) × IsRest solver.old board.now.start seat.old.view 0 all (self.old.todo.items ++ node ∷ []) self.old.deeds }
        ensures same { solver.new ≡ solver.old }
        ensures seat { seat.new.board ≡ seat.old.board }
        ensures live { IfOk result (λ live. IsLive live seat.new.view) }
        ensures rest { OnOk result ((all : Flow) → IsRest solver.old board.now.start seat.old.view 0 all (self.old.todo.items ++ node ∷ []) self.old.deeds → IsRest solver.old board.now.start seat.new.view 0 all self.new.todo.items self.new.deeds) }
        ensures under { OnOk result ((first : List Nodes) → AreUnder first (self.old.todo.items ++ node ∷ []) self.old.deeds.journal → AreUnder first self.new.todo.items self.new.deeds.journal) }
    {
        if live {
            if board.draw(seat).is_some() {
                self.settle(alloc, solver, board, seat, node)?;
                return Ok(true);
            }
        }
        self.deeds.left.push(node.path)?;
        Ok(false)
    }
}

// Handles what is to do, until nothing is.
fn finish_rest<S: Solver, R: Wait>(
    rt: &R,
    alloc: Global,
    solver: &mut NodeSolver<S>,
    board: &Board,
    seat: &mut Seat,
    rest: &mut Rest,
) -> Result<(), NoMemory>
    requires cargo { IsCargo solver.old.cargo }
    requires start { board.now.start ≤ most_cost solver.old.cargo + 1 }
    requires seat { seat.old.board ≡ board.now.id }
    requires none_over { seat.old.view.over ≡ 0 }
    requires rest { (all : Flow) × IsRest solver.old board.now.start seat.old.view 0 all rest.old.todo.items rest.old.deeds }
    ensures seat { seat.new.board ≡ seat.old.board }
    ensures done { OnOk result ((all : Flow) → IsRest solver.old board.now.start seat.old.view 0 all rest.old.todo.items rest.old.deeds → IsDone solver.old board.now.start seat.new.view 0 rest.new.deeds all (λ h. 0)) }
    ensures under { OnOk result ((first : List Nodes) → AreUnder first rest.old.todo.items rest.old.deeds.journal → AreUnder first [] rest.new.deeds.journal) }
{
    let mut live = true;
    for _ in rt.forever() {
        let Some(node) = rest.todo.pop() else {
            return Ok(());
        };
        live = rest.step(alloc, solver, board, seat, node, live)?;
    }
    unreachable!()
}

/// Handles these nodes and what comes of them while there are tickets, and leaves the others: with this solver, by a seat that has done nothing.
pub fn finish<S: Solver, R: Wait>(
    rt: &R,
    alloc: Global,
    solver: &mut NodeSolver<S>,
    board: &Board,
    seat: &mut Seat,
    todo: Vec<Node>,
) -> Result<Deeds, NoMemory>
    requires cargo { IsCargo solver.old.cargo }
    requires start { board.now.start ≤ most_cost solver.old.cargo + 1 }
    requires seat { seat.old.board ≡ board.now.id }
    requires view { IsUnused board.now.start seat.old.view }
    requires nodes { Every (IsNode solver.old) todo.items }
    ensures seat { seat.new.board ≡ seat.old.board }
    ensures done { IfOk result (λ deeds. IsDone solver.old board.now.start seat.new.view 0 deeds (λ h. weigh (on_nodes solver.old h) todo.items) (λ h. 0)) }
    ensures under { IfOk result (λ deeds. AreUnder todo.items [] deeds.journal) }
{
    let mut rest = Rest {
        todo,
        deeds: Deeds::none(alloc),
    };
    match finish_rest(rt, alloc, solver, board, seat, &mut rest) {
        Ok(()) => Ok(rest.deeds),
        Err(no) => Err(no),
    }
}
