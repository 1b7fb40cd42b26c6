//! Sharing the moves of a call out to cranes.
ghost use Rattle.std.specs.Prelude.{◌≡◌, ◌⊎◌, ◌↔◌, ◌<◌, ◌≤◌, ℕ, true, All, IfOk, IsTrue, OnOk, [], length};
ghost use Rattle.crane_lists.specs.Tasks.{tasks_with};
ghost use Rattle.crane_lists.specs.Rounds.{In, IsCraneList, IsGreedy};
ghost use Rattle.crane_lists.specs.Sharing.{HasAll, IsFurther, IsMaking, IsShared, is_set};

use crate::ordering::order_of;
use crate::rounds::{Board, Round, Rounds, next_round};
use crate::tasks::{ContainerList2, Task};
use std::alloc::Global;
use stow_data::{FlagList, NoMemory, Seq, Ship};
use voyage_meaning::MoveList;

/// Moves with what each lifts or puts.
fn pair_up(alloc: Global, moves: &MoveList, lifted: &ContainerList2) -> Result<Seq<Task>, NoMemory>
    requires { length lifted.now ≡ length moves.now }
    ensures { IfOk result (λ tasks. tasks ≡ tasks_with moves.now lifted.now) }
{
    let mut tasks = Seq::new(alloc);
    for i in 0..moves.len() {
        tasks.push(Task {
            step: *moves.at(i),
            container: *lifted.at(i),
        })?;
    }
    Ok(tasks)
}

/// Marks the tasks of a round.
fn mark(done: &mut FlagList, round: &[usize])
    requires { All (λ i. i < length done.old) round.now }
    ensures marks { (i : ℕ) → (is_set done.new i ≡ true) ↔ ((is_set done.old i ≡ true) ⊎ In i round.now) }
    ensures same_length { length done.new ≡ length done.old }
{
    for i in round {
        done.set(*i, true);
    }
}

/// Whether all flags are set.
fn are_set(flags: &FlagList) -> bool
    ensures { IsTrue result ↔ All (λ b. b ≡ true) flags.now }
{
    flags.iter().all(|flag| *flag)
}

/// Makes one round more.
fn add_round(
    alloc: Global,
    ship: &Ship,
    tasks: &[Task],
    cranes: u32,
    order: &[usize],
    board: &mut Board,
) -> Result<(), NoMemory>
    requires some_crane { 1 ≤ cranes }
    requires all { HasAll (length tasks.now) order.now }
    requires so_far { IsShared ship.now tasks.now cranes board.old }
    requires left { All (λ b. b ≡ true) board.old.done → ⊥ }
    ensures { OnOk result (IsFurther ship.now tasks.now cranes board.old board.new) }
{
    let round = next_round(alloc, ship, tasks, cranes, order, board)?;
    mark(&mut board.done, round.as_slice());
    board.rounds.push(round)?;
    Ok(())
}

/// Makes rounds until each task stands in one.
fn share_out(
    alloc: Global,
    ship: &Ship,
    tasks: &[Task],
    cranes: u32,
    order: &[usize],
) -> Result<Rounds, NoMemory>
    requires some_crane { 1 ≤ cranes }
    requires all { HasAll (length tasks.now) order.now }
    ensures shared { IfOk result (λ rounds. IsCraneList ship.now tasks.now cranes rounds) }
    ensures greedy { IfOk result (λ rounds. IsGreedy ship.now tasks.now cranes [] rounds) }
{
    let mut board = Board {
        rounds: Seq::new(alloc),
        done: Seq::filled(alloc, false, tasks.len())?,
        clear_to: Seq::filled(alloc, 0, tasks.len())?,
    };
    while !are_set(&board.done) {
        add_round(alloc, ship, tasks, cranes, order, &mut board)?;
    }
    Ok(board.rounds)
}

/// A crane list of moves for so many cranes: rounds, each of places in the list of moves by rising bay. Each move stands in exactly one round; those of a round are for different cranes, their bays at least 8 apart, and none hinders another; what depends on one another keeps the order of the list. Of the moves that may go in a round it takes first those with the longest chain of moves behind them, each of which hangs on the one before it or is of its bay, and it leaves none out that could go.
pub fn share(
    alloc: Global,
    ship: &Ship,
    moves: &MoveList,
    lifted: &ContainerList2,
    cranes: u32,
) -> Result<Rounds, NoMemory>
    requires some_crane { 1 ≤ cranes }
    requires one_length { length lifted.now ≡ length moves.now }
    ensures shared { IfOk result (λ rounds. IsCraneList ship.now (tasks_with moves.now lifted.now) cranes rounds) }
    ensures greedy { IfOk result (λ rounds. IsGreedy ship.now (tasks_with moves.now lifted.now) cranes [] rounds) }
{
    let tasks = pair_up(alloc, moves, lifted)?;
    let order = order_of(alloc, ship, &tasks)?;
    share_out(alloc, ship, &tasks, cranes, &order)
}
