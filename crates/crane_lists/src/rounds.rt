//! One round of a crane list.
ghost use Rattle.std.specs.Prelude.{◌≡◌, ◌⊎◌, ◌↔◌, ◌<◌, ◌≤◌, ◌++◌, ◌∷◌, [], ℕ, List, true, false, All, Any, IfOk, IsTrue, MatchBool, OnOk, length};
ghost use Rattle.crane_lists.specs.Rounds as words;
ghost use Rattle.crane_lists.specs.Sharing.{Holds, HoldsFrom, IsBoard, IsFar, IsMaking, IsNear, IsSettled, MayGo, MayNotGo, entered, is_set, place_for};

use crate::bays::bay_of_move;
use crate::pairs::are_independent;
use crate::tasks::Task;
use std::alloc::Global;
use stow_data::{FlagList, NoMemory, Seq, Ship};

/// A round: the places in the list of moves of those that are done at once, by rising bay; the k-th is the k-th crane's.
pub type Round = Seq<usize>;

/// The rounds of a crane list.
pub type Rounds = Seq<Round>;

/// How far the sharing has come.
#[derive(Drop)]
pub struct Board {
    pub rounds: Rounds,
    /// For each task whether it stands in a round.
    pub done: FlagList,
    /// For each task a number of tasks, from the first one on, none of which holds it up any more.
    pub clear_to: Seq<usize>,
}

/// Whether a task holds another one up: it stands in no round, and they aren't independent.
fn holds(ship: &Ship, tasks: &[Task], done: &FlagList, i: usize, j: usize) -> bool
    requires first { i < length tasks.now }
    requires second { j < length tasks.now }
    requires each { length done.now ≡ length tasks.now }
    ensures { MatchBool result (Holds ship.now tasks.now done.now i j) (IsSettled ship.now tasks.now done.now i j) }
{
    if *done.at(i) {
        return false;
    }
    !are_independent(ship, &tasks[i], &tasks[j])
}

/// The first task from one on that holds another one up, or that other one.
fn first_holding(ship: &Ship, tasks: &[Task], done: &FlagList, from: usize, j: usize) -> usize
    requires order { from ≤ j }
    requires inside { j < length tasks.now }
    requires each { length done.now ≡ length tasks.now }
    requires settled { (i : ℕ) → i < from → IsSettled ship.now tasks.now done.now i j }
    ensures inside { result ≤ j }
    ensures settled { (i : ℕ) → i < result → IsSettled ship.now tasks.now done.now i j }
    ensures holds { result < j → Holds ship.now tasks.now done.now result j }
{
    for i in from..j {
        if holds(ship, tasks, done, i, j) {
            return i;
        }
    }
    j
}

/// Whether a task may go: it stands in no round, and none before it holds it up.
fn may_go(ship: &Ship, tasks: &[Task], board: &mut Board, j: usize) -> bool
    requires inside { j < length tasks.now }
    requires board { IsBoard ship.now tasks.now board.old.done board.old.clear_to }
    ensures answer { MatchBool result (MayGo ship.now tasks.now board.old.done j) (MayNotGo ship.now tasks.now board.old.done j) }
    ensures board { IsBoard ship.now tasks.now board.new.done board.new.clear_to }
    ensures done { board.new.done ≡ board.old.done }
    ensures rounds { board.new.rounds ≡ board.old.rounds }
{
    if *board.done.at(j) {
        return false;
    }
    let first = first_holding(ship, tasks, &board.done, *board.clear_to.at(j), j);
    board.clear_to.set(j, first);
    first >= j
}

/// The bay of a task.
fn bay_at(ship: &Ship, tasks: &[Task], i: usize) -> u32
    requires { i < length tasks.now }
    ensures { result ≡ words.bay_at ship.now tasks.now i }
{
    bay_of_move(ship, tasks[i].step)
}

/// Whether the bays of two tasks are nearer than 8.
fn is_near(ship: &Ship, tasks: &[Task], i: usize, j: usize) -> bool
    requires first { i < length tasks.now }
    requires second { j < length tasks.now }
    ensures { MatchBool result (IsNear ship.now tasks.now j i) (IsFar ship.now tasks.now j i) }
{
    bay_at(ship, tasks, i).abs_diff(bay_at(ship, tasks, j)) < 8
}

/// Whether a round has a task whose bay is too near.
fn has_near(ship: &Ship, tasks: &[Task], round: &[usize], j: usize) -> bool
    requires first { All (λ i. i < length tasks.now) round.now }
    requires second { j < length tasks.now }
    ensures { MatchBool result (Any (IsNear ship.now tasks.now j) round.now) (All (IsFar ship.now tasks.now j) round.now) }
{
    for i in round {
        if is_near(ship, tasks, *i, j) {
            return true;
        }
    }
    false
}

/// At how many tasks of a round a task enters it, by rising bay.
fn place_for(ship: &Ship, tasks: &[Task], round: &[usize], j: usize) -> usize
    requires first { All (λ i. i < length tasks.now) round.now }
    requires second { j < length tasks.now }
    ensures { result ≡ place_for ship.now tasks.now j round.now }
{
    let bay = bay_at(ship, tasks, j);
    for (place, i) in round.iter().enumerate() {
        if bay_at(ship, tasks, *i) >= bay {
            return place;
        }
    }
    round.len()
}

/// Enters a task into a round.
fn enter(ship: &Ship, tasks: &[Task], round: &mut Vec<usize>, j: usize) -> Result<(), NoMemory>
    requires first { All (λ i. i < length tasks.now) round.old.items }
    requires second { j < length tasks.now }
    ensures { OnOk result (round.new.items ≡ entered ship.now tasks.now j round.old.items) }
{
    let place = place_for(ship, tasks, round.as_slice(), j);
    round.insert(place, j)?;
    Ok(())
}

/// Enters a task into a round where it may go, the round has room and none is too near.
fn consider(
    ship: &Ship,
    tasks: &[Task],
    cranes: u32,
    j: usize,
    board: &mut Board,
    round: &mut Vec<usize>,
) -> Result<(), NoMemory>
    requires inside { j < length tasks.now }
    requires board { IsBoard ship.now tasks.now board.old.done board.old.clear_to }
    requires places { All (λ i. i < length tasks.now) round.old.items }
    ensures makes { (tried : List ℕ) → IsMaking ship.now tasks.now cranes board.old.done tried round.old.items → OnOk result (IsMaking ship.now tasks.now cranes board.old.done (tried ++ j ∷ []) round.new.items) }
    ensures board { IsBoard ship.now tasks.now board.new.done board.new.clear_to }
    ensures done { board.new.done ≡ board.old.done }
    ensures rounds { board.new.rounds ≡ board.old.rounds }
{
    if !may_go(ship, tasks, board, j) {
        return Ok(());
    }
    if round.len() >= cranes as usize {
        return Ok(());
    }
    if has_near(ship, tasks, round.as_slice(), j) {
        return Ok(());
    }
    enter(ship, tasks, round, j)?;
    Ok(())
}

/// The next round: of the tasks in this order each that may go, while the round has room and none in it is too near.
pub fn next_round(
    alloc: Global,
    ship: &Ship,
    tasks: &[Task],
    cranes: u32,
    order: &[usize],
    board: &mut Board,
) -> Result<Round, NoMemory>
    requires board { IsBoard ship.now tasks.now board.old.done board.old.clear_to }
    requires inside { All (λ j. j < length tasks.now) order.now }
    ensures makes { IfOk result (λ round. IsMaking ship.now tasks.now cranes board.old.done order.now round) }
    ensures board { IsBoard ship.now tasks.now board.new.done board.new.clear_to }
    ensures done { board.new.done ≡ board.old.done }
    ensures rounds { board.new.rounds ≡ board.old.rounds }
{
    let mut round = Vec::new(alloc);
    for j in order {
        consider(ship, tasks, cranes, *j, board, &mut round)?;
    }
    Seq::of(alloc, round.as_slice())
}
