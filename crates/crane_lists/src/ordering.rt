//! The order in which tasks are tried for a round: those first on which most depends.
ghost use Rattle.std.specs.Prelude.{◌≡◌, ◌<◌, IfOk, length};
ghost use Rattle.crane_lists.specs.Sharing.{HasAll};

use crate::bays::bay_of_move;
use crate::pairs::are_independent;
use crate::tasks::Task;
use std::alloc::Global;
use stow_data::{NoMemory, NumberList, Seq, Ship};

/// Whether a later task comes after this one in a chain: it hangs on it, or is of its bay, where one crane does one at a time.
fn follows(ship: &Ship, task: &Task, later: &Task) -> bool {
    bay_of_move(ship, task.step) == bay_of_move(ship, later.step)
        || !are_independent(ship, task, later)
}

/// The greatest length of a chain that begins at a later task which comes after this one.
fn longest_behind(ship: &Ship, tasks: &[Task], chains: &NumberList, i: usize) -> u32
    requires inside { i < length tasks.now }
    requires each { length chains.now ≡ length tasks.now }
{
    let mut longest = 0;
    for j in i + 1..tasks.len() {
        if follows(ship, &tasks[i], &tasks[j]) {
            longest = longest.max(*chains.at(j));
        }
    }
    longest
}

/// For each task the length of the longest chain of tasks from it on, each of which hangs on the one before it or is of its bay.
fn chains_of(alloc: Global, ship: &Ship, tasks: &[Task]) -> Result<NumberList, NoMemory>
    ensures { IfOk result (λ chains. length chains ≡ length tasks.now) }
{
    let count = tasks.len();
    let mut chains = Seq::filled(alloc, 0, count)?;
    for done in 0..count {
        let i = count - done - 1;
        let longest = longest_behind(ship, tasks, &chains, i);
        chains.set(i, longest.saturating_add(1));
    }
    Ok(chains)
}

/// What is sorted by: the longer the chain from a task on, the less.
fn key_of(chains: &NumberList, place: usize) -> u32 {
    match chains.as_slice().get(place) {
        Some(chain) => u32::MAX - *chain,
        None => u32::MAX,
    }
}

/// The places of a list, in its order.
fn places_of(alloc: Global, count: usize) -> Result<Vec<usize>, NoMemory>
    ensures { IfOk result (λ places. HasAll count places.items) }
{
    let mut places = Vec::new(alloc);
    for place in 0..count {
        places.push(place)?;
    }
    Ok(places)
}

/// The places of all tasks: those with the longest chain of tasks behind them first, of equal ones the earlier.
pub fn order_of(alloc: Global, ship: &Ship, tasks: &[Task]) -> Result<Seq<usize>, NoMemory>
    ensures { IfOk result (λ order. HasAll (length tasks.now) order) }
{
    let chains = chains_of(alloc, ship, tasks)?;
    let mut order = places_of(alloc, tasks.len())?;
    order.sort_by_key(|place| key_of(&chains, *place))?;
    Seq::of(alloc, order.as_slice())
}
