//! The number of rounds below which no crane list comes.
ghost use Rattle.std.specs.Prelude.{◌≡◌, ◌≤◌, ◌<◌, ◌^◌, ℕ, cond, length, max};
ghost use Rattle.crane_lists.specs.Least.{IsLeastRounds, is_in_window, window_count};

use crate::bays::bay_of_move;
use stow_data::Ship;
use voyage_meaning::{Move, MoveList};

/// The greatest bay of a ship.
const LAST_BAY: u32 = 998;

/// 1 where a move lies in the window of eight bays from one on, and else 0.
fn mark(ship: &Ship, b: u32, m: &Move) -> u32
    requires { b ≤ 998 }
    ensures value { result ≡ cond (is_in_window ship.now b m.now) 1 0 }
    ensures small { result ≤ 1 }
{
    let bay = bay_of_move(ship, *m);
    if b <= bay && bay <= b + 7 { 1 } else { 0 }
}

/// How many moves lie in the window of eight bays from one on.
fn count_window(ship: &Ship, b: u32, moves: &MoveList) -> u32
    requires first { b ≤ 998 }
    requires few { length moves.now < 2 ^ 32 }
    ensures { result ≡ window_count ship.now b moves.now }
{
    let mut count = 0;
    let steps = moves.as_slice();
    for m in steps {
        count += mark(ship, b, m);
    }
    count
}

/// The greater of a number and that of the moves in a window.
fn greater(ship: &Ship, b: u32, moves: &MoveList, most: u32) -> u32
    requires first { b ≤ 998 }
    requires few { length moves.now < 2 ^ 32 }
    ensures { result ≡ max most (window_count ship.now b moves.now) }
{
    most.max(count_window(ship, b, moves))
}

/// The greatest number of moves in one window of eight bays.
fn fullest_window(ship: &Ship, moves: &MoveList) -> u32
    requires { length moves.now < 2 ^ 32 }
    ensures all { (b : ℕ) → window_count ship.now b moves.now ≤ result }
    ensures one { (n : ℕ) → ((b : ℕ) → window_count ship.now b moves.now ≤ n) → result ≤ n }
{
    let mut most = 0;
    for b in 0..LAST_BAY + 1 {
        most = greater(ship, b, moves, most);
    }
    ship.obeys_rules();
    most
}

/// The least number of rounds in which so many cranes could do the moves, were it for their number and their bays alone: the greater of the number of moves divided by that of cranes, rounded up, and the greatest number of moves in a window of eight bays. It goes over the bays once, in order, and takes no memory.
pub fn least(ship: &Ship, moves: &MoveList, cranes: u32) -> u32
    requires some_crane { 1 ≤ cranes }
    requires few_moves { length moves.now < 2 ^ 32 }
    ensures { IsLeastRounds ship.now moves.now cranes result }
{
    let by_number = (moves.len() as u32).div_ceil(cranes);
    by_number.max(fullest_window(ship, moves))
}
