//! How many cranes, rounds and moves a crane list has.
ghost use Rattle.std.specs.Prelude.{◌≡◌, ◌≤◌, ◌*◌, length, All, IsTrue};
ghost use Rattle.std.specs.List.{sum_by};
ghost use Rattle.crane_pictures.specs.Lists.{IsDrawable, IsShared};

use stow_report::{CraneReport, CraneRound};

/// The most cranes of a list.
const MOST_CRANES: u32 = 8;

/// The most rounds that are drawn.
const MOST_ROUNDS: usize = 20_000;

/// Whether no round has more moves than there are cranes.
fn is_shared(rounds: &[CraneRound], cranes: u32) -> bool
    ensures { IsTrue result → All (IsShared cranes) rounds.now }
{
    rounds.iter().all(|moves| moves.len() <= cranes as usize)
}

/// The number of moves.
fn moves_in(rounds: &[CraneRound]) -> u64
    requires few { length rounds.now ≤ 20000 }
    requires shared { All (IsShared 8) rounds.now }
    ensures { result ≡ sum_by length rounds.now }
{
    let mut moves: u64 = 0;
    for round in rounds {
        moves += round.len() as u64;
    }
    moves
}

/// Whether the list is for at most eight cranes and has at most 20,000 rounds, each of at most as many moves
/// as there are cranes, and as many moves as it says.
pub(crate) fn is_drawable(list: &CraneReport) -> bool
    ensures { IsTrue result → IsDrawable list.now }
{
    let rounds = list.rounds.as_slice();
    if list.cranes > MOST_CRANES || rounds.len() > MOST_ROUNDS {
        return false;
    }
    if !is_shared(rounds, list.cranes) || !is_shared(rounds, MOST_CRANES) {
        return false;
    }
    moves_in(rounds) == u64::from(list.moves)
}
