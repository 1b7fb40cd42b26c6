//! Hatch covers that stand in the way of a move.
ghost use Rattle.std.specs.Prelude.{◌≡◌, length, MatchOption};
ghost use Rattle.voyage_meaning.specs.Refusals.{Finds, IsOpenUnder, IsShutOver};

use stow_data::{CoverNo, FlagList, Ship, StackNo};

/// The cover over a stack, where it is on.
pub fn shut_over(ship: &Ship, off: &FlagList, stack: StackNo) -> Option<CoverNo>
    requires { length off.now ≡ length ship.now.covers }
    ensures { Finds (IsShutOver ship.now off.now stack) result }
{
    match ship.cover_over(stack) {
        None => None,
        Some(k) => { if *off.at(k.0 as usize) { None } else { Some(k) } }
    }
}

/// The cover under a stack, where it is off.
pub fn open_under(ship: &Ship, off: &FlagList, stack: StackNo) -> Option<CoverNo>
    requires { length off.now ≡ length ship.now.covers }
    ensures { Finds (IsOpenUnder ship.now off.now stack) result }
{
    match ship.cover_under(stack) {
        None => None,
        Some(k) => { if *off.at(k.0 as usize) { Some(k) } else { None } }
    }
}
