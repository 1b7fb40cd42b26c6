//! Where stacks and half-cells stand.
ghost use Rattle.std.specs.Prelude.{◌≡◌};
ghost use Rattle.ship_profile.specs.Positions.{position_in, position_of};

use crate::covers::Part;
use stow_data::Stack;

/// A bay and row, in the hold or on deck. The bay is the even one of a stack, or the odd one of a half-cell.
#[derive(Clone, Copy, PartialEq, Eq, PartialOrd, Ord)]
pub struct Position {
    pub bay: i64,
    pub row: i64,
    pub on_deck: bool,
}

/// The position of a stack in this bay.
pub fn position_in(bay: u32, stack: &Stack) -> Position
    ensures { result ≡ position_in bay stack.now }
{
    Position {
        bay: i64::from(bay),
        row: i64::from(stack.row),
        on_deck: stack.lowest >= 80,
    }
}

/// The position of a bay and row in a part of the ship.
pub fn position_of(part: Part, pair: (i64, i64)) -> Position
    ensures { result ≡ position_of part pair }
{
    Position {
        bay: pair.0,
        row: pair.1,
        on_deck: part == Part::Deck,
    }
}
