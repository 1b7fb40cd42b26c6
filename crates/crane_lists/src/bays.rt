//! The bay at which a crane stands for a move.
ghost use Rattle.std.specs.Prelude.{◌≡◌, fold, slice_get};
ghost use Rattle.crane_lists.specs.Bays as words;
ghost use Rattle.crane_lists.specs.Tasks.{stack_of};

use stow_data::{CoverNo, PlaceNo, Ship, StackNo};
use voyage_meaning::Move;

/// The stack of a place; stack 0 for a number past the last place.
pub fn stack_of(ship: &Ship, p: PlaceNo) -> StackNo
    ensures { result ≡ stack_of ship.now p }
{
    if p.0 < ship.places() {
        ship.place(p).stack
    } else {
        StackNo(0)
    }
}

/// The bay of a stack; 0 for a number past the last one.
fn bay_of_stack(ship: &Ship, s: StackNo) -> u32
    ensures { result ≡ words.bay_of_stack ship.now s }
{
    if s.0 < ship.stacks() {
        ship.stack(s).bay
    } else {
        0
    }
}

/// The lesser of the least bay so far, if there is one, and that of a further stack.
fn lesser_bay(ship: &Ship, least: Option<u32>, s: StackNo) -> Option<u32>
    ensures { result ≡ words.lesser_bay ship.now least s }
{
    let bay = bay_of_stack(ship, s);
    match least {
        None => Some(bay),
        Some(b) => Some(b.min(bay)),
    }
}

/// The least of the least bay so far, if there is one, and those of further stacks.
fn least_bay(ship: &Ship, mut least: Option<u32>, stacks: &[StackNo]) -> Option<u32>
    ensures { result ≡ fold (words.lesser_bay ship.now) least stacks.now }
{
    for s in stacks {
        least = lesser_bay(ship, least, *s);
    }
    least
}

/// The least bay of the stacks of a cover; 0 without any, and for a number past the last cover.
fn cover_bay(ship: &Ship, k: CoverNo) -> u32
    ensures { result ≡ words.cover_bay ship.now (slice_get ship.now.covers k) }
{
    if k.0 >= ship.covers() {
        return 0;
    }
    let cover = ship.cover(k);
    let under = least_bay(ship, None, cover.under.as_slice());
    least_bay(ship, under, cover.on.as_slice()).unwrap_or(0)
}

/// The bay of a move.
pub fn bay_of_move(ship: &Ship, m: Move) -> u32
    ensures { result ≡ words.bay_of_move ship.now m }
{
    match m {
        Move::Lift(p) | Move::Put(_, p) => bay_of_stack(ship, stack_of(ship, p)),
        Move::OffCover(k) | Move::OnCover(k) => cover_bay(ship, k),
    }
}
