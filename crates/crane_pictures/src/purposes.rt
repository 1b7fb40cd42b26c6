//! What a crane's move is for.
ghost use Rattle.std.specs.Prelude.{◌≡◌};
ghost use Rattle.std.specs.List.{list_any};
ghost use Rattle.baplie.specs.Segments.{same_text};
ghost use Rattle.crane_pictures.specs.Purposes.{has_lift, has_put, is_lift_of, is_put_of, is_same, purpose};

use stow_data::Name;
use stow_report::{CraneMove, CraneRound};

/// What a crane's move is for, as the other moves of its list tell.
#[derive(Clone, Copy)]
pub enum Purpose {
    /// A container is lifted that the list puts nowhere.
    Discharge,
    /// A container is put that the list lifts nowhere.
    Load,
    /// A container that stays aboard is lifted, to reach others.
    MoveAside,
    /// It is put back.
    PutBack,
    CoverOff,
    CoverOn,
}

fn same_text(a: &[u8], b: &[u8]) -> bool
    ensures { result ≡ same_text a.now b.now }
{
    a == b
}

/// Whether a move lifts this container.
fn is_lift_of(id: &Name, step: &CraneMove) -> bool
    ensures { result ≡ is_lift_of id.now step.now }
{
    match step {
        CraneMove::Lift { id: lifted, .. } => same_text(lifted.bytes(), id.bytes()),
        _ => false,
    }
}

/// Whether a move puts this container.
fn is_put_of(id: &Name, step: &CraneMove) -> bool
    ensures { result ≡ is_put_of id.now step.now }
{
    match step {
        CraneMove::Put { id: put, .. } => same_text(put.bytes(), id.bytes()),
        _ => false,
    }
}

fn lifts_in(moves: &[CraneMove], id: &Name) -> bool
    ensures { result ≡ list_any (is_lift_of id.now) moves.now }
{
    moves.iter().any(|step| is_lift_of(id, step))
}

fn puts_in(moves: &[CraneMove], id: &Name) -> bool
    ensures { result ≡ list_any (is_put_of id.now) moves.now }
{
    moves.iter().any(|step| is_put_of(id, step))
}

/// Whether the list lifts this container.
fn has_lift(rounds: &[CraneRound], id: &Name) -> bool
    ensures { result ≡ has_lift rounds.now id.now }
{
    rounds.iter().any(|moves| lifts_in(moves.as_slice(), id))
}

/// Whether the list puts this container.
fn has_put(rounds: &[CraneRound], id: &Name) -> bool
    ensures { result ≡ has_put rounds.now id.now }
{
    rounds.iter().any(|moves| puts_in(moves.as_slice(), id))
}

/// What a move of a list is for.
pub(crate) fn purpose_of(rounds: &[CraneRound], step: &CraneMove) -> Purpose
    ensures { result ≡ purpose rounds.now step.now }
{
    match step {
        CraneMove::Lift { id, .. } => if has_put(rounds, id) {
            Purpose::MoveAside
        } else {
            Purpose::Discharge
        },
        CraneMove::Put { id, .. } => if has_lift(rounds, id) {
            Purpose::PutBack
        } else {
            Purpose::Load
        },
        CraneMove::Off { .. } => Purpose::CoverOff,
        CraneMove::On { .. } => Purpose::CoverOn,
    }
}

/// Whether two purposes are one.
pub(crate) fn is_same(a: Purpose, b: Purpose) -> bool
    ensures { result ≡ is_same a b }
{
    match (a, b) {
        (Purpose::Discharge, Purpose::Discharge)
        | (Purpose::Load, Purpose::Load)
        | (Purpose::MoveAside, Purpose::MoveAside)
        | (Purpose::PutBack, Purpose::PutBack)
        | (Purpose::CoverOff, Purpose::CoverOff)
        | (Purpose::CoverOn, Purpose::CoverOn) => true,
        _ => false,
    }
}
