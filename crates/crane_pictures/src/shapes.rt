//! The shapes of a crane list: one for each move.
ghost use Rattle.std.specs.Prelude.{◌≡◌, ◌≤◌, ◌++◌, All, length, count_by, IfOk, OnOk};
ghost use Rattle.crane_pictures.specs.Lists.{IsShared};
ghost use Rattle.crane_pictures.specs.Shapes.{has_purpose, round_shapes, shape_at, shapes_of, shapes_from};

use crate::purposes::{Purpose, is_same, purpose_of};
use std::alloc::Global;
use stow_data::{NoMemory, Seq};
use stow_report::{CraneMove, CraneRound};

/// A move where it stands: round and crane count from 1.
#[derive(Drop)]
pub struct Shape {
    pub round: u32,
    pub crane: u32,
    pub purpose: Purpose,
    pub step: CraneMove,
}

/// The shapes of a list, by rounds and within them by cranes.
pub type ShapeList = Seq<Shape>;

fn copied(step: &CraneMove) -> CraneMove
    ensures { result ≡ step.now }
{
    match step {
        CraneMove::Lift { cell, id } => CraneMove::Lift {
            cell: *cell,
            id: id.copy(),
        },
        CraneMove::Put { cell, id } => CraneMove::Put {
            cell: *cell,
            id: id.copy(),
        },
        CraneMove::Off { cover } => CraneMove::Off { cover: *cover },
        CraneMove::On { cover } => CraneMove::On { cover: *cover },
    }
}

fn shape_at(all: &[CraneRound], round: u32, crane: u32, step: &CraneMove) -> Shape
    ensures { result ≡ shape_at all.now round crane step.now }
{
    Shape {
        round,
        crane,
        purpose: purpose_of(all, step),
        step: copied(step),
    }
}

/// Appends the shapes of a round.
fn add_round(
    shapes: &mut ShapeList,
    all: &[CraneRound],
    round: u32,
    moves: &[CraneMove],
) -> Result<(), NoMemory>
    requires { IsShared 8 moves.now }
    ensures { OnOk result (shapes.new ≡ shapes.old ++ round_shapes all.now round 1 moves.now) }
{
    let mut crane: u32 = 1;
    for step in moves {
        shapes.push(shape_at(all, round, crane, step))?;
        crane += 1;
    }
    Ok(())
}

/// The shapes of all moves.
pub fn shapes_of(alloc: Global, rounds: &[CraneRound]) -> Result<ShapeList, NoMemory>
    requires few { length rounds.now ≤ 20000 }
    requires shared { All (IsShared 8) rounds.now }
    ensures { IfOk result (λ shapes. shapes ≡ shapes_of rounds.now) }
{
    let mut shapes = ShapeList::new(alloc);
    let mut round: u32 = 1;
    for moves in rounds {
        add_round(&mut shapes, rounds, round, moves.as_slice())?;
        round += 1;
    }
    Ok(shapes)
}

/// How many shapes have this purpose.
pub(crate) fn count_of(shapes: &[Shape], purpose: Purpose) -> u64
    ensures { result ≡ count_by (has_purpose purpose) shapes.now }
{
    let mut count: u64 = 0;
    for shape in shapes {
        if is_same(shape.purpose, purpose) {
            count += 1;
        }
    }
    count
}
