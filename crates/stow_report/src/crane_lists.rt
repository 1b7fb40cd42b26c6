//! What is printed of a crane list.
ghost use Rattle.std.specs.Prelude.{◌≡◌, ◌++◌, IfOk, OnOk};
ghost use Rattle.stow_report.specs.CraneLists.{container_text, crane_text, move_line, move_text, round_text, rounds_text};

use crate::reports::write_number;
use baplie::cell_text;
use itoa::Buffer;
use std::alloc::Global;
use stow_data::{Bytes, Name, NoMemory, Seq};

/// What a crane does in a round.
#[derive(Drop)]
pub enum CraneMove {
    /// Lifts the container of this number from the cell of this bay, row and tier number.
    Lift { cell: (u32, u32, u32), id: Name },
    /// Puts the container of this number into this cell.
    Put { cell: (u32, u32, u32), id: Name },
    /// Takes the hatch cover of this number, counted from 0, off.
    Off { cover: u32 },
    /// Puts it on.
    On { cover: u32 },
}

/// What the cranes do in a round, each its own, by their numbers.
pub type CraneRound = Seq<CraneMove>;

/// The rounds of a crane list.
pub type CraneRounds = Seq<CraneRound>;

/// A crane list.
#[derive(Drop)]
pub struct CraneReport {
    /// The number of cranes.
    pub cranes: u32,
    /// The number of moves.
    pub moves: u32,
    /// No crane list of these moves has fewer rounds.
    pub least: u32,
    pub rounds: CraneRounds,
}

/// The numbers of cranes, moves and rounds and the least number of rounds, a line for each; and then a line for each
/// round and crane, both counted from 1, that says what the crane does.
pub fn crane_list(alloc: Global, list: &CraneReport) -> Result<Bytes, NoMemory>
    ensures { IfOk result (λ text. text ≡ crane_text list.now) }
{
    let mut out = Bytes::new(alloc);
    write_number(&mut out, b"cranes ", u64::from(list.cranes))?;
    write_number(&mut out, b"moves ", u64::from(list.moves))?;
    write_number(&mut out, b"rounds ", list.rounds.len() as u64)?;
    write_number(&mut out, b"least ", u64::from(list.least))?;
    write_rounds(&mut out, list.rounds.as_slice())?;
    Ok(out)
}

/// Appends the lines of all rounds.
fn write_rounds(out: &mut Bytes, rounds: &[CraneRound]) -> Result<(), NoMemory>
    ensures { OnOk result (out.new ≡ out.old ++ rounds_text 1 rounds.now) }
{
    let mut round: u64 = 1;
    for moves in rounds {
        write_round(out, round, moves.as_slice())?;
        round += 1;
    }
    Ok(())
}

/// Appends the lines of a round.
fn write_round(out: &mut Bytes, round: u64, moves: &[CraneMove]) -> Result<(), NoMemory>
    ensures { OnOk result (out.new ≡ out.old ++ round_text round 1 moves.now) }
{
    let mut crane: u64 = 1;
    for step in moves {
        write_line(out, round, crane, step)?;
        crane += 1;
    }
    Ok(())
}

/// Appends the line of a crane in a round.
fn write_line(out: &mut Bytes, round: u64, crane: u64, step: &CraneMove) -> Result<(), NoMemory>
    ensures { OnOk result (out.new ≡ out.old ++ move_line round crane step.now) }
{
    out.extend(Buffer::new().format(round).as_bytes())?;
    out.push(b' ')?;
    out.extend(Buffer::new().format(crane).as_bytes())?;
    out.push(b' ')?;
    write_move(out, step)?;
    out.push(b'\n')
}

/// Appends what a crane does.
fn write_move(out: &mut Bytes, step: &CraneMove) -> Result<(), NoMemory>
    ensures { OnOk result (out.new ≡ out.old ++ move_text step.now) }
{
    match step {
        CraneMove::Lift { cell, id } => { write_container(out, b"lift ", *cell, id) }
        CraneMove::Put { cell, id } => { write_container(out, b"put ", *cell, id) }
        CraneMove::Off { cover } => {
            out.extend(b"off ")?;
            out.extend(Buffer::new().format(*cover).as_bytes())
        }
        CraneMove::On { cover } => {
            out.extend(b"on ")?;
            out.extend(Buffer::new().format(*cover).as_bytes())
        }
    }
}

/// Appends a word, a cell and a container's number.
fn write_container(
    out: &mut Bytes,
    word: &[u8],
    cell: (u32, u32, u32),
    id: &Name,
) -> Result<(), NoMemory>
    ensures { OnOk result (out.new ≡ out.old ++ container_text word.now cell id.now) }
{
    let (bay, row, tier) = cell;
    out.extend(word)?;
    out.extend(&cell_text(bay, row, tier))?;
    out.push(b' ')?;
    out.extend(id.bytes())
}
