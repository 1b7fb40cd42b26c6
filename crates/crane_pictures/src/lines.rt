//! The lines of a crane list.
ghost use Rattle.std.specs.Prelude.{◌≤◌, length};

use baplie::{read_cell_text, read_count};
use stow_data::Name;
use stow_report::CraneMove;

/// What stands in front of the first space of a text, and what stands behind it.
fn cut(text: &[u8]) -> Option<(&[u8], &[u8])> {
    let at = text.iter().position(|byte| *byte == b' ')?;
    Some((&text[..at], &text[at + 1..]))
}

/// The number behind a word.
pub(crate) fn read_total(line: &[u8], expected: &[u8]) -> Option<u32> {
    let (word, number) = cut(line)?;
    if word == expected {
        read_count(number)
    } else {
        None
    }
}

/// A cell and a container's number, which has at most 35 bytes.
fn read_container(text: &[u8]) -> Option<((u32, u32, u32), Name)> {
    let (cell, id) = cut(text)?;
    if id.len() > 35 {
        return None;
    }
    Some((read_cell_text(cell)?, Name::of(id)))
}

fn read_move(text: &[u8]) -> Option<CraneMove> {
    let (word, rest) = cut(text)?;
    if word == b"lift".as_slice() {
        let (cell, id) = read_container(rest)?;
        return Some(CraneMove::Lift { cell, id });
    }
    if word == b"put".as_slice() {
        let (cell, id) = read_container(rest)?;
        return Some(CraneMove::Put { cell, id });
    }
    if word == b"off".as_slice() {
        let cover = read_count(rest)?;
        return Some(CraneMove::Off { cover });
    }
    if word == b"on".as_slice() {
        let cover = read_count(rest)?;
        return Some(CraneMove::On { cover });
    }
    None
}

/// The round, the crane and the move of a line.
pub(crate) fn read_line(line: &[u8]) -> Option<(u32, u32, CraneMove)> {
    let (round, rest) = cut(line)?;
    let (crane, step) = cut(rest)?;
    Some((read_count(round)?, read_count(crane)?, read_move(step)?))
}
