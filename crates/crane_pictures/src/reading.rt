//! The text of a crane list.
ghost use Rattle.std.specs.Prelude.{◌≡◌, IfOk, OnOk};
ghost use Rattle.crane_pictures.specs.Lists.{IsListOf};

use crate::lines::{read_line, read_total};
use crate::totals::is_drawable;
use std::alloc::Global;
use std::mem;
use stow_data::NoMemory;
use stow_report::{CraneReport, CraneRound, CraneRounds, crane_list};

/// Why a text gives no crane list.
#[derive(Clone, Copy, PartialEq, Eq)]
pub enum ListFault {
    /// It isn't what is printed of a crane list that can be drawn, from this line on, counted from 1.
    Line(u64),
    NoMemory,
}

impl From<NoMemory> for ListFault {
    fn from(_: NoMemory) -> Self {
        ListFault::NoMemory
    }
}

/// What was read of a list so far.
#[derive(Drop)]
struct Draft {
    cranes: u32,
    moves: u32,
    least: u32,
    /// The rounds before the one that is read.
    rounds: CraneRounds,
    round: CraneRound,
}

impl Draft {
    fn new(alloc: Global) -> Draft {
        Draft {
            cranes: 0,
            moves: 0,
            least: 0,
            rounds: CraneRounds::new(alloc),
            round: CraneRound::new(alloc),
        }
    }

    /// Ends the round that is read, if it has moves.
    fn end_round(&mut self, alloc: Global) -> Result<(), NoMemory> {
        if self.round.is_empty() {
            return Ok(());
        }
        let round = mem::replace(&mut self.round, CraneRound::new(alloc));
        self.rounds.push(round)
    }

    /// Takes the line of a move, or says that it isn't the next one.
    fn take_move(&mut self, alloc: Global, line: &[u8]) -> Result<bool, NoMemory> {
        let Some((round, crane, step)) = read_line(line) else {
            return Ok(false);
        };
        if crane == 1 {
            self.end_round(alloc)?;
        }
        let next_round = self.rounds.len().saturating_add(1);
        let next_crane = self.round.len().saturating_add(1);
        if round as usize != next_round || crane as usize != next_crane {
            return Ok(false);
        }
        self.round.push(step)?;
        Ok(true)
    }

    /// Takes a line of the head.
    fn take_head(&mut self, index: usize, line: &[u8]) -> Option<()> {
        match index {
            0 => self.cranes = read_total(line, b"cranes")?,
            1 => self.moves = read_total(line, b"moves")?,
            2 => {
                read_total(line, b"rounds")?;
            }
            _ => self.least = read_total(line, b"least")?,
        }
        Some(())
    }

    /// Takes the line of this number, counted from 0, or says that it isn't the next one.
    fn take_line(&mut self, alloc: Global, index: usize, line: &[u8]) -> Result<bool, NoMemory> {
        if index < 4 {
            return Ok(self.take_head(index, line).is_some());
        }
        if line.is_empty() {
            return Ok(true);
        }
        self.take_move(alloc, line)
    }

    fn into_list(self) -> CraneReport {
        CraneReport {
            cranes: self.cranes,
            moves: self.moves,
            least: self.least,
            rounds: self.rounds,
        }
    }
}

/// Takes all lines of a text.
fn take_lines(draft: &mut Draft, alloc: Global, text: &[u8]) -> Result<(), ListFault> {
    for (index, line) in text.split(|byte| *byte == b'\n').enumerate() {
        if !draft.take_line(alloc, index, line)? {
            return Err(ListFault::Line((index as u64).saturating_add(1)));
        }
    }
    draft.end_round(alloc)?;
    Ok(())
}

/// The list that the lines of a text tell of.
fn drafted(alloc: Global, text: &[u8]) -> Result<CraneReport, ListFault> {
    let mut draft = Draft::new(alloc);
    match take_lines(&mut draft, alloc, text) {
        Ok(()) => Ok(draft.into_list()),
        Err(fault) => {
            drop(draft);
            Err(fault)
        }
    }
}

/// The line, counted from 1, in which two texts first differ.
fn first_difference(text: &[u8], other: &[u8]) -> u64 {
    let mut line: u64 = 1;
    for (byte, beside) in text.iter().zip(other.iter()) {
        if byte != beside {
            return line;
        }
        if *byte == b'\n' {
            line = line.saturating_add(1);
        }
    }
    line
}

/// Whether the text is what is printed of the list, and the list can be drawn.
fn confirm(alloc: Global, list: &CraneReport, text: &[u8]) -> Result<(), ListFault>
    ensures { OnOk result (IsListOf text.now list.now) }
{
    if !is_drawable(list) {
        return Err(ListFault::Line(1));
    }
    let printed = match crane_list(alloc, list) {
        Ok(printed) => printed,
        Err(NoMemory) => return Err(ListFault::NoMemory),
    };
    let same = printed.as_slice() == text;
    let line = first_difference(printed.as_slice(), text);
    drop(printed);
    if !same {
        return Err(ListFault::Line(line));
    }
    Ok(())
}

/// The crane list whose text, as the command `cranes` prints it, this is.
pub fn read_list(alloc: Global, text: &[u8]) -> Result<CraneReport, ListFault>
    ensures { IfOk result (IsListOf text.now) }
{
    let list = drafted(alloc, text)?;
    match confirm(alloc, &list, text) {
        Ok(()) => Ok(list),
        Err(fault) => {
            drop(list);
            Err(fault)
        }
    }
}
