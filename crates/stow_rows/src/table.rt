//! A table of cases: its lines, one after the other, and what was found to differ.
use crate::draft::Draft;
use crate::line::{Cuts, Line, Order, Piece, line_of};
use crate::stage::{Differs, Stage};
use std::alloc::Global;
use std::mem;
use std::sync::Wait;
use std::thread::Threads;
use stow_data::{Bytes, NoMemory};
use stow_io::SureFolder;

/// What the text that is being made is for.
#[derive(Clone, Copy)]
enum Target<'a> {
    Nothing,
    Text(&'a str),
    File(&'a str),
    Prints,
    Holds(&'a str),
    Ends(&'a str),
}

/// Pieces that are taken once for each number from the first to the second.
#[derive(Drop)]
struct Each<'a> {
    from: u32,
    to: u32,
    pieces: Vec<Piece<'a>>,
}

/// What a table came to.
#[derive(Clone, Copy)]
pub struct Counts {
    pub cases: u32,
    pub looks: u32,
    pub differ: u32,
}

/// A table that is being gone through.
#[derive(Drop)]
pub struct Table<'a> {
    alloc: Global,
    texts: SureFolder,
    draft: Draft,
    target: Target<'a>,
    each: Option<Each<'a>>,
    title: &'a str,
    stage: Stage<'a>,
    counts: Counts,
    told: Bytes,
}

impl<'a> Table<'a> {
    fn new(alloc: Global) -> Result<Table<'a>, NoMemory> {
        Ok(Table {
            alloc,
            texts: SureFolder::new(alloc),
            draft: Draft::new(alloc),
            target: Target::Nothing,
            each: None,
            title: "",
            stage: Stage::new(alloc, "")?,
            counts: Counts {
                cases: 0,
                looks: 0,
                differ: 0,
            },
            told: Bytes::new(alloc),
        })
    }

    pub fn counts(&self) -> Counts {
        self.counts
    }

    /// How the last run ended, 0 where there is none.
    pub fn last_status(&self) -> u8 {
        self.stage.last_status()
    }

    /// A line for all that differs, with the text that was found.
    pub fn told(&self) -> &[u8] {
        self.told.as_slice()
    }

    /// Counts what differs, and tells of it.
    fn tell(&mut self, what: &str) -> Result<(), NoMemory> {
        self.counts.differ = self.counts.differ.saturating_add(1);
        let line = format!(in self.alloc; "{}: {what}\n", self.title)?;
        self.told.extend(line.as_bytes())
    }

    /// Counts a look, and tells of what it found.
    fn look(&mut self, at: &str, differs: Option<Differs>) -> Result<(), NoMemory> {
        self.counts.looks = self.counts.looks.saturating_add(1);
        match differs {
            None => Ok(()),
            Some(differs) => self.tell_of(at, differs),
        }
    }

    fn tell_of(&mut self, at: &str, differs: Differs) -> Result<(), NoMemory> {
        let alloc = self.alloc;
        match differs {
            Differs::NoRun => self.tell("no run stands before this"),
            Differs::NoText => self.tell("no such text"),
            Differs::Absent => self.tell(format!(in alloc; "{at} is absent")?.as_str()),
            Differs::Stands => self.tell(format!(in alloc; "{at} stands")?.as_str()),
            Differs::Apart => self.tell("two workers didn't meet"),
            Differs::Status(found) => self.tell(format!(in alloc; "status {found}")?.as_str()),
            Differs::Cut(most) => self.tell(format!(in alloc;
                "cut {most} ends otherwise"
            )?.as_str()),
            Differs::Text(found) => {
                self.tell(format!(in alloc; "{at} is")?.as_str())?;
                self.told.extend(found.as_slice())
            }
        }
    }

    /// Takes a piece of the text, now or where the numbers are through.
    fn piece(&mut self, piece: Piece<'a>) -> Result<(), NoMemory> {
        match &mut self.each {
            Some(each) => Ok(each.pieces.push(piece)?),
            None => {
                let known = self.draft.add(&self.texts, piece)?;
                self.known(known)
            }
        }
    }

    fn known(&mut self, known: bool) -> Result<(), NoMemory> {
        if known {
            Ok(())
        } else {
            self.tell("a piece names no text or no line")
        }
    }

    /// Takes the pieces that wait for their numbers.
    fn done(&mut self) -> Result<(), NoMemory> {
        let Some(each) = self.each.take() else {
            return self.tell("nothing is done here");
        };
        for number in each.from..=each.to {
            for piece in &each.pieces {
                let known = self.draft.add_at(&self.texts, *piece, number)?;
                self.known(known)?;
            }
        }
        Ok(())
    }

    /// Ends the text that was being made, and puts it where it belongs.
    fn settle(&mut self) -> Result<(), NoMemory> {
        let draft = mem::replace(&mut self.draft, Draft::new(self.alloc));
        let target = mem::replace(&mut self.target, Target::Nothing);
        let text = draft.as_slice();
        match target {
            Target::Nothing if text.is_empty() => Ok(()),
            Target::Nothing => self.tell("a text that is for nothing"),
            Target::Text(name) => self.texts.lay(name, text),
            Target::File(name) => self.stage.lay(name, text),
            Target::Prints => {
                let differs = self.stage.prints(text)?;
                self.look("what is printed", differs)
            }
            Target::Holds(name) => {
                let differs = self.stage.holds(name, text)?;
                self.look(name, differs)
            }
            Target::Ends(name) => {
                let differs = self.stage.ends(name, text)?;
                self.look(name, differs)
            }
        }
    }

    /// A new case, over an empty folder none of whose calls fails.
    fn begin(&mut self, title: &'a str) -> Result<(), NoMemory> {
        self.title = title;
        self.counts.cases = self.counts.cases.saturating_add(1);
        self.fail("")
    }

    /// The case's folder is empty, and its calls with these numbers fail.
    fn fail(&mut self, numbers: &str) -> Result<(), NoMemory> {
        self.stage = Stage::new(self.alloc, numbers)?;
        Ok(())
    }

    /// Looks at what a line says of the last run or of the folder.
    fn see(&mut self, order: Order<'a>) -> Result<(), NoMemory> {
        let (at, differs) = match order {
            Order::Status(number) => ("the run", self.stage.status(number)),
            Order::Stands(name) => (name, self.stage.stands(name)),
            Order::Absent(name) => (name, self.stage.absent(name)),
            _ => return Ok(()),
        };
        self.look(at, differs)
    }

    /// Begins the text that a line asks for.
    fn aim(&mut self, order: Order<'a>) {
        self.target = match order {
            Order::Text(name) => Target::Text(name),
            Order::Lay(name) => Target::File(name),
            Order::Prints => Target::Prints,
            Order::Holds(name) => Target::Holds(name),
            Order::Ends(name) => Target::Ends(name),
            _ => Target::Nothing,
        };
    }

    fn cut<R: Threads + Wait + Sync>(&mut self, rt: &R, cuts: Cuts<'a>) -> Result<(), NoMemory> {
        let differs = self.stage.cuts(rt, &self.texts, cuts)?;
        self.look(cuts.name, differs)
    }

    fn meet<R: Threads + Wait + Sync>(&mut self, rt: &R, words: &str) -> Result<(), NoMemory> {
        let differs = self.stage.meet(rt, words)?;
        self.look("the gate", differs)
    }

    /// Does what a line orders.
    fn obey<R: Threads + Wait + Sync>(&mut self, rt: &R, order: Order<'a>) -> Result<(), NoMemory> {
        match order {
            Order::Case(title) => self.begin(title),
            Order::Fail(numbers) => self.fail(numbers),
            Order::Mute(numbers) => {
                self.stage.mute(numbers);
                Ok(())
            }
            Order::Run(words) => self.stage.run(rt, words),
            Order::Bare => self.stage.run_bare(rt),
            Order::Meet(words) => self.meet(rt, words),
            Order::Cuts(cuts) => self.cut(rt, cuts),
            Order::Status(_) | Order::Stands(_) | Order::Absent(_) => self.see(order),
            _ => {
                self.aim(order);
                Ok(())
            }
        }
    }

    /// Takes one line.
    fn take<R: Threads + Wait + Sync>(&mut self, rt: &R, line: &'a str) -> Result<(), NoMemory> {
        match line_of(line) {
            None => self.tell(line),
            Some(Line::Blank) => Ok(()),
            Some(Line::Piece(piece)) => self.piece(piece),
            Some(Line::Done) => self.done(),
            Some(Line::Each(from, to)) => {
                let pieces = Vec::new(self.alloc);
                self.each = Some(Each { from, to, pieces });
                Ok(())
            }
            Some(Line::Order(order)) => {
                self.settle()?;
                self.obey(rt, order)
            }
        }
    }
}

/// Goes through a table's lines.
pub fn gone_through<'a, R: Threads + Wait + Sync>(
    rt: &R,
    alloc: Global,
    text: &'a str,
) -> Result<Table<'a>, NoMemory> {
    let mut table = Table::new(alloc)?;
    for line in text.lines() {
        table.take(rt, line)?;
    }
    table.settle()?;
    Ok(table)
}
