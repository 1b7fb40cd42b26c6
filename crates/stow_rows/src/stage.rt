//! The folder of a case, the runs over it, and what is looked at behind them.
use crate::draft::{agrees, cut};
use crate::line::Cuts;
use crate::meeting::Meeting;
use std::alloc::Global;
use std::sync::Wait;
use std::thread::Threads;
use stow_cli::stow;
use stow_data::{Bytes, NoMemory, NumberList, Word, WordList};
use stow_io::{Gate, MemFolder, MemSink, NoGate, SureFolder};

/// What a run may print.
const ROOM: usize = 1_000_000;

/// How a run ended, and what it printed.
#[derive(Drop)]
pub struct Ended {
    pub status: u8,
    pub out: MemSink,
}

/// What was found that is not as it was said.
#[derive(Drop)]
pub enum Differs {
    /// No run stands before this line.
    NoRun,
    /// No text of this name.
    NoText,
    /// The status is another one.
    Status(u8),
    /// The text, printed or of a file, is another one.
    Text(Bytes),
    /// A file is absent that should stand.
    Absent,
    /// A file stands that should be absent.
    Stands,
    /// Two workers didn't meet.
    Apart,
    /// The run over a text of this length ended otherwise than the first.
    Cut(u32),
}

/// A case: its folder, and its last run.
#[derive(Drop)]
pub struct Stage<'a> {
    alloc: Global,
    folder: MemFolder,
    mute: &'a str,
    last: Option<Ended>,
}

/// The words behind the program's name; `""` is a word without a letter.
fn words_of(alloc: Global, text: &str) -> Result<WordList, NoMemory> {
    let mut words = WordList::new(alloc);
    words.push(Word::of(alloc, "stow")?)?;
    for word in text.split(' ') {
        match word {
            "" => {}
            "\"\"" => words.push(Word::of(alloc, "")?)?,
            _ => words.push(Word::of(alloc, word)?)?,
        }
    }
    Ok(words)
}

/// The numbers of a list, whose other words are passed over.
fn numbers_of(alloc: Global, text: &str) -> Result<NumberList, NoMemory> {
    let mut numbers = NumberList::new(alloc);
    for word in text.split(' ') {
        if let Ok(number) = word.parse() {
            numbers.push(number)?;
        }
    }
    Ok(numbers)
}

impl<'a> Stage<'a> {
    /// An empty folder, whose calls with these numbers fail.
    pub fn new(alloc: Global, failing: &str) -> Result<Stage<'a>, NoMemory> {
        Ok(Stage {
            alloc,
            folder: MemFolder::new(alloc, numbers_of(alloc, failing)?),
            mute: "",
            last: None,
        })
    }

    /// The puts with these numbers fail in later runs.
    pub fn mute(&mut self, numbers: &'a str) {
        self.mute = numbers;
    }

    /// Leaves the text in the folder.
    pub fn lay(&mut self, name: &str, text: &[u8]) -> Result<(), NoMemory> {
        self.folder.lay(name, text)
    }

    /// The one call of `stow`.
    fn ended<R: Threads + Wait + Sync, G: Gate + Sync>(
        &mut self,
        rt: &R,
        words: &WordList,
        gate: &G,
    ) -> Result<Ended, NoMemory> {
        let mut out = MemSink::new(self.alloc, ROOM, numbers_of(self.alloc, self.mute)?)?;
        let status = stow(rt, self.alloc, words, &mut self.folder, &mut out, gate);
        Ok(Ended {
            status: status.number(),
            out,
        })
    }

    /// Runs the program on the words.
    pub fn run<R: Threads + Wait + Sync>(&mut self, rt: &R, words: &str) -> Result<(), NoMemory> {
        let words = words_of(self.alloc, words)?;
        self.last = Some(self.ended(rt, &words, &NoGate)?);
        Ok(())
    }

    /// Runs the program on the words, at a gate where two workers wait for each other. Both have to come, and none to
    /// wait in vain.
    pub fn meet<R: Threads + Wait + Sync>(
        &mut self,
        rt: &R,
        words: &str,
    ) -> Result<Option<Differs>, NoMemory> {
        let words = words_of(self.alloc, words)?;
        let gate = Meeting::new();
        self.last = Some(self.ended(rt, &words, &gate)?);
        if gate.is_held() && !gate.is_in_vain() {
            Ok(None)
        } else {
            Ok(Some(Differs::Apart))
        }
    }

    /// Runs the program without any words, even its own name.
    pub fn run_bare<R: Threads + Wait + Sync>(&mut self, rt: &R) -> Result<(), NoMemory> {
        let words = WordList::new(self.alloc);
        self.last = Some(self.ended(rt, &words, &NoGate)?);
        Ok(())
    }

    /// Runs the program once for each length; the last run is then one of these, which all ended alike.
    pub fn cuts<R: Threads + Wait + Sync>(
        &mut self,
        rt: &R,
        texts: &SureFolder,
        cuts: Cuts<'_>,
    ) -> Result<Option<Differs>, NoMemory> {
        let Some(text) = texts.file(cuts.name) else {
            return Ok(Some(Differs::NoText));
        };
        let words = words_of(self.alloc, cuts.words)?;
        self.last = None;
        for most in cuts.from..=cuts.to {
            self.lay(cuts.name, cut(text.as_slice(), most))?;
            let ended = self.ended(rt, &words, &NoGate)?;
            if !self.ended_so(&ended) {
                self.last = Some(ended);
                return Ok(Some(Differs::Cut(most)));
            }
            self.last = Some(ended);
        }
        Ok(None)
    }

    /// Whether the last run, where there was one, ended so too.
    fn ended_so(&self, ended: &Ended) -> bool {
        match &self.last {
            Some(last) => {
                last.status == ended.status
                    && last.out.text().as_slice() == ended.out.text().as_slice()
            }
            None => true,
        }
    }

    /// How the last run ended, 0 where there is none.
    pub fn last_status(&self) -> u8 {
        match &self.last {
            Some(last) => last.status,
            None => 0,
        }
    }

    /// Looks at the status of the last run.
    pub fn status(&self, expected: u8) -> Option<Differs> {
        match &self.last {
            None => Some(Differs::NoRun),
            Some(last) if last.status == expected => None,
            Some(last) => Some(Differs::Status(last.status)),
        }
    }

    /// Looks at what the last run printed.
    pub fn prints(&self, expected: &[u8]) -> Result<Option<Differs>, NoMemory> {
        match &self.last {
            None => Ok(Some(Differs::NoRun)),
            Some(last) => self.compared(expected, last.out.text()),
        }
    }

    fn compared(&self, expected: &[u8], found: &Bytes) -> Result<Option<Differs>, NoMemory> {
        if agrees(expected, found.as_slice()) {
            Ok(None)
        } else {
            Ok(Some(Differs::Text(found.copy(self.alloc)?)))
        }
    }

    /// Looks at a whole file.
    pub fn holds(&self, name: &str, expected: &[u8]) -> Result<Option<Differs>, NoMemory> {
        match self.folder.file(name) {
            None => Ok(Some(Differs::Absent)),
            Some(found) => self.compared(expected, found),
        }
    }

    /// Looks at a file's end.
    pub fn ends(&self, name: &str, expected: &[u8]) -> Result<Option<Differs>, NoMemory> {
        match self.folder.file(name) {
            None => Ok(Some(Differs::Absent)),
            Some(found) if found.as_slice().ends_with(expected) => Ok(None),
            Some(found) => Ok(Some(Differs::Text(found.copy(self.alloc)?))),
        }
    }

    /// Looks whether a file stands.
    pub fn stands(&self, name: &str) -> Option<Differs> {
        match self.folder.file(name) {
            None => Some(Differs::Absent),
            Some(_) => None,
        }
    }

    /// Looks whether a file is absent.
    pub fn absent(&self, name: &str) -> Option<Differs> {
        match self.folder.file(name) {
            None => None,
            Some(_) => Some(Differs::Stands),
        }
    }
}
