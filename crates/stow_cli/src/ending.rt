//! The writes, the report and the last line, with the status.
ghost use Rattle.std.specs.Prelude.{◌≡◌, ◌≤◌};
ghost use Rattle.stow_io.specs.Causes.{Rose};
ghost use Rattle.stow_io.specs.Ends.{Says};
ghost use Rattle.stow_io.specs.Outside.{outside, HasRisen};
ghost use Rattle.stow_cli.specs.Ends.{SaysNo, Completes, IsReported, words_line, words_status};

use crate::status::Status;
use stow_io::{Ended, Finding, Folder, Sink, Work, finish, say};
use stow_words::WordsNo;

/// Writes all files, and then prints the report. The status tells what was found.
pub fn complete<F: Folder, K: Sink>(work: &Work, folder: &mut F, out: &mut K) -> Status
    ensures completes { Completes work.now result (outside F.Folder K.Sink folder.old out.old) (outside F.Folder K.Sink folder.new out.new) }
    ensures fault { result ≡ Status.Fault → HasRisen (outside F.Folder K.Sink folder.old out.old) (outside F.Folder K.Sink folder.new out.new) }
    ensures quiet { (result ≡ Status.Fault → ⊥) → F.faults folder.new ≡ F.faults folder.old }
    ensures later { F.faults folder.old ≤ F.faults folder.new }
    ensures sink_later { K.faults out.old ≤ K.faults out.new }
    ensures sink_quiet { IsReported result → K.faults out.new ≡ K.faults out.old }
{
    match finish(work, folder, out) {
        Ended::Done => match work.finding {
            Finding::Fine => Status::Fine,
            Finding::Gap => Status::Gap,
            Finding::NoPlan => Status::NoPlan,
            Finding::Undecided => Status::Undecided,
        },
        Ended::Fault => Status::Fault,
        Ended::Memory => Status::Memory,
    }
}

/// Prints the line of what a check refuses.
pub fn say_no<K: Sink>(out: &mut K, line: &[u8]) -> Status
    ensures refused { SaysNo result line.now (K.written out.old) (K.written out.new) (Rose (K.faults out.old) (K.faults out.new)) }
    ensures later { K.faults out.old ≤ K.faults out.new }
    ensures quiet { IsReported result → K.faults out.new ≡ K.faults out.old }
{
    match out.put(line) {
        Ok(()) => Status::No,
        Err(_) => Status::Fault,
    }
}

/// The line of words that are refused.
pub fn line_of(no: WordsNo) -> &'static [u8]
    ensures { result.now ≡ words_line no }
{
    match no {
        WordsNo::NotTaken => b"refused words 1\n",
        WordsNo::Workers => b"refused words 2\n",
        WordsNo::Budget => b"refused words 3\n",
        WordsNo::Number => b"refused words 4\n",
        WordsNo::Call => b"refused words 7\n",
        WordsNo::Count => b"refused words 8\n",
        WordsNo::NoMemory => b"memory\n",
    }
}

/// The status of words that are refused.
fn status_of(no: WordsNo) -> Status
    ensures { result ≡ words_status no }
{
    match no {
        WordsNo::NoMemory => Status::Memory,
        _ => Status::Words,
    }
}

/// Prints why words are refused.
pub fn refuse<K: Sink>(no: WordsNo, out: &mut K) -> Status
    ensures status { result ≡ words_status no }
    ensures printed { Says (words_line no) (K.written out.old) (K.written out.new) (Rose (K.faults out.old) (K.faults out.new)) }
    ensures later { K.faults out.old ≤ K.faults out.new }
{
    say(out, line_of(no));
    status_of(no)
}
