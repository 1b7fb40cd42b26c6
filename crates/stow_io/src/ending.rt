//! The writes, the report and the last line.
ghost use Rattle.std.specs.Prelude.{◌≡◌, ◌≤◌, codes, ◌++◌};
ghost use Rattle.stow_io.specs.Causes.{Rose};
ghost use Rattle.stow_io.specs.Ends.{Says, Finishes};
ghost use Rattle.stow_io.specs.Outside.{outside, HasRisen};

use crate::files::Work;
use crate::outside::{Folder, FolderNo, Sink};
use crate::writing::write_files;

/// How the writes and the report ended.
#[derive(Clone, Copy, PartialEq, Eq)]
pub enum Ended {
    /// All was written and printed.
    Done,
    /// A write or the report failed, which was counted.
    Fault,
    /// Want of memory.
    Memory,
}

/// Prints a line, or a part of it where the sink fails.
pub fn say<K: Sink>(out: &mut K, line: &[u8])
    ensures printed { Says line.now (K.written out.old) (K.written out.new) (Rose (K.faults out.old) (K.faults out.new)) }
    ensures later { K.faults out.old ≤ K.faults out.new }
{
    // A line that the sink refuses doesn't change how the run ended.
    match out.put(line) {
        Ok(()) => (),
        Err(_) => (),
    }
}

/// Prints a line of two words and a name, or a part of it where the sink fails. It takes no memory.
pub fn say_name<K: Sink>(out: &mut K, front: &[u8], name: &str)
    ensures printed { Says (front.now ++ (name.now ++ codes "\n")) (K.written out.old) (K.written out.new) (Rose (K.faults out.old) (K.faults out.new)) }
    ensures later { K.faults out.old ≤ K.faults out.new }
{
    if out.put(front).is_err() {
        return;
    }
    if out.put(name.as_bytes()).is_err() {
        return;
    }
    say(out, b"\n");
}

/// Writes all files, and then prints the report.
pub fn finish<F: Folder, K: Sink>(work: &Work, folder: &mut F, out: &mut K) -> Ended
    ensures finishes { Finishes work.now result (outside F.Folder K.Sink folder.old out.old) (outside F.Folder K.Sink folder.new out.new) }
    ensures fault { result ≡ Ended.Fault → HasRisen (outside F.Folder K.Sink folder.old out.old) (outside F.Folder K.Sink folder.new out.new) }
    ensures quiet { (result ≡ Ended.Fault → ⊥) → F.faults folder.new ≡ F.faults folder.old }
    ensures later { F.faults folder.old ≤ F.faults folder.new }
    ensures sink_later { K.faults out.old ≤ K.faults out.new }
    ensures sink_quiet { result ≡ Ended.Done → K.faults out.new ≡ K.faults out.old }
{
    match write_files(folder, &work.files) {
        Ok(()) => match out.put(work.report.as_slice()) {
            Ok(()) => Ended::Done,
            Err(_) => Ended::Fault,
        },
        Err(stop) => match stop.no {
            FolderNo::NoMemory => {
                say(out, b"memory\n");
                Ended::Memory
            }
            FolderNo::Failed => {
                let name = work.files.at(stop.index).name.as_str();
                say_name(out, b"fault write ", name);
                Ended::Fault
            }
        },
    }
}
