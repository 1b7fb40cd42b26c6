//! The writes and the report, with the status.
ghost use Rattle.std.specs.Prelude.{◌≤◌};
ghost use Rattle.stow_io.specs.Outside.{outside};
ghost use Rattle.picture_files.specs.Ends.{Completes};

use crate::status::Status;
use stow_io::{Ended, Folder, Sink, Work, finish};

/// Writes all files, and then prints the report.
pub fn complete<F: Folder, K: Sink>(work: &Work, folder: &mut F, out: &mut K) -> Status
    ensures completes { Completes work.now result (outside F.Folder K.Sink folder.old out.old) (outside F.Folder K.Sink folder.new out.new) }
    ensures later { F.faults folder.old ≤ F.faults folder.new }
    ensures sink_later { K.faults out.old ≤ K.faults out.new }
{
    match finish(work, folder, out) {
        Ended::Done => Status::Fine,
        Ended::Fault => Status::Fault,
        Ended::Memory => Status::Memory,
    }
}
