//! `stow show`: the list of a bay plan.
ghost use Rattle.std.specs.Prelude.{◌≡◌, ◌≤◌, ◌^◌, [], length, IfOk, IfErr};
ghost use Rattle.stow_report.specs.Listings.{AreListable, listing_text};
ghost use Rattle.stow_io.specs.Causes.{Rose};
ghost use Rattle.stow_cli.specs.Answers.{IsShown, ShowOf};
ghost use Rattle.voyage_files.specs.Named.{IsStop, IsQuiet};

use crate::refusing::file_text;
use baplie::{BaplieFault, Message, read_baplie};
use std::alloc::Global;
use stow_data::NoMemory;
use stow_io::{FileList, Finding, Folder, Work};
use stow_report::listing;
use voyage_files::{Answer, ReadStop, read};

/// The list of the bay plan in the file, or its fault.
pub fn show<'a, F: Folder>(
    alloc: Global,
    file: &'a str,
    folder: &mut F,
) -> Result<Answer, ReadStop<'a>>
    ensures stays { F.files folder.new ≡ F.files folder.old }
    ensures gives { IfOk result (IsShown file.now (F.files folder.old)) }
    ensures later { F.faults folder.old ≤ F.faults folder.new }
    ensures quiet { IsQuiet result (F.faults folder.old) (F.faults folder.new) }
    ensures failed { IfErr result (IsStop (Rose (F.faults folder.old) (F.faults folder.new)) (λ name. name ≡ file.now)) }
{
    let bytes = read(folder, file)?;
    match listed(alloc, bytes.as_slice()) {
        Ok(answer) => Ok(answer),
        Err(NoMemory) => Err(ReadStop::NoMemory),
    }
}

/// What the text of a bay plan is answered.
fn listed(alloc: Global, bytes: &[u8]) -> Result<Answer, NoMemory>
    requires { length bytes.now ≤ 2 ^ 29 }
    ensures { IfOk result (ShowOf bytes.now) }
{
    match read_baplie(alloc, bytes) {
        Ok(message) => Ok(Answer::Work(listing_of(alloc, &message)?)),
        Err(BaplieFault::NoMemory) => Err(NoMemory),
        Err(fault) => Ok(Answer::Input(file_text(alloc, fault)?)),
    }
}

/// No file, and the list of a message as report.
fn listing_of(alloc: Global, message: &Message) -> Result<Work, NoMemory>
    requires { AreListable message.now.groups }
    ensures files { IfOk result (λ work. work.files ≡ []) }
    ensures report { IfOk result (λ work. work.report ≡ listing_text message.now.groups) }
    ensures finding { IfOk result (λ work. work.finding ≡ Finding.Fine) }
{
    Ok(Work {
        files: FileList::new(alloc),
        report: listing(alloc, message.groups.as_slice())?,
        finding: Finding::Fine,
    })
}
