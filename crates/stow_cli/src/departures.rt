//! The reads of the files beside the inputs.
ghost use Rattle.std.specs.Prelude.{◌≡◌, ◌≤◌, ◌<◌, ◌+◌, ◌^◌, All, IfOk, IfErr, length};
ghost use Rattle.stow_io.specs.Causes.{Rose};
ghost use Rattle.voyage_files.specs.Inputs.{IsContent};
ghost use Rattle.voyage_files.specs.Named.{IsStop, IsQuiet};
ghost use Rattle.stow_cli.specs.Checks.{AreTexts, IsFileName};
ghost use Rattle.stow_cli.specs.Work.{file_name};

use crate::work::file_name;
use std::alloc::Global;
use stow_data::{Bytes, NoMemory, Word};
use stow_io::{Folder, FolderNo};
use voyage_files::{ReadStop, TextList};

/// The bytes under a name that was made.
pub fn read_own<'a, F: Folder>(folder: &mut F, name: Word) -> Result<Bytes, ReadStop<'a>>
    ensures stays { F.files folder.new ≡ F.files folder.old }
    ensures gives { IfOk result (IsContent (F.files folder.old) name) }
    ensures small { IfOk result (λ bytes. length bytes ≤ 536870912) }
    ensures later { F.faults folder.old ≤ F.faults folder.new }
    ensures quiet { IsQuiet result (F.faults folder.old) (F.faults folder.new) }
    ensures failed { IfErr result (IsStop (Rose (F.faults folder.old) (F.faults folder.new)) (λ n. n ≡ name)) }
{
    match folder.read(name.as_str()) {
        Ok(bytes) => Ok(bytes),
        Err(FolderNo::Failed) => Err(ReadStop::FailedOwn(name)),
        Err(FolderNo::NoMemory) => Err(ReadStop::NoMemory),
    }
}

/// The text of the departure file of a call.
fn read_departure<'a, F: Folder>(
    alloc: Global,
    base: &str,
    call: u32,
    folder: &mut F,
) -> Result<Bytes, ReadStop<'a>>
    ensures stays { F.files folder.new ≡ F.files folder.old }
    ensures gives { IfOk result (IsContent (F.files folder.old) (file_name base.now call)) }
    ensures small { IfOk result (λ bytes. length bytes ≤ 536870912) }
    ensures later { F.faults folder.old ≤ F.faults folder.new }
    ensures quiet { IsQuiet result (F.faults folder.old) (F.faults folder.new) }
    ensures failed { IfErr result (IsStop (Rose (F.faults folder.old) (F.faults folder.new)) (λ n. n ≡ file_name base.now call)) }
{
    match file_name(alloc, base, call) {
        Ok(name) => read_own(folder, name),
        Err(NoMemory) => Err(ReadStop::NoMemory),
    }
}

/// The texts of the departure files of so many calls, in their order. All are read before any is looked at.
pub fn read_departures<'a, F: Folder>(
    alloc: Global,
    base: &str,
    count: u32,
    folder: &mut F,
) -> Result<TextList, ReadStop<'a>>
    ensures stays { F.files folder.new ≡ F.files folder.old }
    ensures gives { IfOk result (AreTexts base.now (F.files folder.old) 1) }
    ensures each { IfOk result (λ texts. length texts ≡ count) }
    ensures small { IfOk result (All (λ text. length text ≤ 2 ^ 29)) }
    ensures later { F.faults folder.old ≤ F.faults folder.new }
    ensures quiet { IsQuiet result (F.faults folder.old) (F.faults folder.new) }
    ensures failed { IfErr result (IsStop (Rose (F.faults folder.old) (F.faults folder.new)) (IsFileName base.now count)) }
{
    let mut texts = TextList::new(alloc);
    for index in 0..count {
        let text = read_departure(alloc, base, index + 1, folder)?;
        let Ok(()) = texts.push(text) else {
            return Err(ReadStop::NoMemory);
        };
    }
    Ok(texts)
}
