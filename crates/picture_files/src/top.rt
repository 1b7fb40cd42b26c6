//! The top call.
ghost use Rattle.std.specs.Prelude.{◌≡◌, ◌≤◌, IfOk, IfErr};
ghost use Rattle.stow_io.specs.Causes.{Rose};
ghost use Rattle.stow_io.specs.Outside.{outside};
ghost use Rattle.picture_files.specs.Reading.{IsGuarded};
ghost use Rattle.picture_files.specs.Work.{AreDrawable};
ghost use Rattle.picture_files.specs.Ends.{IsRun, IsAnswer, IsPaged};

use crate::ending::complete;
use crate::naming::{are_together, names_in, page_for};
use crate::reading::{Stop, ViewList, guard, read_views};
use crate::status::Status;
use crate::work::work_of;
use std::alloc::Global;
use stow_data::{NoMemory, Word, WordList};
use stow_io::{Folder, Sink, Work, say, say_name};

/// What is written and printed for the files of these names, all of which are read first.
#[tactic(auto, using(crate::proofs::ReadViews::guarded_stop))]
fn answer<'a, F: Folder>(alloc: Global, folder: &mut F, names: &'a [Word]) -> Result<Work, Stop<'a>>
    ensures stays { F.files folder.new ≡ F.files folder.old }
    ensures answered { IsAnswer (F.files folder.old) (Rose (F.faults folder.old) (F.faults folder.new)) names.now result }
    ensures later { F.faults folder.old ≤ F.faults folder.new }
{
    let views = match read_views(alloc, folder, names) {
        Ok(views) => views,
        Err(stop) => return Err(stop),
    };
    let work = made_of(alloc, folder, names, &views);
    drop(views);
    match work {
        Ok(work) => Ok(work),
        Err(stop) => Err(stop),
    }
}

/// What is made of the bay plans of these names, where their page may be written.
fn made_of<'a, F: Folder>(
    alloc: Global,
    folder: &mut F,
    names: &[Word],
    views: &ViewList,
) -> Result<Work, Stop<'a>>
    requires { AreDrawable views.now }
    ensures stays { F.files folder.new ≡ F.files folder.old }
    ensures made { IfOk result (IsPaged (F.files folder.old) (Rose (F.faults folder.old) (F.faults folder.new)) names.now views.now) }
    ensures later { F.faults folder.old ≤ F.faults folder.new }
    ensures failed { IfErr result (IsGuarded (F.files folder.old)) }
{
    let page = match page_for(alloc, names) {
        Ok(page) => page,
        Err(NoMemory) => return Err(Stop::NoMemory),
    };
    match guard(alloc, folder, &page) {
        Ok(()) => {}
        Err(stop) => return Err(stop),
    }
    match work_of(alloc, views, &page) {
        Ok(work) => Ok(work),
        Err(NoMemory) => Err(Stop::NoMemory),
    }
}

/// For each file that the words name its picture, and for several files the page that steps through them.
/// All files are read and all texts are made before the first is written.
pub fn view<F: Folder, K: Sink>(
    alloc: Global,
    words: &WordList,
    folder: &mut F,
    out: &mut K,
) -> Status
    ensures run { IsRun words.now result (outside F.Folder K.Sink folder.old out.old) (outside F.Folder K.Sink folder.new out.new) }
    ensures later { F.faults folder.old ≤ F.faults folder.new }
    ensures sink_later { K.faults out.old ≤ K.faults out.new }
{
    let Some(names) = names_in(words) else {
        say(out, b"refused words 1\n");
        return Status::Words;
    };
    if names.len() > 1 && !are_together(names) {
        say(out, b"refused words 1\n");
        return Status::Words;
    }
    match answer(alloc, folder, names) {
        Ok(work) => {
            let status = complete(&work, folder, out);
            drop(work);
            status
        }
        Err(Stop::Refused(line)) => {
            say(out, line.as_slice());
            Status::Input
        }
        Err(Stop::Failed(name)) => {
            say_name(out, b"fault read ", name);
            Status::Fault
        }
        Err(Stop::Kept(page)) => {
            say_name(out, b"refused page ", page.as_str());
            Status::Input
        }
        Err(Stop::NoMemory) => {
            say(out, b"memory\n");
            Status::Memory
        }
    }
}
