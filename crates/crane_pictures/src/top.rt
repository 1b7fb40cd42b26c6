//! The top call.
ghost use Rattle.std.specs.Prelude.{◌≡◌, ◌≤◌, IfOk, IfErr, OnOk};
ghost use Rattle.stow_io.specs.Causes.{Rose};
ghost use Rattle.stow_io.specs.Outside.{outside};
ghost use Rattle.picture_files.specs.Work.{line_of};
ghost use Rattle.picture_files.specs.Ends.{Completes};
ghost use Rattle.crane_pictures.specs.Lists.{IsDrawable};
ghost use Rattle.crane_pictures.specs.Ends.{IsReadFrom, IsReadStop, is_own_picture, IsFree, IsGuarded, file_of, IsPictureOf, IsMade, IsStop, IsRun, IsWorkRun};

use crate::drawing::{picture_mark, work_picture};
use crate::naming::picture_name;
use crate::reading::{ListFault, read_list};
use itoa::Buffer;
use picture_files::Status;
use std::alloc::Global;
use stow_data::{Bytes, NoMemory, Word};
use stow_io::{
    Ended, FileList, Finding, Folder, FolderNo, NamedFile, Sink, Work, finish, say, say_name,
};
use stow_report::CraneReport;

/// Why there is no picture.
#[derive(Clone, Copy)]
enum Stop {
    /// The file isn't a crane list from this line on.
    Line(u64),
    /// The file was not read.
    Failed,
    /// What another maker wrote stands under the name of the picture.
    Kept,
    NoMemory,
}

/// The crane list of a file.
fn read_work<F: Folder>(alloc: Global, folder: &mut F, name: &str) -> Result<CraneReport, Stop>
    ensures stays { F.files folder.new ≡ F.files folder.old }
    ensures gives { IfOk result (IsReadFrom (F.files folder.old) name.now) }
    ensures later { F.faults folder.old ≤ F.faults folder.new }
    ensures failed { IfErr result (IsReadStop (Rose (F.faults folder.old) (F.faults folder.new))) }
{
    let bytes = match folder.read(name) {
        Ok(bytes) => bytes,
        Err(FolderNo::Failed) => return Err(Stop::Failed),
        Err(FolderNo::NoMemory) => return Err(Stop::NoMemory),
    };
    let list = read_list(alloc, bytes.as_slice());
    drop(bytes);
    match list {
        Ok(list) => Ok(list),
        Err(ListFault::Line(line)) => Err(Stop::Line(line)),
        Err(ListFault::NoMemory) => Err(Stop::NoMemory),
    }
}

/// Whether a text is a picture of a crane list that this program wrote, or empty.
fn is_own_picture(text: &[u8]) -> bool
    ensures { result ≡ is_own_picture text.now }
{
    text.is_empty() || text.starts_with(picture_mark())
}

/// That the picture may be written: nothing of another maker stands there. What isn't read counts as nothing.
fn guard<F: Folder>(folder: &mut F, picture: &str) -> Result<(), Stop>
    ensures stays { F.files folder.new ≡ F.files folder.old }
    ensures free { OnOk result (IsFree (F.files folder.old) (Rose (F.faults folder.old) (F.faults folder.new)) picture.now) }
    ensures later { F.faults folder.old ≤ F.faults folder.new }
    ensures failed { IfErr result (IsGuarded (F.files folder.old) picture.now) }
{
    let bytes = match folder.read(picture) {
        Ok(bytes) => bytes,
        Err(FolderNo::Failed) => return Ok(()),
        Err(FolderNo::NoMemory) => return Err(Stop::NoMemory),
    };
    let own = is_own_picture(bytes.as_slice());
    drop(bytes);
    if own { Ok(()) } else { Err(Stop::Kept) }
}

/// The line of a file that is written.
fn report_of(alloc: Global, file: &NamedFile) -> Result<Bytes, NoMemory>
    ensures { IfOk result (λ text. text ≡ line_of file.now) }
{
    let mut out = Bytes::of(alloc, b"written ")?;
    out.extend(file.name.as_str().as_bytes())?;
    out.push(b'\n')?;
    Ok(out)
}

/// The picture of a list, under its name.
fn file_of(
    alloc: Global,
    name: &str,
    picture: &str,
    list: &CraneReport,
) -> Result<NamedFile, NoMemory>
    requires { IsDrawable list.now }
    ensures { IfOk result (λ file. file ≡ file_of name.now picture.now list.now) }
{
    Ok(NamedFile {
        name: Word::of(alloc, picture)?,
        bytes: work_picture(alloc, name, list)?,
    })
}

/// What is written and printed of a list.
fn work_of(alloc: Global, name: &str, picture: &str, list: &CraneReport) -> Result<Work, NoMemory>
    requires { IsDrawable list.now }
    ensures { IfOk result (IsPictureOf name.now picture.now list.now) }
{
    let file = file_of(alloc, name, picture, list)?;
    let report = report_of(alloc, &file)?;
    let mut files = FileList::new(alloc);
    files.push(file)?;
    Ok(Work {
        files,
        report,
        finding: Finding::Fine,
    })
}

/// The picture of the list in a file, where it may be written.
fn answer<F: Folder>(alloc: Global, folder: &mut F, name: &str, picture: &str) -> Result<Work, Stop>
    ensures stays { F.files folder.new ≡ F.files folder.old }
    ensures made { IfOk result (IsMade (F.files folder.old) (Rose (F.faults folder.old) (F.faults folder.new)) name.now picture.now) }
    ensures later { F.faults folder.old ≤ F.faults folder.new }
    ensures failed { IfErr result (IsStop (F.files folder.old) (Rose (F.faults folder.old) (F.faults folder.new)) picture.now) }
{
    let list = read_work(alloc, folder, name)?;
    let work = match guard(folder, picture) {
        Ok(()) => match work_of(alloc, name, picture, &list) {
            Ok(work) => Ok(work),
            Err(NoMemory) => Err(Stop::NoMemory),
        },
        Err(stop) => Err(stop),
    };
    drop(list);
    work
}

/// Writes the picture, and then prints the report.
fn complete<F: Folder, K: Sink>(work: &Work, folder: &mut F, out: &mut K) -> Status
    ensures completes { Completes work.now result (outside F.Folder K.Sink folder.old out.old) (outside F.Folder K.Sink folder.new out.new) }
    ensures later { F.faults folder.old ≤ F.faults folder.new }
    ensures sink_later { K.faults out.old ≤ K.faults out.new }
{
    match finish(work, folder, out) {
        Ended::Done => Status::Fine,
        Ended::Fault => Status::Fault,
        Ended::Memory => Status::Memory,
    }
}

fn draw_to<F: Folder, K: Sink>(
    alloc: Global,
    name: &str,
    picture: &str,
    folder: &mut F,
    out: &mut K,
) -> Status
    ensures run { IsRun name.now picture.now result (outside F.Folder K.Sink folder.old out.old) (outside F.Folder K.Sink folder.new out.new) }
    ensures later { F.faults folder.old ≤ F.faults folder.new }
    ensures sink_later { K.faults out.old ≤ K.faults out.new }
{
    match answer(alloc, folder, name, picture) {
        Ok(work) => {
            let status = complete(&work, folder, out);
            drop(work);
            status
        }
        Err(Stop::Line(line)) => {
            say_name(out, b"refused cranes ", Buffer::new().format(line));
            Status::Input
        }
        Err(Stop::Failed) => {
            say_name(out, b"fault read ", name);
            Status::Fault
        }
        Err(Stop::Kept) => {
            say_name(out, b"refused page ", picture);
            Status::Input
        }
        Err(Stop::NoMemory) => {
            say(out, b"memory\n");
            Status::Memory
        }
    }
}

/// Draws the crane list of a file: the picture is written beside it, under its name and `.svg`, and a line says
/// so. A file that isn't a crane list as the command `cranes` prints it is refused with the line where it
/// differs; what another maker wrote under the picture's name is kept.
pub fn draw_work<F: Folder, K: Sink>(
    alloc: Global,
    name: &str,
    folder: &mut F,
    out: &mut K,
) -> Status
    ensures run { IsWorkRun name.now result (outside F.Folder K.Sink folder.old out.old) (outside F.Folder K.Sink folder.new out.new) }
    ensures later { F.faults folder.old ≤ F.faults folder.new }
    ensures sink_later { K.faults out.old ≤ K.faults out.new }
{
    match picture_name(alloc, name) {
        Ok(picture) => {
            let status = draw_to(alloc, name, picture.as_str(), folder, out);
            drop(picture);
            status
        }
        Err(NoMemory) => {
            say(out, b"memory\n");
            Status::Memory
        }
    }
}
