//! The reads of the bay plans.
ghost use Rattle.std.specs.Prelude.{◌≡◌, ◌≤◌, ◌^◌, length, map, All, Contains, IfOk, IfErr, IfSome, OnOk};
ghost use Rattle.stow_io.specs.Causes.{Rose};
ghost use Rattle.stow_report.specs.Refusals.{refusal_text};
ghost use Rattle.picture_files.specs.Reading.{file_line, IsViewOf, TellsOf, IsFree, IsGuarded, IsStop};

use baplie::{BaplieFault, Message, read_baplie};
use bay_views::is_own_page;
use edifact_segments::SegFault;
use std::alloc::Global;
use stow_data::{Bytes, NoMemory, Seq, Word};
use stow_io::{Folder, FolderNo};
use stow_report::{Line, interchange_line, message_line, refusal};

/// A bay plan that was read, and the name of its file.
#[derive(Drop)]
pub struct View {
    pub name: Word,
    pub message: Message,
}

/// Bay plans in the order of their names.
pub type ViewList = Seq<View>;

/// Why there are no pictures.
#[derive(Drop)]
pub enum Stop<'a> {
    /// A file that is no bay plan: the line that says so.
    Refused(Bytes),
    /// A file that was not read.
    Failed(&'a str),
    /// A page of another maker stands under the name of the page.
    Kept(Word),
    NoMemory,
}

/// The line of a text that is no bay plan.
fn file_line(alloc: Global, fault: BaplieFault) -> Result<Line, NoMemory>
    ensures { IfOk result (λ line. line ≡ file_line fault) }
{
    match fault {
        BaplieFault::Seg(fault) => interchange_line(alloc, fault),
        BaplieFault::At { segment, cause } => message_line(alloc, segment, cause),
        BaplieFault::NoMemory => interchange_line(alloc, SegFault::NoMemory),
    }
}

/// What a text is read as: a message, or the line that refuses it.
#[derive(Drop)]
pub enum Told {
    Message(Message),
    Line(Bytes),
}

/// What a text tells.
fn told_by(alloc: Global, bytes: &[u8]) -> Result<Told, NoMemory>
    requires { length bytes.now ≤ 2 ^ 29 }
    ensures { IfOk result (TellsOf bytes.now) }
{
    match read_baplie(alloc, bytes) {
        Ok(message) => Ok(Told::Message(message)),
        Err(BaplieFault::NoMemory) => Err(NoMemory),
        Err(fault) => {
            let line = file_line(alloc, fault)?;
            let text = refusal(alloc, &line);
            drop(line);
            Ok(Told::Line(text?))
        }
    }
}

/// A bay plan with the name of its file.
fn named(alloc: Global, name: &str, message: Message) -> Result<View, NoMemory>
    ensures { IfOk result (λ v. v ≡ record { name = name.now; message = message }) }
{
    match Word::of(alloc, name) {
        Ok(name) => Ok(View { name, message }),
        Err(no) => {
            drop(message);
            Err(no)
        }
    }
}

/// The bay plan of a file.
#[tactic(auto, using(crate::proofs::ReadViews::view_of, crate::proofs::ReadViews::view_name))]
fn read_view<'a, F: Folder>(alloc: Global, folder: &mut F, name: &'a str) -> Result<View, Stop<'a>>
    ensures stays { F.files folder.new ≡ F.files folder.old }
    ensures named { IfOk result (λ v. v.name ≡ name.now) }
    ensures gives { IfOk result (IsViewOf (F.files folder.old)) }
    ensures later { F.faults folder.old ≤ F.faults folder.new }
    ensures failed { IfErr result (IsStop (F.files folder.old) (Rose (F.faults folder.old) (F.faults folder.new)) (λ n. n ≡ name.now)) }
{
    let bytes = match folder.read(name) {
        Ok(bytes) => bytes,
        Err(FolderNo::Failed) => return Err(Stop::Failed(name)),
        Err(FolderNo::NoMemory) => return Err(Stop::NoMemory),
    };
    let told = told_by(alloc, bytes.as_slice());
    drop(bytes);
    match told {
        Ok(Told::Message(message)) => match named(alloc, name, message) {
            Ok(view) => Ok(view),
            Err(NoMemory) => Err(Stop::NoMemory),
        },
        Ok(Told::Line(line)) => Err(Stop::Refused(line)),
        Err(NoMemory) => Err(Stop::NoMemory),
    }
}

/// That a page may be written: no page of another maker stands there. One that isn't read counts as none.
fn guard_page<'a, F: Folder>(alloc: Global, folder: &mut F, page: &Word) -> Result<(), Stop<'a>>
    ensures stays { F.files folder.new ≡ F.files folder.old }
    ensures free { OnOk result (IsFree (F.files folder.old) (Rose (F.faults folder.old) (F.faults folder.new)) page.now) }
    ensures later { F.faults folder.old ≤ F.faults folder.new }
    ensures failed { IfErr result (IsGuarded (F.files folder.old)) }
{
    let bytes = match folder.read(page.as_str()) {
        Ok(bytes) => bytes,
        Err(FolderNo::Failed) => return Ok(()),
        Err(FolderNo::NoMemory) => return Err(Stop::NoMemory),
    };
    let own = is_own_page(bytes.as_slice());
    drop(bytes);
    if own {
        return Ok(());
    }
    match Word::of(alloc, page.as_str()) {
        Ok(page) => Err(Stop::Kept(page)),
        Err(NoMemory) => Err(Stop::NoMemory),
    }
}

/// The same of the page, where there is one.
pub fn guard<'a, F: Folder>(
    alloc: Global,
    folder: &mut F,
    page: &Option<Word>,
) -> Result<(), Stop<'a>>
    ensures stays { F.files folder.new ≡ F.files folder.old }
    ensures free { OnOk result (IfSome page.now (IsFree (F.files folder.old) (Rose (F.faults folder.old) (F.faults folder.new)))) }
    ensures later { F.faults folder.old ≤ F.faults folder.new }
    ensures failed { IfErr result (IsGuarded (F.files folder.old)) }
{
    match page {
        Some(page) => guard_page(alloc, folder, page),
        None => Ok(()),
    }
}

/// The bay plans of the files, up to the first that is none or that is not read.
pub fn read_views<'a, F: Folder>(
    alloc: Global,
    folder: &mut F,
    names: &'a [Word],
) -> Result<ViewList, Stop<'a>>
    ensures stays { F.files folder.new ≡ F.files folder.old }
    ensures named { IfOk result (λ views. map (λ v. v.name) views ≡ names.now) }
    ensures gives { IfOk result (All (IsViewOf (F.files folder.old))) }
    ensures later { F.faults folder.old ≤ F.faults folder.new }
    ensures failed { IfErr result (IsStop (F.files folder.old) (Rose (F.faults folder.old) (F.faults folder.new)) (Contains names.now)) }
{
    let mut views = ViewList::new(alloc);
    for name in names {
        let view = read_view(alloc, folder, name.as_str())?;
        match views.push(view) {
            Ok(()) => {}
            Err(NoMemory) => return Err(Stop::NoMemory),
        }
    }
    Ok(views)
}
