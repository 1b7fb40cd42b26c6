//! What is written and printed for the bay plans.
ghost use Rattle.std.specs.Prelude.{◌≡◌, ◌++◌, ◌∷◌, ◌<◌, ◌≤◌, [], length, flat_map, option_copied, All, IfOk, OnOk};
ghost use Rattle.stow_report.specs.Listings.{AreListable};
ghost use Rattle.picture_files.specs.Work.{ports_of, is_beside, groups_in, view_before, view_after, file_of, file_at, files_of, line_of, report_of, HasPages, IsWorkOf, AreDrawable};

use crate::naming::{base_of, picture_name};
use crate::reading::{View, ViewList};
use baplie::GroupList;
use bay_views::{add_ports, bay_count, index_page, picture, same_voyage};
use std::alloc::Global;
use stow_data::{Bytes, NameList, NoMemory, NumberList, Word, WordList};
use stow_io::{FileList, Finding, NamedFile, Work};

/// The ports of discharge of all bay plans, so that each has one colour in all pictures.
fn ports_of(alloc: Global, views: &[View]) -> Result<NameList, NoMemory>
    ensures { IfOk result (λ ports. ports ≡ ports_of views.now) }
{
    let mut ports = NameList::new(alloc);
    for view in views {
        add_ports(&mut ports, view.message.groups.as_slice())?;
    }
    Ok(ports)
}

/// Whether two bay plans are of one voyage.
fn is_beside(view: &View, other: &View) -> bool
    ensures { result ≡ is_beside view.now other.now }
{
    same_voyage(&view.message, &other.message)
}

fn groups_in(view: Option<&View>) -> Option<&GroupList>
    ensures { option_copied result ≡ groups_in (option_copied view.entry) }
{
    match view {
        Some(view) => Some(&view.message.groups),
        None => None,
    }
}

/// The picture of a bay plan, under its name, beside the one of its voyage before it and the one behind it.
fn file_of(
    alloc: Global,
    ports: &NameList,
    view: &View,
    before: Option<&View>,
    after: Option<&View>,
) -> Result<NamedFile, NoMemory>
    requires { AreListable view.now.message.groups }
    ensures { IfOk result (λ file. file ≡ file_of ports.now view.now (option_copied before.entry) (option_copied after.entry)) }
{
    let before = groups_in(before);
    let after = groups_in(after);
    Ok(NamedFile {
        name: picture_name(alloc, view.name.as_str())?,
        bytes: picture(alloc, ports, &view.message, before, after)?,
    })
}

/// The last bay plan of a voyage before a place.
fn view_before<'a>(views: &'a [View], view: &View, i: usize) -> Option<&'a View>
    requires { i ≤ length views.now }
    ensures { option_copied result ≡ view_before views.now view.now i }
{
    views[..i].iter().rev().find(|other| is_beside(view, other))
}

/// The first bay plan of a voyage behind a place.
fn view_after<'a>(views: &'a [View], view: &View, i: usize) -> Option<&'a View>
    requires { i < length views.now }
    ensures { option_copied result ≡ view_after views.now view.now i }
{
    let (_, behind) = views.split_at(i + 1);
    behind.iter().find(|other| is_beside(view, other))
}

/// The picture of the bay plan at this place.
#[tactic(auto, unfolding(crate::specs::Work::file_at))]
fn file_at(alloc: Global, ports: &NameList, views: &[View], i: usize) -> Result<NamedFile, NoMemory>
    requires drawable { AreDrawable views.now }
    requires place { i < length views.now }
    ensures { IfOk result (λ file. file ∷ [] ≡ file_at ports.now views.now i) }
{
    let view = &views[i];
    let before = view_before(views, view, i);
    let after = view_after(views, view, i);
    file_of(alloc, ports, view, before, after)
}

/// A picture for each bay plan.
fn files_of(alloc: Global, ports: &NameList, views: &[View]) -> Result<FileList, NoMemory>
    requires { AreDrawable views.now }
    ensures { IfOk result (λ files. files ≡ files_of ports.now views.now) }
{
    let mut files = FileList::new(alloc);
    for i in 0..views.len() {
        files.push(file_at(alloc, ports, views, i)?)?;
    }
    Ok(files)
}

/// How many bays each picture has.
fn bays_of(alloc: Global, views: &[View]) -> Result<NumberList, NoMemory>
    requires { AreDrawable views.now }
{
    let mut bays = NumberList::new(alloc);
    for view in views {
        bays.push(bay_count(alloc, view.message.groups.as_slice())?)?;
    }
    Ok(bays)
}

/// The names of the files behind the last slash.
fn bases_of(alloc: Global, views: &[View]) -> Result<WordList, NoMemory> {
    let mut names = WordList::new(alloc);
    for view in views {
        names.push(Word::of(alloc, base_of(view.name.as_str()))?)?;
    }
    Ok(names)
}

/// The page that steps through the pictures, under its name.
fn page_of(alloc: Global, page: &Word, views: &[View]) -> Result<NamedFile, NoMemory>
    requires { AreDrawable views.now }
    ensures { IfOk result (λ file. file.name ≡ page.now) }
{
    let names = bases_of(alloc, views)?;
    let bays = bays_of(alloc, views)?;
    Ok(NamedFile {
        name: Word::of(alloc, page.as_str())?,
        bytes: index_page(alloc, &names, &bays)?,
    })
}

/// The page behind the pictures, where there is one.
#[tactic(auto, using(crate::proofs::PicturesAndPage::with_page, crate::proofs::PicturesAndPage::without_page))]
fn add_page(
    alloc: Global,
    files: &mut FileList,
    page: &Option<Word>,
    views: &[View],
) -> Result<(), NoMemory>
    requires { AreDrawable views.now }
    ensures { OnOk result (HasPages page.now files.old files.new) }
{
    match page {
        Some(page) => files.push(page_of(alloc, page, views)?),
        None => Ok(()),
    }
}

/// A line for each file.
fn report_of(alloc: Global, files: &FileList) -> Result<Bytes, NoMemory>
    ensures { IfOk result (λ text. text ≡ report_of files.now) }
{
    let mut out = Bytes::new(alloc);
    for file in files.as_slice() {
        write_line(&mut out, file)?;
    }
    Ok(out)
}

fn write_line(out: &mut Bytes, file: &NamedFile) -> Result<(), NoMemory>
    ensures { OnOk result (out.new ≡ out.old ++ line_of file.now) }
{
    out.extend(b"written ")?;
    out.extend(file.name.as_str().as_bytes())?;
    out.push(b'\n')
}

/// A picture for each bay plan and, where it has a name, the page that steps through them.
pub fn work_of(alloc: Global, views: &ViewList, page: &Option<Word>) -> Result<Work, NoMemory>
    requires { AreDrawable views.now }
    ensures { IfOk result (IsWorkOf views.now page.now) }
{
    let ports = ports_of(alloc, views.as_slice())?;
    let mut files = files_of(alloc, &ports, views.as_slice())?;
    add_page(alloc, &mut files, page, views.as_slice())?;
    let report = report_of(alloc, &files)?;
    Ok(Work {
        files,
        report,
        finding: Finding::Fine,
    })
}
