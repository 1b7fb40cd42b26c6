//! Runs over folders in memory.
use picture_files::{Status, view};
use std::alloc::Global;
use std::test::Fail;
use stow_data::{Bytes, NoMemory, NumberList, Word, WordList};
use stow_io::{MemFolder, MemSink};

const PLAN: &str =
    "UNB+UNOA:2+LINE+SHIP+260131:0900+77'UNH+1+BAPLIE:D:95B:UN:SMDG22'LOC+147+0020102::5'MEA+WT++KGM:18400'LOC+11+SEGOT:139:6'EQD+CN+ABCU7654321+42G1+++5'UNT+6+1'UNZ+1+77'";

/// A plan in ISO 8859-1, whose port of discharge has a letter that ASCII lacks.
const ACCENTED: &[u8] =
    b"UNB+UNOC:2+LINE+SHIP+260131:0900+77'UNH+1+BAPLIE:D:95B:UN:SMDG22'LOC+147+0020102::5'MEA+WT++KGM:18400'LOC+11+G\xD6T:139:6'EQD+CN+ABCU7654321+42G1+++5'UNT+6+1'UNZ+1+77'";

/// The same, whose interchange says that it is ASCII.
const ASCII: &[u8] =
    b"UNB+UNOA:2+LINE+SHIP+260131:0900+77'UNH+1+BAPLIE:D:95B:UN:SMDG22'LOC+147+0020102::5'MEA+WT++KGM:18400'LOC+11+G\xD6T:139:6'EQD+CN+ABCU7654321+42G1+++5'UNT+6+1'UNZ+1+77'";

/// A plan of another voyage.
const OTHER: &[u8] =
    b"UNB+UNOA:2+LINE+SHIP+260131:0900+77'UNH+1+BAPLIE:D:95B:UN:SMDG22'TDT+20+8++++++:::OTHER'UNT+3+1'UNZ+1+77'";

fn words_of(alloc: Global, first: &str, second: &str) -> Result<WordList, NoMemory> {
    let mut words = WordList::new(alloc);
    words.push(Word::of(alloc, "stow-view")?)?;
    words.push(Word::of(alloc, first)?)?;
    words.push(Word::of(alloc, second)?)?;
    Ok(words)
}

fn folder_of(alloc: Global) -> Result<MemFolder, NoMemory> {
    let mut folder = MemFolder::new(alloc, NumberList::new(alloc));
    folder.lay("a/one.edi", PLAN.as_bytes())?;
    folder.lay("a/two.edi", PLAN.as_bytes())?;
    folder.lay("a/cut.edi", b"UNB")?;
    Ok(folder)
}

/// How a run on two files of the folder ended.
#[derive(Drop)]
struct Ran {
    status: Status,
    report: Bytes,
    has_picture: bool,
    has_page: bool,
}

fn run_on(alloc: Global, words: &WordList, folder: &mut MemFolder) -> Result<Ran, NoMemory> {
    let mut out = MemSink::new(alloc, 1000, NumberList::new(alloc))?;
    let status = view(alloc, words, folder, &mut out);
    let report = Bytes::of(alloc, out.text().as_slice());
    drop(out);
    Ok(Ran {
        status,
        report: report?,
        has_picture: folder.file("a/one.edi.svg").is_some(),
        has_page: folder.file("a/index.html").is_some(),
    })
}

fn run_in(
    alloc: Global,
    first: &str,
    second: &str,
    folder: &mut MemFolder,
) -> Result<Ran, NoMemory> {
    let words = words_of(alloc, first, second)?;
    let ran = run_on(alloc, &words, folder);
    drop(words);
    ran
}

fn run(alloc: Global, first: &str, second: &str) -> Result<Ran, NoMemory> {
    let mut folder = folder_of(alloc)?;
    let ran = run_in(alloc, first, second, &mut folder);
    drop(folder);
    ran
}

#[test]
fn draws_two_calls(rt: HostRuntime) -> Result<(), Fail> {
    let ran = run(rt.alloc(), "a/one.edi", "a/two.edi")?;
    let report: &[u8] = b"written a/one.edi.svg\nwritten a/two.edi.svg\nwritten a/index.html\n";
    assert!(rt; ran.status == Status::Fine);
    assert!(rt; ran.report.as_slice() == report);
    assert!(rt; ran.has_picture && ran.has_page);
    Ok(())
}

/// Whether the picture of a file holds this text.
fn shows(folder: &MemFolder, name: &str, part: &[u8]) -> bool {
    match folder.file(name) {
        Some(text) => {
            let text = text.as_slice();
            (0..text.len()).any(|front| text[front..].starts_with(part))
        }
        None => false,
    }
}

/// Whether the picture of this plan holds this text.
fn drawn_with(alloc: Global, plan: &[u8], part: &[u8]) -> Result<bool, NoMemory> {
    let mut folder = folder_of(alloc)?;
    folder.lay("a/one.edi", plan)?;
    let ran = run_in(alloc, "a/one.edi", "a/two.edi", &mut folder);
    let shown = shows(&folder, "a/one.edi.svg", part);
    drop(folder);
    drop(ran?);
    Ok(shown)
}

#[test]
fn reads_bytes_by_level(rt: HostRuntime) -> Result<(), Fail> {
    assert!(rt; drawn_with(rt.alloc(), ACCENTED, b" G&#214;T ")?);
    assert!(rt; drawn_with(rt.alloc(), ASCII, b" G&#65533;T ")?);
    Ok(())
}

#[test]
fn compares_within_a_voyage(rt: HostRuntime) -> Result<(), Fail> {
    let mut folder = folder_of(rt.alloc())?;
    folder.lay("a/other.edi", OTHER)?;
    let mut words = words_of(rt.alloc(), "a/one.edi", "a/other.edi")?;
    words.push(Word::of(rt.alloc(), "a/two.edi")?)?;
    let ran = run_on(rt.alloc(), &words, &mut folder)?;
    let line: &[u8] = b"&#9650; 0 loaded, &#9660; 0 discharged, &#9670; 0 rehandled";
    assert!(rt; ran.status == Status::Fine);
    assert!(rt; shows(&folder, "a/two.edi.svg", line));
    assert!(rt; !shows(&folder, "a/other.edi.svg", b"Since the bay plan before"));
    Ok(())
}

#[test]
fn keeps_another_page(rt: HostRuntime) -> Result<(), Fail> {
    let mut folder = folder_of(rt.alloc())?;
    folder.lay("a/index.html", b"<p>mine")?;
    let ran = run_in(rt.alloc(), "a/one.edi", "a/two.edi", &mut folder)?;
    assert!(rt; ran.status == Status::Input && !ran.has_picture);
    assert!(rt; ran.report.as_slice() == b"refused page a/index.html\n".as_slice());
    Ok(())
}

#[test]
fn writes_its_own_page_anew(rt: HostRuntime) -> Result<(), Fail> {
    let mut folder = folder_of(rt.alloc())?;
    let first = run_in(rt.alloc(), "a/one.edi", "a/two.edi", &mut folder)?;
    assert!(rt; first.status == Status::Fine);
    let again = run_in(rt.alloc(), "a/one.edi", "a/two.edi", &mut folder)?;
    assert!(rt; again.status == Status::Fine);
    Ok(())
}

#[test]
fn writes_nothing_for_a_cut_file(rt: HostRuntime) -> Result<(), Fail> {
    let ran = run(rt.alloc(), "a/one.edi", "a/cut.edi")?;
    assert!(rt; ran.status == Status::Input);
    assert!(rt; ran.report.as_slice() == b"refused edifact 3 0\n".as_slice());
    assert!(rt; !ran.has_picture && !ran.has_page);
    Ok(())
}

#[test]
fn turns_words_down(rt: HostRuntime) -> Result<(), Fail> {
    let dashed = run(rt.alloc(), "a/one.edi", "-v")?;
    assert!(rt; dashed.status == Status::Words && !dashed.has_picture);
    let apart = run(rt.alloc(), "a/one.edi", "two.edi")?;
    assert!(rt; apart.status == Status::Words && !apart.has_picture);
    Ok(())
}
