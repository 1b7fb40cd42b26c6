//! The lines of the probe's file: `search` with what a search begins with, the lines of its events, and `finish`. A line that is
//! empty or begins with `#` is printed as it is.
use crate::events::words_of;
use crate::search::run;
use crate::stop::Stop;
use std::alloc::Global;
use std::str;
use stow_data::{Bytes, Word, WordList};
use stow_io::Folder;

/// A search whose lines are read.
#[derive(Drop)]
struct Search {
    begins: WordList,
    lines: WordList,
}

/// Follows a line.
fn follow<F: Folder>(
    alloc: Global,
    folder: &mut F,
    search: &mut Search,
    line: &str,
    out: &mut Bytes,
) -> Result<(), Stop> {
    let (word, rest) = match line.split_once(' ') {
        Some(halves) => halves,
        None => (line, ""),
    };
    if line.is_empty() || word == "#" {
        out.extend(line.as_bytes())?;
        out.push(b'\n')?;
    } else if word == "search" {
        search.begins = words_of(alloc, rest)?;
        search.lines = WordList::new(alloc);
    } else if word == "finish" {
        run(
            alloc,
            folder,
            search.begins.as_slice(),
            search.lines.as_slice(),
            out,
        )?;
    } else {
        search.lines.push(Word::of(alloc, line)?)?;
    }
    Ok(())
}

/// Runs the searches of a text.
fn probe_text<F: Folder>(
    alloc: Global,
    text: &str,
    folder: &mut F,
    out: &mut Bytes,
) -> Result<(), Stop> {
    let mut search = Search {
        begins: WordList::new(alloc),
        lines: WordList::new(alloc),
    };
    for line in text.lines() {
        follow(alloc, folder, &mut search, line, out)?;
    }
    Ok(())
}

/// Runs the searches of the file of this name.
pub fn probe<F: Folder>(
    alloc: Global,
    name: &str,
    folder: &mut F,
    out: &mut Bytes,
) -> Result<(), Stop> {
    let bytes = folder.read(name)?;
    let Ok(text) = str::from_utf8(bytes.as_slice()) else {
        return Err(Stop::Unclear);
    };
    probe_text(alloc, text, folder, out)
}
