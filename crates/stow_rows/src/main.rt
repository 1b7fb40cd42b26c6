//! Rows of the top call: each word names a table of runs over folders in memory, with what they must print and
//! write.
#![tactic(auto)]

mod draft;
mod line;
mod meeting;
mod stage;
mod table;

use std::alloc::Global;
use std::process::ExitCode;
use std::rt::Files;
use std::str;
use std::sync::Wait;
use std::thread::Threads;
use stow_data::{NoMemory, WordList};
use stow_io::{Folder, FolderNo, NoWords, RealFolder, RealOut, Sink, given_words, say};
use table::{Counts, gone_through};

/// Goes through the table of this name, prints what differs and how much was looked at, and answers how its
/// last run ended.
fn told_of<R: Files + Threads + Wait + Sync, K: Sink>(
    rt: &R,
    alloc: Global,
    name: &str,
    out: &mut K,
) -> Result<u8, FolderNo> {
    let bytes = RealFolder::new(rt, alloc).read(name)?;
    let Ok(text) = str::from_utf8(bytes.as_slice()) else {
        return Err(FolderNo::Failed);
    };
    let table = gone_through(rt, alloc, text)?;
    say(out, table.told());
    let counts = table.counts();
    let line = line_of(alloc, name, counts)?;
    say(out, line.as_bytes());
    Ok(table.last_status())
}

fn line_of(alloc: Global, name: &str, counts: Counts) -> Result<String, NoMemory> {
    let line = format!(in alloc;
        "{name}: {} cases, {} looks, {} differ\n",
        counts.cases, counts.looks, counts.differ
    )?;
    Ok(line)
}

/// Goes through the tables that the words name; the first word is the program's own name.
fn tables<R: Files + Threads + Wait + Sync, K: Sink>(
    rt: &R,
    alloc: Global,
    words: &WordList,
    out: &mut K,
) -> Result<u8, FolderNo> {
    let mut status = 0;
    for name in words.as_slice().iter().skip(1) {
        status = told_of(rt, alloc, name.as_str(), out)?;
    }
    Ok(status)
}

/// The program ends as the last run of its last table did, so that the shell sees that number too.
fn main(rt: HostRuntime) -> ExitCode {
    let alloc = rt.alloc();
    let mut out = RealOut::new(&rt);
    let ended = match given_words(&rt, alloc, &mut out) {
        Ok(words) => tables(&rt, alloc, &words, &mut out),
        Err(NoWords::NoMemory) => Err(FolderNo::NoMemory),
        Err(NoWords::NotText) => Err(FolderNo::Failed),
    };
    ExitCode::from(match ended {
        Ok(status) => status,
        Err(FolderNo::Failed) => 7,
        Err(FolderNo::NoMemory) => 8,
    })
}
