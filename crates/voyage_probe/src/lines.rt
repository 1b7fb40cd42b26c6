//! The lines of the probe's file: files, of which each stands between a line `<` with its name and a line `>`; the voyage that is
//! asked about, by the names of its files; its departures, where the loader's aren't meant; and questions. A line that begins with
//! `#` is printed as it is.
use crate::questions::{Asked, answer};
use crate::stop::Stop;
use std::alloc::Global;
use std::str;
use stow_data::{Bytes, NoMemory, Word, WordList};
use stow_io::{Folder, Sink, SureFolder};

/// What the lines have told so far.
#[derive(Drop)]
struct Told {
    files: SureFolder,
    /// The name of the file that is open, and its lines so far.
    name: Option<Word>,
    text: Bytes,
    asked: Asked,
}

/// A voyage of these files on which the ship comes in empty, the loader's departures, and each call once.
fn asked_of(alloc: Global, profile: &str, bookings: &str) -> Result<Asked, NoMemory> {
    let profile = Word::of(alloc, profile)?;
    match Word::of(alloc, bookings) {
        Ok(bookings) => Ok(Asked {
            profile,
            bookings,
            arrival: None,
            departures: WordList::new(alloc),
            times: 1,
        }),
        Err(no) => {
            drop(profile);
            Err(no)
        }
    }
}

/// The same where the ship comes in with the bay plan of this name.
fn asked_with(alloc: Global, asked: Asked, arrival: &str) -> Result<Asked, NoMemory> {
    match Word::of(alloc, arrival) {
        Ok(name) => Ok(Asked {
            arrival: Some(name),
            ..asked
        }),
        Err(no) => {
            drop(asked);
            Err(no)
        }
    }
}

fn nothing(alloc: Global) -> Result<Told, NoMemory> {
    let asked = asked_of(alloc, "", "")?;
    Ok(Told {
        files: SureFolder::new(alloc),
        name: None,
        text: Bytes::new(alloc),
        asked,
    })
}

/// A line within a file: one more of the file's, or its end.
fn take_in(alloc: Global, told: &mut Told, line: &str) -> Result<(), Stop> {
    if line != ">" {
        told.text.extend(line.as_bytes())?;
        told.text.push(b'\n')?;
        return Ok(());
    }
    if let Some(name) = told.name.take() {
        told.files.lay(name.as_str(), told.text.as_slice())?;
    }
    told.text = Bytes::new(alloc);
    Ok(())
}

/// The voyage of these files, the loader's departures, and each call once.
fn voyage(alloc: Global, names: &str) -> Result<Asked, Stop> {
    let mut words = names.split_whitespace();
    let (Some(profile), Some(bookings)) = (words.next(), words.next()) else {
        return Err(Stop::Unclear);
    };
    let asked = asked_of(alloc, profile, bookings)?;
    match words.next() {
        Some(arrival) => Ok(asked_with(alloc, asked, arrival)?),
        None => Ok(asked),
    }
}

/// A line outside the files; what is answered is printed.
fn follow(alloc: Global, told: &mut Told, line: &str, out: &mut Bytes) -> Result<(), Stop> {
    let (word, rest) = match line.split_once(' ') {
        Some(halves) => halves,
        None => (line, ""),
    };
    if word == "<" {
        told.name = Some(Word::of(alloc, rest)?);
    } else if word == "voyage" {
        told.asked = voyage(alloc, rest)?;
    } else if word == "departs" {
        told.asked.departures.push(Word::of(alloc, rest)?)?;
    } else if word == "times" {
        told.asked.times = rest.parse::<u32>().map_err(|_| Stop::Unclear)?;
    } else if line.is_empty() || word == "#" {
        out.extend(line.as_bytes())?;
        out.push(b'\n')?;
    } else {
        answer(alloc, &told.asked, &mut told.files, word, rest, out)?;
    }
    Ok(())
}

/// Follows a line, and prints what it is answered.
fn follow_line<K: Sink>(
    alloc: Global,
    told: &mut Told,
    line: &str,
    out: &mut K,
) -> Result<(), Stop> {
    if told.name.is_some() {
        return take_in(alloc, told, line);
    }
    let mut text = Bytes::new(alloc);
    follow(alloc, told, line, &mut text)?;
    if text.is_empty() {
        return Ok(());
    }
    Ok(out.put(text.as_slice())?)
}

/// Follows the lines of a text.
fn follow_lines<K: Sink>(
    alloc: Global,
    told: &mut Told,
    text: &str,
    out: &mut K,
) -> Result<(), Stop> {
    for line in text.lines() {
        follow_line(alloc, told, line, out)?;
    }
    Ok(())
}

/// Follows the lines of a text, from its first.
fn follow_text<K: Sink>(alloc: Global, text: &str, out: &mut K) -> Result<(), Stop> {
    let mut told = nothing(alloc)?;
    let followed = follow_lines(alloc, &mut told, text, out);
    drop(told);
    followed
}

/// Follows the lines of a file with these bytes.
fn follow_bytes<K: Sink>(alloc: Global, bytes: &[u8], out: &mut K) -> Result<(), Stop> {
    match str::from_utf8(bytes) {
        Ok(text) => follow_text(alloc, text, out),
        Err(_) => Err(Stop::Unclear),
    }
}

/// Answers the questions of the file of this name.
pub fn probe<F: Folder, K: Sink>(
    alloc: Global,
    name: &str,
    folder: &mut F,
    out: &mut K,
) -> Result<(), Stop> {
    let bytes = folder.read(name)?;
    let followed = follow_bytes(alloc, bytes.as_slice(), out);
    drop(bytes);
    followed
}
