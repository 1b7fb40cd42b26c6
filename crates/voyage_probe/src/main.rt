//! A probe of the public calls on voyages: it reads one file with ships, bookings, bay plans and questions, and prints line by line
//! what the calls answer. The rows of its stored run are worked out by hand.
#![tactic(auto)]

mod berths;
mod files;
mod lifting;
mod lines;
mod plans;
mod questions;
mod said;
mod stop;

use lines::probe;
use std::alloc::Global;
use std::process::ExitCode;
use std::rt::Files;
use stop::Stop;
use stow_data::Word;
use stow_io::{Folder, RealFolder, RealOut, Sink, given_words, say_name};

/// Answers the questions of the file of this name, and tells the status.
fn status_of<F: Folder, K: Sink>(alloc: Global, name: &str, folder: &mut F, out: &mut K) -> u8 {
    match probe(alloc, name, folder, out) {
        Ok(()) => 0,
        Err(Stop::Unclear) => {
            say_name(out, b"unclear ", name);
            6
        }
        Err(Stop::Failed) => 7,
        Err(Stop::NoMemory) => 8,
    }
}

/// The status of a run on these words.
fn run<R: Files, K: Sink>(rt: &R, alloc: Global, words: &[Word], out: &mut K) -> u8 {
    match words {
        [_, name] => status_of(alloc, name.as_str(), &mut RealFolder::new(rt, alloc), out),
        _ => 2,
    }
}

fn main(rt: HostRuntime) -> ExitCode {
    let alloc = rt.alloc();
    let mut out = RealOut::new(&rt);
    match given_words(&rt, alloc, &mut out) {
        Ok(words) => {
            let status = run(&rt, alloc, words.as_slice(), &mut out);
            drop(words);
            ExitCode::from(status)
        }
        Err(_) => ExitCode::from(2),
    }
}
