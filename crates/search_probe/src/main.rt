//! A probe of searches by events: it reads one file with searches and their events, and prints line by line what each event is
//! answered. The rows of its stored run are worked out by hand.
#![tactic(auto)]

mod events;
mod inputs;
mod lines;
mod said;
mod search;
mod stop;

use lines::probe;
use std::process::ExitCode;
use stop::Stop;
use stow_data::Bytes;
use stow_io::{RealFolder, RealOut, Sink, given_words, say_name};

fn main(rt: HostRuntime) -> ExitCode {
    let alloc = rt.alloc();
    let mut out = RealOut::new(&rt);
    let Ok(words) = given_words(&rt, alloc, &mut out) else {
        return ExitCode::from(2);
    };
    let name = match words.as_slice() {
        [_, name] => name.as_str(),
        _ => return ExitCode::from(2),
    };
    let mut folder = RealFolder::new(&rt, alloc);
    let mut text = Bytes::new(alloc);
    let end = probe(alloc, name, &mut folder, &mut text);
    if out.put(text.as_slice()).is_err() {
        return ExitCode::from(7);
    }
    match end {
        Ok(()) => ExitCode::from(0),
        Err(Stop::Unclear) => {
            say_name(&mut out, b"unclear ", name);
            ExitCode::from(6)
        }
        Err(Stop::Failed) => ExitCode::from(7),
        Err(Stop::NoMemory) => ExitCode::from(8),
    }
}
