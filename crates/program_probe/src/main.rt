//! Prints what the 0-1 program of a voyage is and what its full boxes mean, so that rows of values stand as data.
//!
//! The words are orders of five: `sizes`, `variables`, `rows`, `steps`, `sums`, `tables`, `loaded` or `full`, then the files of profile, bookings, bay plan at
//! arrival and records in the form of a certificate, each `-` where there is none.
#![tactic(auto)]

mod berth;
mod bridge;
mod inputs;
mod orders;
mod program;
mod sums;
mod words;

use orders::write_orders;
use std::alloc::Global;
use std::process::ExitCode;
use std::rt::Files;
use stow_data::{Bytes, Word};
use stow_io::{Folder, RealFolder, RealOut, Sink, given_words};

/// Makes the text of some orders and prints it. The status is told.
fn put_orders<F: Folder, K: Sink>(
    alloc: Global,
    orders: &[Word],
    folder: &mut F,
    text: &mut Bytes,
    out: &mut K,
) -> u8 {
    if write_orders(alloc, orders, folder, text).is_err() {
        return 8;
    }
    match out.put(text.as_slice()) {
        Ok(()) => 0,
        Err(_) => 7,
    }
}

/// The status of a run on these words.
fn run<R: Files, K: Sink>(rt: &R, alloc: Global, words: &[Word], out: &mut K) -> u8 {
    let [_, orders @ ..] = words else {
        return 2;
    };
    let mut text = Bytes::new(alloc);
    let mut folder = RealFolder::new(rt, alloc);
    let status = put_orders(alloc, orders, &mut folder, &mut text, out);
    drop(text);
    status
}

fn main(rt: HostRuntime) -> ExitCode {
    let alloc = rt.alloc();
    let mut out = RealOut::new(&rt);
    match given_words(&rt, alloc, &mut out) {
        Ok(words) => {
            let status = run(&rt, alloc, words.as_slice(), &mut out);
            drop(words);
            ExitCode::from(status)
        }
        Err(_) => ExitCode::from(2),
    }
}
