//! Runs parts of the search by themselves, so that rows of values stand as data and each part can be measured.
//!
//! The words are orders of five: which part, then the files of profile, bookings and records in the form of a certificate (`-` where there are
//! none), and a number. What is printed is the same at each run; how long a run takes is for the caller to look at.
//!
//! - `plain` and `kept` tighten the free box so many times, by rows that are looked up or kept, and tell how it ends.
//! - `steps` tightens the free box by the steps of the records, one by one, and tells of each whether it is violated before, and the box.
//! - `along` fixes the variables of the records one by one, tightens the box by all base rows after each, and tells how it ends, and the box.
//! - `dive` fixes what a planned voyage has at 1, one by one, and tightens the box after each, so many times over.
//! - `voyage` sails so many voyages by chance, and tells what the cheapest costs, and the variables of its stays.
//! - `value` tells the dual value of the box and the multipliers of the records, by its definition and kept from step to step.
//! - `raise` raises these multipliers against a cut, and looks whether any row of the program raises the dual value after that.
//! - `root` raises multipliers of the tightened free box, so many times over.
//! - `best` tells the greatest bound up to the number that the records prove as a tree.
//! - `gauge` and `prices` follow such dives by the dual value: its box alone, or raised at each node too.
//! - `work` ends the root against a cut; `nodes` goes down from the root by value 1 with one state, so many times over; `again` begins the root and
//!   the last node of such a way in turn.
#![tactic(auto)]

mod bounds;
mod files;
mod nodes;
mod orders;

use orders::write_orders;
use std::process::ExitCode;
use stow_data::Bytes;
use stow_io::{RealFolder, RealOut, Sink, given_words};

fn main(rt: HostRuntime) -> ExitCode {
    let alloc = rt.alloc();
    let mut out = RealOut::new(&rt);
    let Ok(words) = given_words(&rt, alloc, &mut out) else {
        return ExitCode::from(2);
    };
    let mut folder = RealFolder::new(&rt, alloc);
    let mut text = Bytes::new(alloc);
    let [_, orders @ ..] = words.as_slice() else {
        return ExitCode::from(2);
    };
    if write_orders(alloc, orders, &mut folder, &mut text).is_err() {
        return ExitCode::from(8);
    }
    match out.put(text.as_slice()) {
        Ok(()) => ExitCode::from(0),
        Err(_) => ExitCode::from(7),
    }
}
