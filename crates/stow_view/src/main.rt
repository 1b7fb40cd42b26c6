//! The program: for each bay plan file its picture beside it, and for several files a page that steps
//! through them; or the picture of a crane list.
#![tactic(auto)]

use crane_pictures::{draw_work, list_asked};
use picture_files::{Status, view};
use std::process::ExitCode;
use stow_io::{NoWords, RealFolder, RealOut, given_words};

fn main(rt: HostRuntime) -> ExitCode {
    let alloc = rt.alloc();
    let mut out = RealOut::new(&rt);
    let status = match given_words(&rt, alloc, &mut out) {
        Ok(words) => {
            let mut folder = RealFolder::new(&rt, alloc);
            let status = match list_asked(&words) {
                Some(name) => draw_work(alloc, name, &mut folder, &mut out),
                None => view(alloc, &words, &mut folder, &mut out),
            };
            drop(words);
            status
        }
        Err(NoWords::NoMemory) => Status::Memory,
        Err(NoWords::NotText) => Status::Words,
    };
    ExitCode::from(status as u8)
}
