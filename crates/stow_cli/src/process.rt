//! The program as it is run: the process's own words, folder and output, and the top call.
ghost use Rattle.std.specs.Prelude.{◌≡◌};
ghost use Rattle.std.specs.Process.{exit_status};
ghost use Rattle.stow_cli.specs.Program.{IsExit, IsProgram, IsRunOf, ending_without_words};

use crate::status::Status;
use crate::top::stow;
use std::alloc::Global;
use std::io::Print;
use std::process::ExitCode;
use std::rt::{Env, Files};
use std::sync::Wait;
use std::thread::Threads;
use stow_data::WordList;
use stow_io::{NoGate, NoWords, RealFolder, RealOut, given_words};

/// How the program ends where there are no words.
fn ending_without_words(no: NoWords) -> Status
    ensures { result ≡ ending_without_words no }
{
    match no {
        NoWords::NoMemory => Status::Memory,
        NoWords::NotText => Status::Words,
    }
}

/// Does what these words ask for, over the process's folder and output.
fn run<R: Alloc<A = Global> + Files + Print + Threads + Wait + Sync>(
    rt: &R,
    words: &WordList,
    out: &mut RealOut<'_, R>,
) -> Status
    requires { out.old ≡ 0 }
    ensures { IsRunOf words.now result }
{
    let alloc = rt.alloc();
    let mut folder = RealFolder::new(rt, alloc);
    stow(rt, alloc, words, &mut folder, out, &NoGate)
}

/// Runs the program, and answers how it ended.
pub fn program<R: Env + Alloc<A = Global> + Files + Print + Threads + Wait + Sync>(rt: &R) -> Status
    ensures { IsProgram result }
{
    let mut out = RealOut::new(rt);
    match given_words(rt, rt.alloc(), &mut out) {
        Ok(words) => run(rt, &words, &mut out),
        Err(no) => ending_without_words(no),
    }
}

/// Runs the program, and answers the number of how it ended, with which `main` ends the process.
pub fn exit_code<R: Env + Alloc<A = Global> + Files + Print + Threads + Wait + Sync>(
    rt: &R,
) -> ExitCode
    ensures { IsExit (exit_status result) }
{
    ExitCode::from(program(rt).number())
}
