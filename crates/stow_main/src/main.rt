//! The program.
#![tactic(auto)]

use std::process::ExitCode;
use stow_cli::exit_code;

fn main(rt: HostRuntime) -> ExitCode {
    exit_code(&rt)
}
