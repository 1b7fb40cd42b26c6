//! The program once more, for a stored run that ends with 0; that of `stow_main` ends with another status.
#![tactic(auto)]

use std::process::ExitCode;
use stow_cli::exit_code;

fn main(rt: HostRuntime) -> ExitCode {
    exit_code(&rt)
}
