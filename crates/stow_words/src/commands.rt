//! The command line as `clap` is told of it: five subcommands with their positionals and options.
ghost use Rattle.std.specs.Prelude.{◌≡◌, IfOk, IsOkAnd, false};
ghost use Rattle.clap.specs.Words.{AddsSubcommand, app_of, rule_of};
ghost use Rattle.stow_words.specs.Orders.{verb_named};
ghost use Rattle.stow_words.specs.Command.{needed, optional, plan_app, check_app, show_app, make_app, cranes_app, stow_app};

use clap::{Arg, Command};
use std::alloc::{AllocError, Global};

// A positional argument that is needed.
fn needed_argument<'a>(alloc: Global, id: &'a str) -> Arg<'a>
    ensures rule { rule_of result ≡ needed id.entry.now }
    ensures local { result.global ≡ false }
{
    Arg::new(alloc, id).required(true)
}

// An option with one value.
fn option_argument<'a>(alloc: Global, id: &'a str) -> Arg<'a>
    ensures rule { rule_of result ≡ optional id.entry.now }
    ensures local { result.global ≡ false }
{
    Arg::new(alloc, id).long(id)
}

fn plan_command<'a>(alloc: Global) -> Result<Command<'a>, AllocError>
    ensures { IfOk result (λ c. app_of c ≡ plan_app) }
{
    Command::new(alloc, "plan")
        .arg(needed_argument(alloc, "profile"))?
        .arg(needed_argument(alloc, "bookings"))?
        .arg(needed_argument(alloc, "name"))?
        .arg(option_argument(alloc, "arrival"))?
        .arg(option_argument(alloc, "workers"))?
        .arg(option_argument(alloc, "budget"))
}

fn check_command<'a>(alloc: Global) -> Result<Command<'a>, AllocError>
    ensures { IfOk result (λ c. app_of c ≡ check_app) }
{
    Command::new(alloc, "check")
        .arg(needed_argument(alloc, "profile"))?
        .arg(needed_argument(alloc, "bookings"))?
        .arg(needed_argument(alloc, "name"))?
        .arg(option_argument(alloc, "arrival"))
}

fn show_command<'a>(alloc: Global) -> Result<Command<'a>, AllocError>
    ensures { IfOk result (λ c. app_of c ≡ show_app) }
{
    Command::new(alloc, "show").arg(needed_argument(alloc, "file"))
}

fn make_command<'a>(alloc: Global) -> Result<Command<'a>, AllocError>
    ensures { IfOk result (λ c. app_of c ≡ make_app) }
{
    Command::new(alloc, "make")
        .arg(needed_argument(alloc, "number"))?
        .arg(needed_argument(alloc, "name"))
}

fn cranes_command<'a>(alloc: Global) -> Result<Command<'a>, AllocError>
    ensures { IfOk result (λ c. app_of c ≡ cranes_app) }
{
    Command::new(alloc, "cranes")
        .arg(needed_argument(alloc, "profile"))?
        .arg(needed_argument(alloc, "bookings"))?
        .arg(needed_argument(alloc, "name"))?
        .arg(needed_argument(alloc, "call"))?
        .arg(needed_argument(alloc, "count"))?
        .arg(option_argument(alloc, "arrival"))
}

// A command with one subcommand more, where there was memory for that.
fn with_subcommand<'a>(
    command: Command<'a>,
    subcommand: Result<Command<'a>, AllocError>,
) -> Result<Command<'a>, AllocError>
    ensures { IfOk result (λ r. IsOkAnd subcommand.entry (λ sub. AddsSubcommand command.entry sub r)) }
{
    command.subcommand(subcommand?)
}

/// The whole command line.
pub fn stow_command<'a>(alloc: Global) -> Result<Command<'a>, AllocError>
    ensures { IfOk result (λ c. app_of c ≡ stow_app) }
{
    let stow = Command::new(alloc, "stow")
        .subcommand_required(true)
        .disable_help_subcommand(true);
    let stow = with_subcommand(stow, plan_command(alloc))?;
    let stow = with_subcommand(stow, check_command(alloc))?;
    let stow = with_subcommand(stow, show_command(alloc))?;
    let stow = with_subcommand(stow, make_command(alloc))?;
    with_subcommand(stow, cranes_command(alloc))
}

/// The subcommands.
#[derive(Clone, Copy)]
pub enum Verb {
    Plan,
    Check,
    Show,
    Make,
    Cranes,
}

/// The subcommand of a name.
pub fn verb_of(name: &str) -> Option<Verb>
    ensures { result ≡ verb_named name.now }
{
    match name {
        "plan" => Some(Verb::Plan),
        "check" => Some(Verb::Check),
        "show" => Some(Verb::Show),
        "make" => Some(Verb::Make),
        "cranes" => Some(Verb::Cranes),
        _ => None,
    }
}
