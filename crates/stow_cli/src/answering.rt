//! The answers to orders.
ghost use Rattle.std.specs.Prelude.{◌≡◌, ◌≤◌, IfOk, IfErr};
ghost use Rattle.stow_io.specs.Causes.{Rose};
ghost use Rattle.stow_words.specs.Orders.{IsInRange};
ghost use Rattle.stow_cli.specs.Answers.{IsAnswerTo, IsReadFor};
ghost use Rattle.voyage_files.specs.Named.{names_of, IsStop, IsQuiet};
ghost use Rattle.voyage_files.specs.Names.{names_from};

use crate::checking::check;
use crate::cranes::cranes;
use crate::making::make;
use crate::planning::plan;
use crate::showing::show;
use std::alloc::Global;
use std::sync::Wait;
use std::thread::Threads;
use stow_data::{CallNo, NoMemory, Word};
use stow_io::{Folder, Gate};
use stow_words::Order;
use voyage_files::{Answer, Inputs, ReadStop};

/// What an order is answered. Nothing is written. A search for plans comes to the gate before each of its nodes.
pub fn answer_to<'a, F: Folder, G: Gate + Sync, R: Threads + Wait + Sync>(
    rt: &R,
    alloc: Global,
    order: &'a Order,
    folder: &mut F,
    gate: &G,
) -> Result<Answer, ReadStop<'a>>
    requires { IsInRange order.now }
    ensures stays { F.files folder.new ≡ F.files folder.old }
    ensures gives { IfOk result (IsAnswerTo order.now (F.files folder.old)) }
    ensures later { F.faults folder.old ≤ F.faults folder.new }
    ensures quiet { IsQuiet result (F.faults folder.old) (F.faults folder.new) }
    ensures failed { IfErr result (IsStop (Rose (F.faults folder.old) (F.faults folder.new)) (IsReadFor order.now (F.files folder.old))) }
{
    match order {
        Order::Plan {
            profile,
            bookings,
            name,
            arrival,
            workers,
            budget,
        } => {
            let inputs = inputs_from(profile, bookings, name, arrival);
            plan(rt, alloc, inputs, *workers, *budget, folder, gate)
        }
        Order::Check {
            profile,
            bookings,
            name,
            arrival,
        } => check(alloc, inputs_from(profile, bookings, name, arrival), folder),
        Order::Show { file } => show(alloc, file.as_str(), folder),
        Order::Make { number, name } => match make(rt, alloc, *number, name.as_str(), gate) {
            Ok(answer) => Ok(answer),
            Err(NoMemory) => Err(ReadStop::NoMemory),
        },
        Order::Cranes {
            profile,
            bookings,
            name,
            arrival,
            call,
            count,
        } => {
            let inputs = inputs_from(profile, bookings, name, arrival);
            cranes(alloc, inputs, CallNo(*call), *count, folder)
        }
    }
}

/// The names of the inputs.
fn inputs_from<'a>(
    profile: &'a Word,
    bookings: &'a Word,
    base: &'a Word,
    arrival: &'a Option<Word>,
) -> Inputs<'a>
    ensures { names_of result ≡ names_from profile.now bookings.now base.now arrival.now }
{
    Inputs {
        profile: profile.as_str(),
        bookings: bookings.as_str(),
        base: base.as_str(),
        arrival: match arrival {
            Some(name) => Some(name.as_str()),
            None => None,
        },
    }
}
