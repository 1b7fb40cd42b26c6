//! Departure files: their texts, the plans that they show, and their check.
ghost use Rattle.std.specs.Prelude.{◌≡◌, ◌≤◌, ◌^◌, ◌+◌, All, IfOk, IfSome, length};
ghost use Rattle.arrival_plan.specs.Settled.{AreRead, groups_of};
ghost use Rattle.voyage_files.specs.Booked.{IsBooked};

use crate::plans::{comes_in_stowed, is_sound};
use crate::said::{say, say_call, say_count, say_line, say_number, say_plan, say_plan_no};
use crate::stop::Stop;
use arrival_plan::{read_can_be_settled, settle};
use baplie::{BaplieFault, CellGroup, Message, MessageList, read_baplie};
use plan_files::{FileNo, PlanNo, check_plan, departure_text, plan_of_message};
use std::alloc::Global;
use stow_data::{Bytes, CallNo, Cargo, ContainerNo, NoMemory, Plan, PlanList, Ship, Word};
use stow_io::{Folder, MOST_READ, SureFolder};
use stow_report::file_line;
use voyage_files::BookedVoyage;

/// The cell groups of the bay plan with which the ship comes in.
fn arrived_groups(v: &BookedVoyage) -> &[CellGroup]
    ensures { result.now ≡ groups_of v.now.message }
{
    match &v.message {
        Some(message) => message.groups.as_slice(),
        None => &[],
    }
}

/// Settles the cargo so many times with the bay plan of this text.
pub fn settle_often(
    alloc: Global,
    v: &BookedVoyage,
    bytes: &[u8],
    times: u32,
    out: &mut Bytes,
) -> Result<(), Stop>
    requires { IsBooked v.now }
{
    match message_of(alloc, bytes, out)? {
        Some(message) => {
            settle_with(alloc, v, &message, times);
            drop(message);
            Ok(())
        }
        None => Ok(()),
    }
}

/// Settles the cargo so many times with this bay plan.
fn settle_with(alloc: Global, v: &BookedVoyage, message: &Message, times: u32)
    requires booked { IsBooked v.now }
    requires read { AreRead message.now.groups }
{
    for _ in 0..times {
        drop(settle(alloc, &v.ship, &v.bookings, Some(message)));
    }
}

/// Prints the containers of a cargo in their order, each with its id and the calls at which it loads and leaves.
pub fn say_cargo(out: &mut Bytes, cargo: &Cargo) -> Result<(), NoMemory> {
    for c in 0..cargo.len() {
        say_container(out, cargo, ContainerNo(c))?;
    }
    say_count(out, "containers", u64::from(cargo.len()))
}

/// Prints the container of a number, if there is one.
fn say_container(out: &mut Bytes, cargo: &Cargo, c: ContainerNo) -> Result<(), NoMemory> {
    if c.0 >= cargo.len() {
        return Ok(());
    }
    let container = cargo.container(c);
    out.extend(container.id.bytes())?;
    say(out, " from")?;
    say_number(out, u64::from(container.load.0))?;
    say_count(out, " to", u64::from(container.dest.0))
}

/// The text of the departure file of a call; none where the plan isn't well formed or the call isn't one before the last.
fn text_of(
    alloc: Global,
    v: &BookedVoyage,
    call: CallNo,
    plan: &Plan,
) -> Result<Option<Bytes>, NoMemory>
    requires { IsBooked v.now }
{
    if call.0 >= v.cargo.calls() || !is_sound(&v.ship, &v.cargo, plan) {
        return Ok(None);
    }
    let text = departure_text(
        alloc,
        &v.ship,
        &v.cargo,
        &v.bookings,
        arrived_groups(v),
        plan,
        call.0,
    )?;
    Ok(Some(text))
}

/// The plan of a call, of which the first is that of call 1.
fn plan_at(plans: &PlanList, call: CallNo) -> Option<&Plan> {
    if call.0 == 0 || call.0 as usize > plans.len() {
        return None;
    }
    Some(plans.at(call.0 as usize - 1))
}

/// Prints the text of the departure file of a call.
pub fn say_file(
    alloc: Global,
    v: &BookedVoyage,
    plans: &PlanList,
    call: CallNo,
    out: &mut Bytes,
) -> Result<(), Stop>
    requires { IsBooked v.now }
{
    let Some(plan) = plan_at(plans, call) else {
        return Err(Stop::Unclear);
    };
    match text_of(alloc, v, call, plan)? {
        Some(text) => out.extend(text.as_slice())?,
        None => say(out, "not well formed\n")?,
    }
    Ok(())
}

/// A message, or the line of the fault of its text.
fn message_of(alloc: Global, bytes: &[u8], out: &mut Bytes) -> Result<Option<Message>, Stop>
    ensures { IfOk result (λ o. IfSome o (λ m. AreRead m.groups)) }
{
    if bytes.len() > MOST_READ {
        return Err(Stop::Unclear);
    }
    read_can_be_settled();
    match read_baplie(alloc, bytes) {
        Ok(message) => Ok(Some(message)),
        Err(BaplieFault::NoMemory) => Err(Stop::NoMemory),
        Err(fault) => {
            say_fault_of(alloc, fault, out)?;
            Ok(None)
        }
    }
}

/// Prints the line of the fault of a text that is no message.
fn say_fault_of(alloc: Global, fault: BaplieFault, out: &mut Bytes) -> Result<(), NoMemory> {
    let line = file_line(alloc, fault)?;
    let said = say_line(alloc, out, &line);
    drop(line);
    said
}

/// Prints the plan that a text shows at a call, or why it shows none.
pub fn say_shown(
    alloc: Global,
    v: &BookedVoyage,
    call: CallNo,
    bytes: &[u8],
    out: &mut Bytes,
) -> Result<(), Stop> {
    match message_of(alloc, bytes, out)? {
        Some(message) => {
            let said = say_message(alloc, v, call, &message, out);
            drop(message);
            Ok(said?)
        }
        None => Ok(()),
    }
}

/// Prints the plan that a message shows at a call, or why it shows none.
fn say_message(
    alloc: Global,
    v: &BookedVoyage,
    call: CallNo,
    message: &Message,
    out: &mut Bytes,
) -> Result<(), NoMemory>
    requires { length message.now.groups ≤ 2 ^ 29 }
{
    match plan_of_message(alloc, &v.ship, &v.cargo, message, call) {
        Ok(plan) => {
            let said = say_plan_at(out, &v.ship, call, &plan);
            drop(plan);
            said
        }
        Err(FileNo::NoMemory) => Err(NoMemory),
        Err(no) => say_plan_no(alloc, out, PlanNo::File { call, no }),
    }
}

/// Prints the plan that is shown at a call.
fn say_plan_at(out: &mut Bytes, ship: &Ship, call: CallNo, plan: &Plan) -> Result<(), NoMemory> {
    say_call(out, "shown at", call)?;
    say_plan(out, ship, plan)
}

/// Prints the plan that the departure file of a departure shows.
fn say_own_one(
    alloc: Global,
    v: &BookedVoyage,
    call: CallNo,
    plan: &Plan,
    out: &mut Bytes,
) -> Result<(), Stop>
    requires { IsBooked v.now }
{
    match text_of(alloc, v, call, plan)? {
        Some(text) => say_shown(alloc, v, call, text.as_slice(), out),
        None => Ok(say(out, "not well formed\n")?),
    }
}

/// Prints the plan that the departure file of each departure shows.
pub fn say_own(
    alloc: Global,
    v: &BookedVoyage,
    plans: &PlanList,
    out: &mut Bytes,
) -> Result<(), Stop>
    requires { IsBooked v.now }
{
    let mut call: u32 = 1;
    for plan in plans {
        say_own_one(alloc, v, CallNo(call), plan, out)?;
        call = call.saturating_add(1);
    }
    Ok(())
}

/// Appends a message.
#[tactic(auto, using(crate::proofs::Messages::few_push))]
fn add_message(messages: &mut MessageList, message: Message) -> Result<(), NoMemory>
    requires few { All (λ m. length m.groups ≤ 2 ^ 29) messages.old }
    requires small { length message.groups ≤ 2 ^ 29 }
    ensures { All (λ m. length m.groups ≤ 2 ^ 29) messages.new }
{
    messages.push(message)
}

/// Appends the message of a file; false where its text is none, whose fault is printed.
fn add_named(
    alloc: Global,
    files: &mut SureFolder,
    name: &str,
    messages: &mut MessageList,
    out: &mut Bytes,
) -> Result<bool, Stop>
    requires { All (λ m. length m.groups ≤ 2 ^ 29) messages.old }
    ensures { All (λ m. length m.groups ≤ 2 ^ 29) messages.new }
{
    let text = files.read(name)?;
    let read = message_of(alloc, text.as_slice(), out);
    drop(text);
    match read? {
        Some(message) => {
            add_message(messages, message)?;
            Ok(true)
        }
        None => Ok(false),
    }
}

/// Appends the messages of the files of these names; false where a text is none, whose fault is printed.
fn add_messages(
    alloc: Global,
    files: &mut SureFolder,
    names: &[Word],
    messages: &mut MessageList,
    out: &mut Bytes,
) -> Result<bool, Stop>
    requires { All (λ m. length m.groups ≤ 2 ^ 29) messages.old }
    ensures { All (λ m. length m.groups ≤ 2 ^ 29) messages.new }
{
    let Some((name, others)) = names.split_first() else {
        return Ok(true);
    };
    if !add_named(alloc, files, name.as_str(), messages, out)? {
        return Ok(false);
    }
    add_messages(alloc, files, others, messages, out)
}

/// Prints the cost of the departures that files show, of which the first is that of call 1, or why they are refused.
pub fn say_check(
    alloc: Global,
    v: &BookedVoyage,
    files: &mut SureFolder,
    names: &[Word],
    out: &mut Bytes,
) -> Result<(), Stop>
    requires { IsBooked v.now }
{
    let mut messages = MessageList::new(alloc);
    let said = match add_messages(alloc, files, names, &mut messages, out) {
        Ok(true) => say_checked(alloc, v, &messages, out),
        Ok(false) => Ok(()),
        Err(stop) => Err(stop),
    };
    drop(messages);
    said
}

/// Prints the cost of the departures that messages show, of which the first is that of call 1, or why they are refused.
fn say_checked(
    alloc: Global,
    v: &BookedVoyage,
    messages: &MessageList,
    out: &mut Bytes,
) -> Result<(), Stop>
    requires booked { IsBooked v.now }
    requires few { All (λ m. length m.groups ≤ 2 ^ 29) messages.now }
{
    if messages.len() >= 12 || messages.len() + 1 != v.cargo.calls() as usize {
        return Err(Stop::Unclear);
    }
    comes_in_stowed(v);
    match check_plan(alloc, &v.ship, &v.cargo, messages) {
        Ok(cost) => Ok(say_count(out, "cost", cost)?),
        Err(PlanNo::NoMemory) => Err(Stop::NoMemory),
        Err(no) => Ok(say_plan_no(alloc, out, no)?),
    }
}
