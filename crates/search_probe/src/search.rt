//! One search: its events in order, and what they are answered.
ghost use Rattle.std.specs.Prelude.{◌≡◌, ◌<◌};
ghost use Rattle.stowage_rules.specs.Departure.{HasArrival};
ghost use Rattle.search_core.specs.Machine.{IsWorker};

use crate::events::{event_of, number_of, words_of};
use crate::inputs::{Voyage, records_of, voyage_of};
use crate::said::{say, say_cause, say_entry, say_number, say_path};
use crate::stop::Stop;
use certificate::Tree;
use crossing_law::crossing_rows_hold;
use event_search::{Core, Ended, Event, RecordJudge};
use std::alloc::Global;
use stow_data::{Bytes, NoMemory, Word};
use stow_io::Folder;
use zero_one_model::{Model, ModelNo};

/// With what a search begins.
#[derive(Clone, Copy)]
struct Start {
    workers: u32,
    start: u64,
    budget: u64,
    room: u32,
}

/// An event, and what it is answered.
fn happen(core: &mut Core<RecordJudge>, event: Event, out: &mut Bytes) -> Result<(), Stop> {
    if core.spare() == 0 {
        say(out, " no room")?;
        return Ok(());
    }
    match core.accept(event) {
        Ok(()) => say(out, " accepted")?,
        Err((cause, _)) => say_cause(out, cause)?,
    }
    Ok(())
}

/// The node in a worker's hand.
fn say_hand(
    alloc: Global,
    core: &Core<RecordJudge>,
    worker: u32,
    out: &mut Bytes,
) -> Result<(), Stop>
    requires { IsWorker core.now.state worker }
{
    match core.hand(alloc, worker)? {
        Some(node) => {
            say_path(out, &node.path)?;
            say(out, " records")?;
            say_number(out, node.trail.len() as u64)?;
        }
        None => say(out, " none")?,
    }
    Ok(())
}

/// How many nodes wait in a worker's deque, the value that it saw, and whether the node in its hand has a ticket.
fn say_worker(core: &Core<RecordJudge>, worker: u32, out: &mut Bytes) -> Result<(), Stop>
    requires { IsWorker core.now.state worker }
{
    say(out, " waiting")?;
    say_number(out, core.waiting(worker) as u64)?;
    match core.seen(worker) {
        Some(value) => {
            say(out, " seen")?;
            say_number(out, value)?;
        }
        None => say(out, " unseen")?,
    }
    if core.has_ticket(worker) {
        say(out, " ticket")?;
    }
    Ok(())
}

/// What a reading line asks of a worker: `hand 0`, `worker 0`.
fn look(
    alloc: Global,
    core: &Core<RecordJudge>,
    words: &[Word],
    out: &mut Bytes,
) -> Result<(), Stop> {
    let [word, worker] = words else {
        return Err(Stop::Unclear);
    };
    let worker = number_of(worker)?;
    if worker as usize >= core.workers() {
        return Err(Stop::Unclear);
    }
    match word.as_str() {
        "hand" => say_hand(alloc, core, worker, out),
        "worker" => say_worker(core, worker, out),
        _ => Err(Stop::Unclear),
    }
}

/// A line of a search: `word`, `reserve 3`, a look at a worker, or an event.
fn follow(
    alloc: Global,
    core: &mut Core<RecordJudge>,
    records: &Tree,
    line: &Word,
    out: &mut Bytes,
) -> Result<(), Stop> {
    say(out, line.as_str())?;
    say(out, ":")?;
    let words = words_of(alloc, line.as_str())?;
    if line.as_str() == "word" {
        say_number(out, core.word())?;
    } else if let Some(event) = event_of(alloc, words.as_slice(), records)? {
        happen(core, event, out)?;
    } else {
        look(alloc, core, words.as_slice(), out)?;
    }
    say(out, "\n")?;
    Ok(())
}

/// What a search ends with.
fn say_ended(ended: &Ended, out: &mut Bytes) -> Result<(), Stop> {
    for entry in ended.entries.as_slice() {
        say_entry(out, entry)?;
    }
    for path in ended.left.as_slice() {
        say(out, "left")?;
        say_path(out, path)?;
        say(out, "\n")?;
    }
    say(out, "entries")?;
    say_number(out, ended.entries.len() as u64)?;
    say(out, " left")?;
    say_number(out, ended.left.len() as u64)?;
    say(out, " word")?;
    say_number(out, ended.word)?;
    say(out, "\n")?;
    Ok(())
}

/// The lines of a search in order, with room for so many events.
fn follow_all(
    alloc: Global,
    core: &mut Core<RecordJudge>,
    room: u32,
    records: &Tree,
    lines: &[Word],
    out: &mut Bytes,
) -> Result<(), Stop> {
    core.reserve(room)?;
    for line in lines {
        follow(alloc, core, records, line, out)?;
    }
    Ok(())
}

/// Ends a search, and says what it ends with.
fn end(alloc: Global, core: Core<RecordJudge>, out: &mut Bytes) -> Result<(), Stop> {
    let ended = core.finish(alloc)?;
    say_ended(&ended, out)
}

/// A search as it begins.
fn core_of<'a>(
    alloc: Global,
    model: &'a Model<'a>,
    start: Start,
) -> Result<Core<RecordJudge<'a>>, NoMemory>
    requires voyage { HasArrival model.now.ship model.now.cargo }
    requires workers { 0 < start.workers }
{
    crossing_rows_hold();
    let judge = RecordJudge::new(alloc, model)?;
    Core::start(alloc, judge, start.workers, start.start, start.budget)
}

fn run_on<'a>(
    alloc: Global,
    model: &'a Model<'a>,
    records: &Tree,
    start: Start,
    lines: &[Word],
    out: &mut Bytes,
) -> Result<(), Stop>
    requires { HasArrival model.now.ship model.now.cargo }
{
    if start.workers == 0 {
        return Err(Stop::Unclear);
    }
    let mut core = core_of(alloc, model, start)?;
    follow_all(alloc, &mut core, start.room, records, lines, out)?;
    end(alloc, core, out)
}

fn run_of(
    alloc: Global,
    v: &Voyage,
    records: &Tree,
    start: Start,
    lines: &[Word],
    out: &mut Bytes,
) -> Result<(), Stop>
    requires { HasArrival v.now.ship v.now.cargo }
{
    match Model::build(alloc, &v.ship, &v.cargo) {
        Ok(model) => run_on(alloc, &model, records, start, lines, out),
        Err(ModelNo::TooLarge { .. }) => Err(Stop::Unclear),
        Err(ModelNo::NoMemory) => Err(Stop::NoMemory),
    }
}

/// With what a search begins: the number of workers, the value at the start, the budget, and for how many events room is made.
fn start_of(words: &[Word]) -> Result<Start, Stop> {
    let [workers, start, budget, room] = words else {
        return Err(Stop::Unclear);
    };
    Ok(Start {
        workers: number_of(workers)?,
        start: u64::from(number_of(start)?),
        budget: u64::from(number_of(budget)?),
        room: number_of(room)?,
    })
}

/// A search on a voyage, with the records of the file of this name.
fn run_with<F: Folder>(
    alloc: Global,
    folder: &mut F,
    v: &Voyage,
    name: &Word,
    start: Start,
    lines: &[Word],
    out: &mut Bytes,
) -> Result<(), Stop>
    requires { HasArrival v.now.ship v.now.cargo }
{
    let records = records_of(alloc, folder, name.as_str())?;
    run_of(alloc, v, &records, start, lines, out)
}

/// Runs a search. Its words are the names of profile, bookings and records, and with what it begins.
pub fn run<F: Folder>(
    alloc: Global,
    folder: &mut F,
    words: &[Word],
    lines: &[Word],
    out: &mut Bytes,
) -> Result<(), Stop> {
    let [profile, bookings, records, begins @ ..] = words else {
        return Err(Stop::Unclear);
    };
    let start = start_of(begins)?;
    let v = voyage_of(alloc, folder, profile.as_str(), bookings.as_str())?;
    run_with(alloc, folder, &v, records, start, lines, out)
}
