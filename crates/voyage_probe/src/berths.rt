//! A ship at the berth of a call, and moves there.
ghost use Rattle.voyage_meaning.specs.Berths.{BelongsTo};

use crate::plans::is_sound;
use crate::said::{say, say_count};
use crate::stop::Stop;
use std::alloc::Global;
use stow_data::{Bytes, CallNo, Cargo, ContainerNo, CoverNo, NoMemory, PlaceNo, Plan, Ship};
use voyage_meaning::{Berth, Move, MoveFault, Unfinished};

fn number_of(text: &str) -> Option<u32> {
    text.parse::<u32>().ok()
}

/// The move of a word: `off:0`, `on:0`, `lift:2`, `put:1:2`.
pub fn move_of(word: &str) -> Option<Move> {
    let (verb, rest) = word.split_once(':')?;
    if verb == "off" {
        return Some(Move::OffCover(CoverNo(number_of(rest)?)));
    }
    if verb == "on" {
        return Some(Move::OnCover(CoverNo(number_of(rest)?)));
    }
    if verb == "lift" {
        return Some(Move::Lift(PlaceNo(number_of(rest)?)));
    }
    let (c, p) = rest.split_once(':')?;
    Some(Move::Put(ContainerNo(number_of(c)?), PlaceNo(number_of(p)?)))
}

/// Prints a move as such a word, with a blank before it.
pub fn say_move(out: &mut Bytes, m: Move) -> Result<(), NoMemory> {
    match m {
        Move::OffCover(k) => say_numbered(out, " off", k.0),
        Move::OnCover(k) => say_numbered(out, " on", k.0),
        Move::Lift(p) => say_numbered(out, " lift", p.0),
        Move::Put(c, p) => {
            say_numbered(out, " put", c.0)?;
            say_numbered(out, "", p.0)
        }
    }
}

fn say_numbered(out: &mut Bytes, word: &str, number: u32) -> Result<(), NoMemory> {
    let mut buffer = itoa::Buffer::new();
    say(out, word)?;
    out.push(b':')?;
    out.extend(buffer.format(number).as_bytes())
}

/// Prints a refusal: its number in the order of refusals, and what it names.
fn say_refusal(out: &mut Bytes, fault: MoveFault) -> Result<(), NoMemory> {
    match fault {
        MoveFault::NotThere => say(out, "refused 1 NotThere\n"),
        MoveFault::NotOnQuay => say(out, "refused 2 NotOnQuay\n"),
        MoveFault::DoesNotFit => say(out, "refused 3 DoesNotFit\n"),
        MoveFault::CoverOver { cover } => say_count(out, "refused 4 CoverOver", u64::from(cover.0)),
        MoveFault::CoverMissing { cover } => say_count(
            out,
            "refused 5 CoverMissing",
            u64::from(cover.0),
        ),
        MoveFault::Blocked { half } => say_count(out, "refused 6 Blocked", u64::from(half.0)),
        MoveFault::Taken { half } => say_count(out, "refused 7 Taken", u64::from(half.0)),
        MoveFault::Unsupported { half } => say_count(
            out,
            "refused 8 Unsupported",
            u64::from(half.0),
        ),
        MoveFault::Standing { half } => say_count(out, "refused 9 Standing", u64::from(half.0)),
        MoveFault::AlreadySo { cover } => say_count(
            out,
            "refused 10 AlreadySo",
            u64::from(cover.0),
        ),
    }
}

/// Prints the container that is left on the quay, or the cover that is left off.
fn say_left(out: &mut Bytes, left: Unfinished) -> Result<(), NoMemory> {
    match left {
        Unfinished::Quay(c) => say_count(out, "on the quay", u64::from(c.0)),
        Unfinished::Off(k) => say_count(out, "cover off", u64::from(k.0)),
    }
}

/// Prints what is unfinished, if something is.
pub fn say_unfinished(out: &mut Bytes, unfinished: Option<Unfinished>) -> Result<(), NoMemory> {
    let Some(first) = unfinished else {
        return say(out, "nothing is unfinished\n");
    };
    say_left(out, first)
}

/// Does a move and prints what it is answered.
fn step_and_say(
    ship: &Ship,
    cargo: &Cargo,
    berth: &mut Berth,
    m: &Move,
    out: &mut Bytes,
) -> Result<(), NoMemory>
    requires { BelongsTo ship.now cargo.now berth.old.state }
    ensures { BelongsTo ship.now cargo.now berth.new.state }
{
    if !berth.has(*m) {
        return say(out, " no such number\n");
    }
    match berth.step(ship, cargo, *m) {
        Ok(()) => say(out, " done\n"),
        Err(fault) => {
            say(out, " ")?;
            say_refusal(out, fault)
        }
    }
}

/// Does the moves of a text, and prints what each is answered.
fn steps_and_say(
    ship: &Ship,
    cargo: &Cargo,
    berth: &mut Berth,
    moves: &str,
    out: &mut Bytes,
) -> Result<(), Stop>
    requires { BelongsTo ship.now cargo.now berth.old.state }
    ensures { BelongsTo ship.now cargo.now berth.new.state }
{
    for word in moves.split_whitespace() {
        let Some(m) = move_of(word) else {
            return Err(Stop::Unclear);
        };
        say(out, word)?;
        step_and_say(ship, cargo, berth, &m, out)?;
    }
    Ok(())
}

/// Does the moves of a text, and prints what each is answered, and what then is unfinished.
fn say_moves_at(
    ship: &Ship,
    cargo: &Cargo,
    berth: &mut Berth,
    moves: &str,
    out: &mut Bytes,
) -> Result<(), Stop>
    requires { BelongsTo ship.now cargo.now berth.old.state }
{
    steps_and_say(ship, cargo, berth, moves, out)?;
    Ok(say_unfinished(out, berth.unfinished())?)
}

/// Does the moves of a text at a call that begins with this plan, and prints what each is answered, and what then is unfinished.
pub fn say_moves(
    alloc: Global,
    ship: &Ship,
    cargo: &Cargo,
    call: CallNo,
    plan: Plan,
    moves: &str,
    out: &mut Bytes,
) -> Result<(), Stop> {
    if !is_sound(ship, cargo, &plan) {
        drop(plan);
        return Ok(say(out, "not well formed\n")?);
    }
    let mut berth = Berth::arrive(alloc, ship, cargo, plan, call)?;
    let said = say_moves_at(ship, cargo, &mut berth, moves, out);
    drop(berth);
    said
}
