//! The ship at the berths of a voyage, move by move.
ghost use Rattle.std.specs.Prelude.{◌≡◌, length};
ghost use Rattle.stowage_rules.specs.Plan.{IsWellFormed};
ghost use Rattle.plan_lifts.specs.Lifted.{ArePlans};
ghost use Rattle.voyage_meaning.specs.Berths.{BelongsTo};

use crate::words::{write_count, write_numbers};
use plan_lifts::MoveLists;
use std::alloc::Global;
use stow_data::{Bytes, CallNo, Cargo, NoMemory, PlaceNo, Plan, PlanList, Ship};
use voyage_meaning::{Berth, Move, MoveFault, MoveList};

fn write_move(m: &Move, out: &mut Bytes) -> Result<(), NoMemory> {
    match *m {
        Move::OffCover(k) => write_numbers(out, b"off", &[k.0]),
        Move::OnCover(k) => write_numbers(out, b"on", &[k.0]),
        Move::Lift(p) => write_numbers(out, b"lift", &[p.0]),
        Move::Put(c, p) => write_numbers(out, b"put", &[c.0, p.0]),
    }
}

fn write_fault(fault: &MoveFault, out: &mut Bytes) -> Result<(), NoMemory> {
    match *fault {
        MoveFault::NotThere => out.extend(b" not there"),
        MoveFault::NotOnQuay => out.extend(b" not on the quay"),
        MoveFault::DoesNotFit => out.extend(b" doesn't fit"),
        MoveFault::CoverOver { cover } => write_numbers(out, b" under cover", &[cover.0]),
        MoveFault::CoverMissing { cover } => write_numbers(out, b" without cover", &[cover.0]),
        MoveFault::Blocked { half } => write_numbers(out, b" blocked by", &[half.0]),
        MoveFault::Taken { half } => write_numbers(out, b" taken at", &[half.0]),
        MoveFault::Unsupported { half } => write_numbers(out, b" unsupported at", &[half.0]),
        MoveFault::Standing { half } => write_numbers(out, b" standing at", &[half.0]),
        MoveFault::AlreadySo { cover } => write_numbers(out, b" so already", &[cover.0]),
    }
}

fn write_unfinished(berth: &Berth, out: &mut Bytes) -> Result<(), NoMemory> {
    if berth.unfinished().is_none() {
        out.extend(b"finished\n")
    } else {
        out.extend(b"unfinished\n")
    }
}

/// A move at a berth, and why it is refused if it is.
fn write_step(
    ship: &Ship,
    cargo: &Cargo,
    berth: &mut Berth,
    m: &Move,
    out: &mut Bytes,
) -> Result<(), NoMemory>
    requires { BelongsTo ship.now cargo.now berth.old.state }
    ensures { BelongsTo ship.now cargo.now berth.new.state }
{
    write_move(m, out)?;
    if berth.has(*m) {
        if let Err(fault) = berth.step(ship, cargo, *m) {
            write_fault(&fault, out)?;
        }
    }
    out.extend(b"\n")
}

/// A lift of a place by itself, at the beginning of a call.
fn write_alone(
    alloc: Global,
    ship: &Ship,
    cargo: &Cargo,
    call: CallNo,
    before: &Plan,
    p: PlaceNo,
    out: &mut Bytes,
) -> Result<(), NoMemory>
    requires { IsWellFormed ship.now cargo.now before.now }
{
    out.extend(b"alone ")?;
    let plan = before.copy(alloc)?;
    let mut berth = Berth::arrive(alloc, ship, cargo, plan, call)?;
    let written = write_step(ship, cargo, &mut berth, &Move::Lift(p), out);
    drop(berth);
    written
}

/// Moves at a berth, and whether all is finished behind them.
fn write_moves(
    ship: &Ship,
    cargo: &Cargo,
    berth: &mut Berth,
    moves: &MoveList,
    out: &mut Bytes,
) -> Result<(), NoMemory>
    requires { BelongsTo ship.now cargo.now berth.old.state }
{
    for m in moves.as_slice() {
        write_step(ship, cargo, berth, m, out)?;
    }
    write_unfinished(berth, out)
}

/// The moves of a call, after a lift of each place by itself is tried.
fn write_call(
    alloc: Global,
    ship: &Ship,
    cargo: &Cargo,
    call: CallNo,
    before: &Plan,
    moves: &MoveList,
    out: &mut Bytes,
) -> Result<(), NoMemory>
    requires { IsWellFormed ship.now cargo.now before.now }
{
    write_count(out, b"call", u64::from(call.0))?;
    for p in 0..ship.places() {
        write_alone(alloc, ship, cargo, call, before, PlaceNo(p), out)?;
    }
    let plan = before.copy(alloc)?;
    let mut berth = Berth::arrive(alloc, ship, cargo, plan, call)?;
    let written = write_moves(ship, cargo, &mut berth, moves, out);
    drop(berth);
    written
}

/// The moves of a voyage, call by call.
pub fn write_voyage(
    alloc: Global,
    ship: &Ship,
    cargo: &Cargo,
    plans: &PlanList,
    voyage: &MoveLists,
    out: &mut Bytes,
) -> Result<(), NoMemory>
    requires arrival { IsWellFormed ship.now cargo.now cargo.now.arrival }
    requires plans { ArePlans ship.now cargo.now 1 plans.now }
{
    write_from(
        alloc,
        ship,
        cargo,
        CallNo(1),
        cargo.arrival(),
        plans.as_slice(),
        voyage.as_slice(),
        out,
    )
}

/// The same from a call on.
fn write_from(
    alloc: Global,
    ship: &Ship,
    cargo: &Cargo,
    call: CallNo,
    before: &Plan,
    plans: &[Plan],
    voyage: &[MoveList],
    out: &mut Bytes,
) -> Result<(), NoMemory>
    requires before { IsWellFormed ship.now cargo.now before.now }
    requires plans { ArePlans ship.now cargo.now call plans.now }
{
    let (Some((after, others)), Some((moves, rest))) = (plans.split_first(), voyage.split_first())
    else {
        return Ok(());
    };
    write_call(alloc, ship, cargo, call, before, moves, out)?;
    if call.0 > 12 {
        return Ok(());
    }
    write_from(
        alloc,
        ship,
        cargo,
        CallNo(call.0 + 1),
        after,
        others,
        rest,
        out,
    )
}
