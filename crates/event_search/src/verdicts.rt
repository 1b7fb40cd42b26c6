//! Records judged at the end of a way.
ghost use Rattle.std.specs.Prelude.{◌≡◌, ◌<◌, ◌↔◌, IsTrue, None, Some, true, length, slice_get, pos, ◌+ℤ◌, ◌-ℤ◌, ◌*ℤ◌};
ghost use Rattle.zero_one_rows.specs.Variables.{variables};
ghost use Rattle.zero_one_rows.specs.Rows.{whole};
ghost use Rattle.certificate.specs.Entries.{entry_of, end_of, number_of};
ghost use Rattle.search_core.specs.Machine.{Divides};
ghost use Rattle.event_search.specs.JudgingEvents.{IsRecord, IsLeaf, IsBranch, JudgesClose, JudgesBranch, JudgesOffer};
ghost use Rattle.event_search.specs.Nodes.{along};
ghost use Rattle.event_search.specs.JudgeStates.{IsReady, IsAt, TalliesAfter};

use crate::boxes::stand_after;
use crate::event_nodes::Step;
use crate::full::{is_full, price};
use crate::judge_state::JudgeState;
use crate::naming::names_rows;
use crate::worth::dual_value;
use certificate::{End, Record};
use search_core::{Done, Refused};
use stow_data::VarNo;
use zero_one_model::{Box01, Model};

// Whether a record names rows of the program and keeps multipliers in range.
fn is_record(
    model: &Model,
    judge_state: &mut JudgeState,
    ended: &[Done<Record>],
    way: &[Step],
    entry: &Record,
) -> bool
    requires { IsAt model.now judge_state.old ended.now way.now }
    ensures ready { IsReady model.now judge_state.new }
    ensures is { IsTrue result ↔ IsRecord model.now (along model.now ended.now way.now) (entry_of model.now entry.now) }
    ensures tallies { result ≡ true → TalliesAfter model.now ended.now way.now entry.now judge_state.new.tally }
{
    if !names_rows(model, entry) {
        return false;
    }
    judge_state.tally.stand_at(model, ended, way);
    judge_state.tally.follow(model, entry)
}

// Whether it is a leaf besides.
fn is_leaf(
    model: &Model,
    judge_state: &mut JudgeState,
    ended: &[Done<Record>],
    way: &[Step],
    entry: &Record,
) -> bool
    requires { IsAt model.now judge_state.old ended.now way.now }
    ensures ready { IsReady model.now judge_state.new }
    ensures is { IsTrue result ↔ IsLeaf model.now (along model.now ended.now way.now) (entry_of model.now entry.now) }
    ensures tallies { result ≡ true → TalliesAfter model.now ended.now way.now entry.now judge_state.new.tally }
{
    match entry.end {
        End::Leaf => is_record(model, judge_state, ended, way, entry),
        End::Left | End::Branch(_) => false,
    }
}

// Whether it is a branch besides.
fn is_branch(
    model: &Model,
    judge_state: &mut JudgeState,
    ended: &[Done<Record>],
    way: &[Step],
    entry: &Record,
) -> bool
    requires { IsAt model.now judge_state.old ended.now way.now }
    ensures ready { IsReady model.now judge_state.new }
    ensures is { IsTrue result ↔ IsBranch model.now (along model.now ended.now way.now) (entry_of model.now entry.now) }
{
    match entry.end {
        End::Branch(_) => is_record(model, judge_state, ended, way, entry),
        End::Leaf | End::Left => false,
    }
}

// Whether a variable is free.
fn is_free(b: &Box01, x: VarNo) -> bool
    requires { x < length b.now }
    ensures { IsTrue result ↔ (slice_get b.now x ≡ Some None) }
{
    match b.at(x) {
        Some(_) => false,
        None => true,
    }
}

// Whether an end divides a box by a free variable.
fn divides(model: &Model, b: &Box01, end: &End) -> bool
    requires { length b.now ≡ length (variables model.now) }
    ensures { IsTrue result ↔ Divides (whole model.now) b.now (end_of (number_of model.now) end.now) }
{
    match end {
        End::Branch(var) => match model.number(var) {
            Some(x) => is_free(b, x),
            None => false,
        },
        End::Leaf | End::Left => false,
    }
}

// The least dual value that closes at a value seen.
fn needed_value(seen: u64) -> i128
    ensures { result ≡ pos 16 *ℤ (pos seen -ℤ pos 1) +ℤ pos 1 }
{
    16 * (seen as i128 - 1) + 1
}

/// Whether a record is a leaf that closes at a value.
pub fn close(
    model: &Model,
    judge_state: &mut JudgeState,
    ended: &[Done<Record>],
    way: &[Step],
    seen: u64,
    entry: &Record,
) -> Result<(), Refused>
    requires { IsAt model.now judge_state.old ended.now way.now }
    ensures ready { IsReady model.now judge_state.new }
    ensures judged { JudgesClose model.now (along model.now ended.now way.now) (entry_of model.now entry.now) seen result }
{
    if !is_leaf(model, judge_state, ended, way, entry) {
        return Err(Refused::BadEntry);
    }
    stand_after(model, &mut judge_state.b, ended, way, entry);
    let value = dual_value(model, &judge_state.b, &judge_state.tally);
    let needed = needed_value(seen);
    if value < needed {
        return Err(Refused::Short { value, needed });
    }
    Ok(())
}

/// Whether a record divides its box by a free variable.
pub fn branch(
    model: &Model,
    judge_state: &mut JudgeState,
    ended: &[Done<Record>],
    way: &[Step],
    entry: &Record,
) -> Result<(), Refused>
    requires { IsAt model.now judge_state.old ended.now way.now }
    ensures ready { IsReady model.now judge_state.new }
    ensures judged { JudgesBranch model.now (along model.now ended.now way.now) (entry_of model.now entry.now) result }
{
    if !is_branch(model, judge_state, ended, way, entry) {
        return Err(Refused::BadEntry);
    }
    stand_after(model, &mut judge_state.b, ended, way, entry);
    if !divides(model, &judge_state.b, &entry.end) {
        return Err(Refused::NotFree);
    }
    Ok(())
}

/// The price of a leaf's box, where it is full and violates no base row.
pub fn offer(
    model: &Model,
    judge_state: &mut JudgeState,
    ended: &[Done<Record>],
    way: &[Step],
    entry: &Record,
) -> Result<u64, Refused>
    requires { IsAt model.now judge_state.old ended.now way.now }
    ensures ready { IsReady model.now judge_state.new }
    ensures judged { JudgesOffer model.now (along model.now ended.now way.now) (entry_of model.now entry.now) result }
{
    if !is_leaf(model, judge_state, ended, way, entry) {
        return Err(Refused::BadEntry);
    }
    stand_after(model, &mut judge_state.b, ended, way, entry);
    if !is_full(model, &judge_state.b) {
        return Err(Refused::NotFull);
    }
    Ok(price(model, &judge_state.b))
}
