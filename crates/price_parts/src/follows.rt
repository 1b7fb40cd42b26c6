//! Dives along a planned voyage that a dual value follows.
ghost use Rattle.std.specs.Prelude.{◌≡◌, ◌<◌, IfOk, length};
ghost use Rattle.zero_one_rows.specs.Variables.{variables};

use box_parts::{planned, step_down, write_count};
use dual_bound::{Gauge, RowTable};
use partial_plan::{BaseMatrix, KeptBox};
use std::alloc::Global;
use stow_data::{Bytes, NoMemory, VarNo};
use zero_one_model::{Box01, Model};
use zero_one_rows::{RaiseList, RowList};

/// What was done in dives: nodes, variables that were fixed and freed one by one in a gauge, and raises.
#[derive(Clone, Copy)]
struct Done {
    nodes: u64,
    steps: u64,
    raises: u64,
}

/// Fixes a variable of a gauge as a box has it, where it is free. Whether it was.
fn follow_one(model: &Model, gauge: &mut Gauge, b: &Box01, x: VarNo) -> bool
    requires known { length b.now ≡ length (variables model.now) }
    requires whole { length gauge.old.box ≡ length (variables model.now) }
    ensures voyage { gauge.new.voyage ≡ gauge.old.voyage }
    ensures whole { length gauge.new.box ≡ length (variables model.now) }
{
    if x.0 >= model.vars() {
        return false;
    }
    let Some(value) = b.at(x) else {
        return false;
    };
    if gauge.current().at(x).is_some() {
        return false;
    }
    gauge.fix(x, value);
    true
}

/// Fixes in a gauge what a kept box has fixed past a place of its list. How much that is.
fn follow(model: &Model, gauge: &mut Gauge, kept: &KeptBox, from: usize) -> u64
    requires program { kept.now.voyage ≡ model.now }
    requires voyage { gauge.old.voyage ≡ model.now }
    requires whole { length gauge.old.box ≡ length (variables model.now) }
    ensures voyage { gauge.new.voyage ≡ model.now }
    ensures whole { length gauge.new.box ≡ length (variables model.now) }
{
    kept.is_whole();
    let mut steps: u64 = 0;
    for k in from..kept.fixed().len() {
        if follow_one(model, gauge, kept.now(), kept.fixed()[k]) {
            steps = steps.wrapping_add(1);
        }
    }
    steps
}

/// Frees in a gauge what a kept box has fixed. How much that is.
fn free_all(model: &Model, gauge: &mut Gauge, kept: &KeptBox) -> u64
    requires program { kept.now.voyage ≡ model.now }
    requires voyage { gauge.old.voyage ≡ model.now }
    requires whole { length gauge.old.box ≡ length (variables model.now) }
    ensures voyage { gauge.new.voyage ≡ model.now }
    ensures whole { length gauge.new.box ≡ length (variables model.now) }
{
    let mut steps: u64 = 0;
    for x in kept.fixed() {
        if x.0 < model.vars() {
            gauge.release(*x);
            steps = steps.wrapping_add(1);
        }
    }
    steps
}

/// Raises the multipliers of a gauge, at most so often, until no more raises its dual value. How often that was.
fn raise_there(alloc: Global, model: &Model, table: &RowTable, gauge: &mut Gauge, most: u32) -> u64
    requires table { table.now ≡ model.now }
    requires voyage { gauge.old.voyage ≡ model.now }
    requires whole { length gauge.old.box ≡ length (variables model.now) }
    ensures voyage { gauge.new.voyage ≡ model.now }
    ensures whole { length gauge.new.box ≡ length (variables model.now) }
{
    if most == 0 {
        return 0;
    }
    let mut raises = RaiseList::new(alloc);
    let _end = gauge.raise(alloc, table, u64::MAX, most, &mut raises);
    raises.len() as u64
}

/// Goes down by a variable of the plan where there is something to do, and lets the gauge follow.
fn go_down(
    alloc: Global,
    model: &Model,
    table: &RowTable,
    kept: &mut KeptBox,
    gauge: &mut Gauge,
    plan: &Box01,
    x: VarNo,
    most: u32,
    done: &mut Done,
)
    requires table { table.now ≡ model.now }
    requires program { kept.old.voyage ≡ model.now }
    requires plan { length plan.now ≡ length (variables model.now) }
    requires inside { x < length (variables model.now) }
    requires voyage { gauge.old.voyage ≡ model.now }
    requires whole { length gauge.old.box ≡ length (variables model.now) }
    ensures program { kept.new.voyage ≡ model.now }
    ensures voyage { gauge.new.voyage ≡ model.now }
    ensures whole { length gauge.new.box ≡ length (variables model.now) }
{
    let from = kept.fixed().len();
    let mut steps = RowList::new(alloc);
    if !step_down(kept, plan, x, &mut steps) {
        return;
    }
    let fixed = follow(model, gauge, kept, from);
    let raised = raise_there(alloc, model, table, gauge, most);
    done.nodes = done.nodes.wrapping_add(1);
    done.steps = done.steps.wrapping_add(fixed);
    done.raises = done.raises.wrapping_add(raised);
}

/// One dive that a gauge follows, and the way back.
fn follow_dive(
    alloc: Global,
    model: &Model,
    table: &RowTable,
    kept: &mut KeptBox,
    gauge: &mut Gauge,
    plan: &Box01,
    most: u32,
    done: &mut Done,
)
    requires table { table.now ≡ model.now }
    requires program { kept.old.voyage ≡ model.now }
    requires plan { length plan.now ≡ length (variables model.now) }
    requires voyage { gauge.old.voyage ≡ model.now }
    requires whole { length gauge.old.box ≡ length (variables model.now) }
    ensures program { kept.new.voyage ≡ model.now }
    ensures voyage { gauge.new.voyage ≡ model.now }
    ensures whole { length gauge.new.box ≡ length (variables model.now) }
{
    for x in 0..model.vars() {
        go_down(alloc, model, table, kept, gauge, plan, VarNo(x), most, done);
    }
    let freed = free_all(model, gauge, kept);
    gauge.clear(alloc);
    kept.undo_to(0);
    done.steps = done.steps.wrapping_add(freed);
}

/// What is done in so many dives.
fn follow_dives(
    alloc: Global,
    model: &Model,
    table: &RowTable,
    kept: &mut KeptBox,
    gauge: &mut Gauge,
    plan: &Box01,
    most: u32,
    times: u64,
) -> Done
    requires table { table.now ≡ model.now }
    requires program { kept.old.voyage ≡ model.now }
    requires plan { length plan.now ≡ length (variables model.now) }
    requires voyage { gauge.old.voyage ≡ model.now }
    requires whole { length gauge.old.box ≡ length (variables model.now) }
{
    let mut done = Done {
        nodes: 0,
        steps: 0,
        raises: 0,
    };
    for _ in 0..times {
        follow_dive(alloc, model, table, kept, gauge, plan, most, &mut done);
    }
    done
}

fn write_done(done: &Done, out: &mut Bytes) -> Result<(), NoMemory> {
    write_count(out, b"nodes", done.nodes)?;
    write_count(out, b"steps", done.steps)?;
    write_count(out, b"raises", done.raises)
}

/// The free box without multipliers, with what raises need to pass by rows that are met.
fn loose_gauge<'a>(alloc: Global, matrix: &'a BaseMatrix<'a>) -> Result<Gauge<'a>, NoMemory>
    ensures voyage { IfOk result (λ g. g.voyage ≡ matrix.now) }
    ensures whole { IfOk result (λ g. length g.box ≡ length (variables matrix.now)) }
{
    let b = Box01::free(alloc, matrix.model())?;
    Gauge::start_over(alloc, matrix, b)
}

/// The same with a gauge.
fn write_followed_by<'a>(
    alloc: Global,
    model: &Model,
    matrix: &'a BaseMatrix<'a>,
    table: &RowTable,
    kept: &mut KeptBox,
    plan: &Box01,
    most: u32,
    times: u64,
    out: &mut Bytes,
) -> Result<(), NoMemory>
    requires matrix { matrix.now ≡ model.now }
    requires table { table.now ≡ model.now }
    requires program { kept.old.voyage ≡ model.now }
    requires plan { length plan.now ≡ length (variables model.now) }
{
    let mut gauge = loose_gauge(alloc, matrix)?;
    let done = follow_dives(alloc, model, table, kept, &mut gauge, plan, most, times);
    let written = write_done(&done, out);
    drop(gauge);
    written
}

/// The same by a matrix.
fn write_followed_from<'a>(
    alloc: Global,
    model: &Model,
    matrix: &'a BaseMatrix<'a>,
    plan: &Box01,
    most: u32,
    times: u64,
    out: &mut Bytes,
) -> Result<(), NoMemory>
    requires program { matrix.now ≡ model.now }
    requires plan { length plan.now ≡ length (variables model.now) }
{
    let mut kept = KeptBox::free(alloc, matrix)?;
    let table = RowTable::build(alloc, matrix);
    let written = write_followed_by(
        alloc, model, matrix, &table, &mut kept, plan, most, times, out,
    );
    drop(table);
    drop(kept);
    written
}

/// The same along a plan.
fn write_followed(
    alloc: Global,
    model: &Model,
    plan: &Box01,
    most: u32,
    times: u64,
    out: &mut Bytes,
) -> Result<(), NoMemory>
    requires { length plan.now ≡ length (variables model.now) }
{
    let matrix = BaseMatrix::build(alloc, model)?;
    let written = write_followed_from(alloc, model, &matrix, plan, most, times, out);
    drop(matrix);
    written
}

/// What is done in dives that a gauge follows, with so many raises at most at each node.
pub fn write_follows(
    alloc: Global,
    model: &Model,
    most: u32,
    times: u64,
    out: &mut Bytes,
) -> Result<(), NoMemory> {
    match planned(alloc, model)? {
        Some(plan) => write_followed(alloc, model, &plan, most, times, out),
        None => out.extend(b"no plan\n"),
    }
}
