//! Dives along a planned voyage, whose nodes are counted.
ghost use Rattle.std.specs.Prelude.{◌≡◌, length};
ghost use Rattle.zero_one_rows.specs.Variables.{variables};

use crate::plans::{planned, step_down};
use crate::words::write_count;
use partial_plan::{BaseMatrix, KeptBox};
use std::alloc::Global;
use stow_data::{Bytes, NoMemory, VarNo};
use zero_one_model::{Box01, Model};
use zero_one_rows::RowList;

/// Fixes what the plan has at 1, a variable after the other. At how many there was something to do.
fn dive(alloc: Global, model: &Model, kept: &mut KeptBox, plan: &Box01) -> u64
    requires program { kept.old.voyage ≡ model.now }
    requires whole { length plan.now ≡ length (variables model.now) }
    ensures same { kept.new.voyage ≡ kept.old.voyage }
{
    let mut steps = RowList::new(alloc);
    let mut nodes: u64 = 0;
    for x in 0..model.vars() {
        if step_down(kept, plan, VarNo(x), &mut steps) {
            nodes = nodes.wrapping_add(1);
        }
    }
    nodes
}

/// The nodes of so many dives along a plan, each of which begins at the root.
fn dives(alloc: Global, model: &Model, kept: &mut KeptBox, plan: &Box01, times: u64) -> u64
    requires program { kept.old.voyage ≡ model.now }
    requires whole { length plan.now ≡ length (variables model.now) }
{
    let mut nodes: u64 = 0;
    for _ in 0..times {
        nodes = nodes.wrapping_add(dive(alloc, model, kept, plan));
        kept.undo_to(0);
    }
    nodes
}

/// The same by a matrix.
fn write_dives_by(
    alloc: Global,
    model: &Model,
    matrix: &BaseMatrix,
    plan: &Box01,
    times: u64,
    out: &mut Bytes,
) -> Result<(), NoMemory>
    requires program { matrix.now ≡ model.now }
    requires whole { length plan.now ≡ length (variables model.now) }
{
    let mut kept = KeptBox::free(alloc, matrix)?;
    let nodes = dives(alloc, model, &mut kept, plan, times);
    let written = write_count(out, b"nodes", nodes);
    drop(kept);
    written
}

fn write_dives_along(
    alloc: Global,
    model: &Model,
    plan: &Box01,
    times: u64,
    out: &mut Bytes,
) -> Result<(), NoMemory>
    requires whole { length plan.now ≡ length (variables model.now) }
{
    let matrix = BaseMatrix::build(alloc, model)?;
    let written = write_dives_by(alloc, model, &matrix, plan, times, out);
    drop(matrix);
    written
}

/// The nodes of dives along a planned voyage, each of which begins at the root.
pub fn write_dives(
    alloc: Global,
    model: &Model,
    times: u64,
    out: &mut Bytes,
) -> Result<(), NoMemory> {
    match planned(alloc, model)? {
        Some(plan) => write_dives_along(alloc, model, &plan, times, out),
        None => out.extend(b"no plan\n"),
    }
}
