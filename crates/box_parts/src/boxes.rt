//! Boxes, tightened.
ghost use Rattle.std.specs.Prelude.{◌≡◌, ◌<◌, length, true};
ghost use Rattle.zero_one_rows.specs.Rows.{whole};
ghost use Rattle.zero_one_rows.specs.Variables.{variables};

use crate::asked::asked_of;
use crate::words::{write_box, write_count, write_end};
use certificate::{KeptRow, Tree};
use partial_plan::{BaseMatrix, KeptBox, Tightened, UndoList, tighten, tighten_by, violates};
use std::alloc::Global;
use stow_data::{Bytes, NoMemory, VarNo};
use zero_one_model::{Box01, Model};
use zero_one_rows::{Row, RowList};

/// One time: the free box, tightened by rows whose variables are looked up.
fn tighten_plain(alloc: Global, model: &Model, steps: &mut RowList) -> Tightened {
    let Ok(mut b) = Box01::free(alloc, model) else {
        return Tightened::NoMemory;
    };
    let mut undo = UndoList::new(alloc);
    tighten(alloc, model, &mut b, &mut undo, steps)
}

/// All times but the last.
fn repeat_plain(alloc: Global, model: &Model, times: u64) {
    for _ in 1..times {
        let mut steps = RowList::new(alloc);
        let _end = tighten_plain(alloc, model, &mut steps);
    }
}

/// How tightening ends, and the steps of it.
fn write_tightened(
    model: &Model,
    end: &Tightened,
    steps: &RowList,
    out: &mut Bytes,
) -> Result<(), NoMemory> {
    write_end(model, end, out)?;
    write_count(out, b"steps", steps.len())
}

/// How the free box is tightened by rows whose variables are looked up, so many times over.
pub fn write_plain(
    alloc: Global,
    model: &Model,
    times: u64,
    out: &mut Bytes,
) -> Result<(), NoMemory> {
    repeat_plain(alloc, model, times);
    let mut steps = RowList::new(alloc);
    let end = tighten_plain(alloc, model, &mut steps);
    write_tightened(model, &end, &steps, out)
}

/// One time: the free box, tightened by rows that are kept.
fn tighten_kept(alloc: Global, matrix: &BaseMatrix, steps: &mut RowList) -> Tightened {
    let Ok(mut kept) = KeptBox::free(alloc, matrix) else {
        return Tightened::NoMemory;
    };
    kept.tighten(steps)
}

/// All times but the last.
fn repeat_kept(alloc: Global, matrix: &BaseMatrix, times: u64) {
    for _ in 1..times {
        let mut steps = RowList::new(alloc);
        let _end = tighten_kept(alloc, matrix, &mut steps);
    }
}

/// The last time, and how it ends.
fn write_kept_by(
    alloc: Global,
    model: &Model,
    matrix: &BaseMatrix,
    out: &mut Bytes,
) -> Result<(), NoMemory> {
    let mut steps = RowList::new(alloc);
    let end = tighten_kept(alloc, matrix, &mut steps);
    write_tightened(model, &end, &steps, out)
}

/// How the free box is tightened by rows that are kept, so many times over.
pub fn write_kept(
    alloc: Global,
    model: &Model,
    times: u64,
    out: &mut Bytes,
) -> Result<(), NoMemory> {
    let matrix = BaseMatrix::build(alloc, model)?;
    repeat_kept(alloc, &matrix, times);
    let written = write_kept_by(alloc, model, &matrix, out);
    drop(matrix);
    written
}

/// Tightens a box by one row.
fn take_step(alloc: Global, model: &Model, b: &mut Box01, row: &Row) -> Result<(), NoMemory>
    requires row { (whole model.now).has row.now ≡ true }
    requires whole { length b.old ≡ length (variables model.now) }
    ensures { length b.new ≡ length b.old }
{
    let mut undo = UndoList::new(alloc);
    tighten_by(alloc, model, b, &mut undo, row)
}

/// Tightens a box by one row, and tells the row's number, whether it is violated before, and the box.
fn write_step(
    alloc: Global,
    model: &Model,
    b: &mut Box01,
    row: &Row,
    out: &mut Bytes,
) -> Result<(), NoMemory>
    requires whole { length b.old ≡ length (variables model.now) }
    ensures { length b.new ≡ length b.old }
{
    if !model.has_row(row) {
        return out.extend(b"no row\n");
    }
    let number = model.row_number(row).unwrap_or(u64::MAX);
    let word: &[u8] = if violates(model, b, row) {
        b"violated"
    } else {
        b"met"
    };
    write_count(out, word, number)?;
    take_step(alloc, model, b, row)?;
    write_box(model, b, out)
}

/// Tightens a box by rows, one by one.
fn write_rows(
    alloc: Global,
    model: &Model,
    b: &mut Box01,
    rows: &[KeptRow],
    out: &mut Bytes,
) -> Result<(), NoMemory>
    requires whole { length b.old ≡ length (variables model.now) }
    ensures { length b.new ≡ length b.old }
{
    for row in rows {
        write_step(alloc, model, b, &row.row(), out)?;
    }
    Ok(())
}

/// Tightens the free box by the steps of records, one by one.
pub fn write_steps(
    alloc: Global,
    model: &Model,
    records: &Tree,
    out: &mut Bytes,
) -> Result<(), NoMemory> {
    let mut b = Box01::free(alloc, model)?;
    for record in records.as_slice() {
        write_rows(alloc, model, &mut b, record.steps.as_slice(), out)?;
    }
    Ok(())
}

/// Fixes a variable of a kept box where it is free. Whether it was.
pub fn fix_free(kept: &mut KeptBox, x: VarNo, value: bool) -> bool
    requires inside { x < length (variables kept.old.voyage) }
    ensures same { kept.new.voyage ≡ kept.old.voyage }
{
    kept.is_whole();
    if kept.now().at(x).is_some() {
        return false;
    }
    kept.fix(x, value);
    true
}

/// Fixes the variables of records one by one, and tightens the box after each, until a row is violated. How the last tightening ended.
fn go_along(model: &Model, kept: &mut KeptBox, records: &Tree, steps: &mut RowList) -> Tightened
    requires program { kept.old.voyage ≡ model.now }
    ensures same { kept.new.voyage ≡ kept.old.voyage }
{
    for record in records.as_slice() {
        if let Some((x, value)) = asked_of(model, record) {
            fix_free(kept, x, value);
        }
        match kept.tighten(steps) {
            Tightened::Quiet => (),
            end => return end,
        }
    }
    kept.tighten(steps)
}

/// How a kept box is tightened along records.
fn end_along(alloc: Global, model: &Model, kept: &mut KeptBox, records: &Tree) -> Tightened
    requires program { kept.old.voyage ≡ model.now }
    ensures same { kept.new.voyage ≡ kept.old.voyage }
{
    let mut steps = RowList::new(alloc);
    go_along(model, kept, records, &mut steps)
}

/// Where a kept box came to.
fn write_where(
    model: &Model,
    kept: &KeptBox,
    end: &Tightened,
    out: &mut Bytes,
) -> Result<(), NoMemory>
    requires program { kept.now.voyage ≡ model.now }
{
    write_end(model, end, out)?;
    kept.is_whole();
    write_box(model, kept.now(), out)
}

/// The same by a matrix.
fn write_along_by(
    alloc: Global,
    model: &Model,
    matrix: &BaseMatrix,
    records: &Tree,
    out: &mut Bytes,
) -> Result<(), NoMemory>
    requires program { matrix.now ≡ model.now }
{
    let mut kept = KeptBox::free(alloc, matrix)?;
    let end = end_along(alloc, model, &mut kept, records);
    let written = write_where(model, &kept, &end, out);
    drop(kept);
    written
}

/// How the free box is tightened along records, and the box.
pub fn write_along(
    alloc: Global,
    model: &Model,
    records: &Tree,
    out: &mut Bytes,
) -> Result<(), NoMemory> {
    let matrix = BaseMatrix::build(alloc, model)?;
    let written = write_along_by(alloc, model, &matrix, records, out);
    drop(matrix);
    written
}
