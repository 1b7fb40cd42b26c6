//! The steps of a record.
ghost use Rattle.std.specs.Prelude.{◌≡◌, ◌≢◌, ℕ, ◌++◌, true, false, List, length, None, Some, OnOk, IfErr};
ghost use Rattle.proof_trees.specs.Boxes.{tight, tightened};
ghost use Rattle.zero_one_rows.specs.Variables.{variables};
ghost use Rattle.zero_one_rows.specs.Rows.{whole};
ghost use Rattle.partial_plan.specs.Fixing.{Fixes};
ghost use Rattle.bound_checker.specs.Faults.{step_fault};

use crate::forcing::tighten_listed;
use crate::named_rows::NamedRows;
use certificate::{BoundNo, KeptRow};
use partial_plan::{UndoList, tighten_by};
use std::alloc::Global;
use zero_one_model::{Box01, Model};
use zero_one_rows::Row;

// One step: the row is one of the program, and tightens the box.
fn tighten_one(
    alloc: Global,
    model: &Model,
    rows: &mut NamedRows,
    b: &mut Box01,
    undo: &mut UndoList,
    row: &Row,
    node: u32,
) -> Result<(), BoundNo>
    requires whole { length b.old ≡ length (variables model.now) }
    requires rows { rows.old ≡ model.now }
    ensures rows { rows.new ≡ rows.old }
    ensures has { OnOk result ((whole model.now).has row.now ≡ true) }
    ensures tight { OnOk result (b.new ≡ tight (whole model.now) b.old row.now) }
    ensures noted { (xs : List ℕ) × (undo.new ≡ undo.old ++ xs) × Fixes b.old b.new xs }
    ensures refused { IfErr result (λ f. f ≢ BoundNo.NoMemory → ((whole model.now).has row.now ≡ false) × (f ≡ BoundNo.StepRow node)) }
{
    if !model.has_row(row) {
        return Err(BoundNo::StepRow { node });
    }
    let place = rows.place(alloc, row)?;
    if let Some(listed) = rows.at(place, row) {
        tighten_listed(model, b, undo, listed)?;
        return Ok(());
    }
    tighten_by(alloc, model, b, undo, row)?;
    Ok(())
}

// One step as a record keeps it.
fn take_step(
    alloc: Global,
    model: &Model,
    rows: &mut NamedRows,
    b: &mut Box01,
    undo: &mut UndoList,
    kept: &KeptRow,
    node: u32,
) -> Result<(), BoundNo>
    requires whole { length b.old ≡ length (variables model.now) }
    requires rows { rows.old ≡ model.now }
    ensures rows { rows.new ≡ rows.old }
    ensures has { OnOk result ((whole model.now).has kept.now ≡ true) }
    ensures tight { OnOk result (b.new ≡ tight (whole model.now) b.old kept.now) }
    ensures noted { (xs : List ℕ) × (undo.new ≡ undo.old ++ xs) × Fixes b.old b.new xs }
    ensures refused { IfErr result (λ f. f ≢ BoundNo.NoMemory → ((whole model.now).has kept.now ≡ false) × (f ≡ BoundNo.StepRow node)) }
{
    let row = kept.row();
    tighten_one(alloc, model, rows, b, undo, &row, node)
}

/// The steps of a record, in order.
pub fn tighten_all(
    alloc: Global,
    model: &Model,
    rows: &mut NamedRows,
    b: &mut Box01,
    undo: &mut UndoList,
    steps: &[KeptRow],
    node: u32,
) -> Result<(), BoundNo>
    requires whole { length b.old ≡ length (variables model.now) }
    requires rows { rows.old ≡ model.now }
    ensures rows { rows.new ≡ rows.old }
    ensures faultless { OnOk result (step_fault (whole model.now) node steps.now ≡ None) }
    ensures tightened { OnOk result (b.new ≡ tightened (whole model.now) b.old steps.now) }
    ensures noted { (xs : List ℕ) × (undo.new ≡ undo.old ++ xs) × Fixes b.old b.new xs }
    ensures refused { IfErr result (λ f. f ≢ BoundNo.NoMemory → step_fault (whole model.now) node steps.now ≡ Some f) }
{
    for row in steps {
        take_step(alloc, model, rows, b, undo, row, node)?;
    }
    Ok(())
}
