//! How a kept box goes on by the steps and the branch of a record.
ghost use Rattle.std.specs.Prelude.{◌≡◌, ℕ, ◌<◌, true, All, IfSome, OnOk, List, ◌++◌, Some, length, slice_get};
ghost use Rattle.proof_trees.specs.Boxes.{tight, tightened};
ghost use Rattle.zero_one_rows.specs.Rows.{whole};
ghost use Rattle.zero_one_rows.specs.Counted.{base_rows};
ghost use Rattle.certificate.specs.Entries.{end_of, number_of};
ghost use Rattle.search_core.specs.Journals.{divided};
ghost use Rattle.search_core.specs.Machine.{Divides};
ghost use Rattle.partial_plan.specs.Fixing.{Fixes};
ghost use Rattle.node_work.specs.Adopting.{adopted};

use certificate::End;
use partial_plan::{KeptBox, UndoList, tighten_by};
use std::alloc::Global;
use stow_data::{NoMemory, VarNo};
use zero_one_model::{Box01, Model};
use zero_one_rows::{Row, RowList};

// Fixes a variable as another box has it, where it is free.
fn adopt_one(kept: &mut KeptBox, b: &Box01, x: VarNo)
    requires inside { x < length kept.old.known }
    requires whole { length b.now ≡ length kept.old.known }
    ensures same { kept.new.voyage ≡ kept.old.voyage }
    ensures known { kept.new.known ≡ adopted kept.old.known b.now x }
    ensures noted { (xs : List ℕ) × (kept.new.undo ≡ kept.old.undo ++ xs) × Fixes kept.old.known kept.new.known xs }
{
    match kept.now().at(x) {
        Some(_) => (),
        None => match b.at(x) {
            Some(value) => kept.fix(x, value),
            None => (),
        },
    }
}

// Goes on to a box in which these variables are fixed besides.
fn adopt(kept: &mut KeptBox, b: &Box01, vars: &[VarNo])
    requires fixes { Fixes kept.old.known b.now vars.now }
    ensures same { kept.new.voyage ≡ kept.old.voyage }
    ensures known { kept.new.known ≡ b.now }
    ensures noted { (xs : List ℕ) × (kept.new.undo ≡ kept.old.undo ++ xs) × Fixes kept.old.known kept.new.known xs }
{
    for x in vars {
        adopt_one(kept, b, *x);
    }
}

// Tightens a kept box by a row whose variables are looked up.
fn tighten_looked_up(
    alloc: Global,
    model: &Model,
    kept: &mut KeptBox,
    row: &Row,
) -> Result<(), NoMemory>
    requires program { kept.old.voyage ≡ model.now }
    requires row { (whole model.now).has row.now ≡ true }
    ensures same { kept.new.voyage ≡ kept.old.voyage }
    ensures tight { OnOk result (kept.new.known ≡ tight (whole model.now) kept.old.known row.now) }
    ensures noted { (xs : List ℕ) × (kept.new.undo ≡ kept.old.undo ++ xs) × Fixes kept.old.known kept.new.known xs }
{
    kept.is_whole();
    let mut b = kept.now().copy(alloc)?;
    let mut fixed = UndoList::new(alloc);
    tighten_by(alloc, model, &mut b, &mut fixed, row)?;
    adopt(kept, &b, fixed.as_slice());
    Ok(())
}

// The number of a row among the base rows, where it is one.
fn base_number(model: &Model, row: &Row) -> Option<usize>
    ensures inside { IfSome result (λ k. k < length (base_rows model.now)) }
    ensures is { IfSome result (λ k. slice_get (base_rows model.now) k ≡ Some row.now) }
{
    let number = model.row_number(row)?;
    if number < model.base_rows() {
        Some(number as usize)
    } else {
        None
    }
}

// Tightens a kept box by a row.
fn tighten_one(alloc: Global, model: &Model, kept: &mut KeptBox, row: &Row) -> Result<(), NoMemory>
    requires program { kept.old.voyage ≡ model.now }
    requires row { (whole model.now).has row.now ≡ true }
    ensures same { kept.new.voyage ≡ kept.old.voyage }
    ensures tight { OnOk result (kept.new.known ≡ tight (whole model.now) kept.old.known row.now) }
    ensures noted { (xs : List ℕ) × (kept.new.undo ≡ kept.old.undo ++ xs) × Fixes kept.old.known kept.new.known xs }
{
    match base_number(model, row) {
        Some(number) => kept.force(number),
        None => tighten_looked_up(alloc, model, kept, row),
    }
}

// Tightens a kept box by rows, in order.
fn tighten_each(
    alloc: Global,
    model: &Model,
    kept: &mut KeptBox,
    steps: &[Row],
) -> Result<(), NoMemory>
    requires program { kept.old.voyage ≡ model.now }
    requires rows { All (λ r. (whole model.now).has r ≡ true) steps.now }
    ensures same { kept.new.voyage ≡ kept.old.voyage }
    ensures tight { OnOk result (kept.new.known ≡ tightened (whole model.now) kept.old.known steps.now) }
    ensures noted { (xs : List ℕ) × (kept.new.undo ≡ kept.old.undo ++ xs) × Fixes kept.old.known kept.new.known xs }
{
    for row in steps {
        tighten_one(alloc, model, kept, row)?;
    }
    Ok(())
}

// Looks at the rows that wait, so that none waits where none forces anything: then going back to here rouses none. The box stays.
fn settle(alloc: Global, kept: &mut KeptBox)
    ensures { kept.new ≡ kept.old }
{
    let before = kept.fixed().len();
    let mut steps = RowList::new(alloc);
    let _ended = kept.tighten(&mut steps);
    if kept.fixed().len() > before {
        kept.undo_to(before);
    }
}

/// Tightens a kept box by rows, in order.
pub fn retighten(
    alloc: Global,
    model: &Model,
    kept: &mut KeptBox,
    steps: &[Row],
) -> Result<(), NoMemory>
    requires program { kept.old.voyage ≡ model.now }
    requires rows { All (λ r. (whole model.now).has r ≡ true) steps.now }
    ensures same { kept.new.voyage ≡ kept.old.voyage }
    ensures tight { OnOk result (kept.new.known ≡ tightened (whole model.now) kept.old.known steps.now) }
    ensures noted { (xs : List ℕ) × (kept.new.undo ≡ kept.old.undo ++ xs) × Fixes kept.old.known kept.new.known xs }
{
    tighten_each(alloc, model, kept, steps)?;
    settle(alloc, kept);
    Ok(())
}

/// Goes from a divided box to one of its halves.
pub fn halve(model: &Model, kept: &mut KeptBox, end: &End, value: bool)
    requires program { kept.old.voyage ≡ model.now }
    requires divides { Divides (whole model.now) kept.old.known (end_of (number_of model.now) end.now) }
    ensures same { kept.new.voyage ≡ kept.old.voyage }
    ensures half { kept.new.known ≡ divided kept.old.known (end_of (number_of model.now) end.now) value }
    ensures noted { (xs : List ℕ) × (kept.new.undo ≡ kept.old.undo ++ xs) × Fixes kept.old.known kept.new.known xs }
{
    kept.is_whole();
    match end {
        End::Branch(var) => match model.number(var) {
            Some(x) => kept.fix(x, value),
            None => unreachable!(),
        },
        End::Leaf | End::Left => unreachable!(),
    }
}
