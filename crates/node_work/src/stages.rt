//! Raises that were made record by record, so that they can be taken back.
ghost use Rattle.std.specs.Prelude.{◌≡◌, ◌≤◌, true, false, neg_ℤ, All, IfOk, IfSome, IsSomeAnd, OnOk, Some, [], ◌∷◌, ◌++◌, drop, length, map, take};
ghost use Rattle.proof_trees.specs.Multipliers.{Multipliers as Prices, raised, raised_all};
ghost use Rattle.zero_one_rows.specs.declared.program.Row.{Row as Rows};
ghost use Rattle.zero_one_rows.specs.Rows.{whole};
ghost use Rattle.certificate.specs.Entries.{same_row, raise_of};
ghost use Rattle.node_work.specs.DualStates.{Matches, Staged};

use certificate::{KeptRaise, Record, Trail};
use dual_bound::{Gauge, RowTable};
use std::alloc::Global;
use stow_data::NoMemory;
use zero_one_model::Model;
use zero_one_rows::{Raise, RaiseList, Row};

/// Raises that were made one after the other, and how many rows had been given multipliers before them.
#[derive(Drop)]
pub struct Stage {
    pub raises: RaiseList,
    pub before: usize,
}

// Whether two rows are the same.
fn is_same_row(a: &Row, b: &Row) -> bool
    ensures { result ≡ true → a.now ≡ b.now }
{
    a == b
}

// Whether two raises are the same.
fn same_raise(a: &Raise, b: &KeptRaise) -> bool
    ensures { result ≡ true → a.now ≡ b.now }
{
    let b = b.raise();
    if a.amount != b.amount {
        return false;
    }
    is_same_row(&a.row, &b.row)
}

// Whether two lists of raises are the same.
fn same_raises(a: &[Raise], b: &[KeptRaise]) -> bool
    ensures { result ≡ true → a.now ≡ b.now }
{
    a.len() == b.len() && a.iter().zip(b).all(|(x, y)| same_raise(x, y))
}

// Whether a stage is that of a record, which begins from the multipliers before it.
fn is_of(stage: &Stage, entry: &Record) -> bool
    ensures begins { result ≡ true → entry.now.from_zero ≡ false }
    ensures raises { result ≡ true → stage.now.raises ≡ entry.now.raises }
{
    if entry.from_zero {
        return false;
    }
    same_raises(stage.raises.as_slice(), entry.raises.as_slice())
}

/// How many of the first stages are those of the first records.
pub fn stages_in_common(stages: &[Stage], trail: &Trail) -> usize
    ensures stages { result ≤ length stages.now }
    ensures records { result ≤ length trail.now }
    ensures alike { Matches (take result stages.now) (take result trail.now) }
{
    for (depth, stage) in stages.iter().enumerate() {
        if depth >= trail.len() {
            return depth;
        }
        if !is_of(stage, trail.get(depth).record()) {
            return depth;
        }
    }
    stages.len()
}

// A copy of a raise.
fn copy_raise(raise: &Raise) -> Result<Raise, NoMemory>
    ensures { IfOk result (λ copy. copy ≡ raise.now) }
{
    Ok(Raise {
        row: raise.row.clone()?,
        amount: raise.amount,
    })
}

// Copies more raises behind those of a list, while there is memory.
fn push_all(made: &mut RaiseList, more: &[Raise]) -> Result<(), NoMemory>
    ensures { OnOk result (made.new ≡ made.old ++ more.now) }
{
    for raise in more {
        made.push(copy_raise(raise)?)?;
    }
    Ok(())
}

// Adds a stage of such raises to a list.
fn push_stage(
    alloc: Global,
    stages: &mut Vec<Stage>,
    raises: &[Raise],
    before: usize,
) -> Result<(), NoMemory>
    ensures { OnOk result (stages.new.items ≡ stages.old.items ++ record { raises = raises.now; before = before } ∷ []) }
{
    let mut copies = RaiseList::new(alloc);
    push_all(&mut copies, raises)?;
    stages.push(Stage {
        raises: copies,
        before,
    })?;
    Ok(())
}

/// A list, where it is known, with a stage of such raises behind it; None where memory is wanting.
pub fn lengthened(
    alloc: Global,
    stages: Option<Vec<Stage>>,
    raises: &[Raise],
    before: usize,
) -> Option<Vec<Stage>>
    ensures { IfSome result (λ list. IsSomeAnd stages (λ first. list.items ≡ first.items ++ record { raises = raises.now; before = before } ∷ [])) }
{
    let mut list = stages?;
    match push_stage(alloc, &mut list, raises, before) {
        Ok(()) => Some(list),
        Err(NoMemory) => None,
    }
}

// Takes a raise back. Whether it did.
fn lower_one(alloc: Global, table: &RowTable, gauge: &mut Gauge, raise: &Raise) -> bool
    requires program { table.now ≡ gauge.old.voyage }
    requires row { (whole gauge.old.voyage).has raise.now.row ≡ true }
    ensures voyage { gauge.new.voyage ≡ gauge.old.voyage }
    ensures known { gauge.new.box ≡ gauge.old.box }
    ensures lowered { result ≡ true → raised same_row gauge.old.multipliers raise.now.row (neg_ℤ raise.now.amount) ≡ Some gauge.new.multipliers }
{
    match raise.amount.checked_neg() {
        Some(amount) => gauge.add(alloc, table, &raise.row, amount).is_ok(),
        None => false,
    }
}

// Takes raises back, the last first. Whether it did: then the multipliers before them are left, and behind them rows that had none.
fn lower_all(alloc: Global, table: &RowTable, gauge: &mut Gauge, raises: &[Raise]) -> bool
    requires program { table.now ≡ gauge.old.voyage }
    requires rows { All (λ r. (whole gauge.old.voyage).has r.row ≡ true) raises.now }
    ensures voyage { gauge.new.voyage ≡ gauge.old.voyage }
    ensures known { gauge.new.box ≡ gauge.old.box }
    ensures lowered { result ≡ true → (ms : Prices Rows) → raised_all same_row (Some ms) (map raise_of raises.now) ≡ Some gauge.old.multipliers → (rest : Prices Rows) × (gauge.new.multipliers ≡ ms ++ rest) }
{
    for done in 0..raises.len() {
        let raise = &raises[raises.len() - 1 - done];
        if !lower_one(alloc, table, gauge, raise) {
            return false;
        }
    }
    true
}

// Takes a stage back. Whether it did.
fn lower_stage(alloc: Global, table: &RowTable, gauge: &mut Gauge, stage: &Stage) -> bool
    requires program { table.now ≡ gauge.old.voyage }
    requires rows { All (λ r. (whole gauge.old.voyage).has r.row ≡ true) stage.now.raises }
    ensures voyage { gauge.new.voyage ≡ gauge.old.voyage }
    ensures known { gauge.new.box ≡ gauge.old.box }
    ensures lowered { result ≡ true → (ms : Prices Rows) → length ms ≡ stage.now.before → raised_all same_row (Some ms) (map raise_of stage.now.raises) ≡ Some gauge.old.multipliers → gauge.new.multipliers ≡ ms }
{
    if !lower_all(alloc, table, gauge, stage.raises.as_slice()) {
        return false;
    }
    gauge.shorten(stage.before)
}

/// Takes back all stages but the first so many. None where memory is wanting.
pub fn lower_to(
    alloc: Global,
    model: &Model,
    table: &RowTable,
    gauge: &mut Gauge,
    stages: Vec<Stage>,
    depth: usize,
) -> Option<Vec<Stage>>
    requires table { table.now ≡ model.now }
    requires program { gauge.old.voyage ≡ model.now }
    requires staged { Staged model.now [] stages.items gauge.old.multipliers }
    requires depth { depth ≤ length stages.items }
    ensures voyage { gauge.new.voyage ≡ gauge.old.voyage }
    ensures known { gauge.new.box ≡ gauge.old.box }
    ensures first { IfSome result (λ left. left.items ≡ take depth stages.items) }
    ensures staged { IfSome result (λ left. Staged model.now [] left.items gauge.new.multipliers) }
{
    let mut left = stages;
    while left.len() > depth {
        if let Some(stage) = left.pop() {
            if !lower_stage(alloc, table, gauge, &stage) {
                return None;
            }
        }
    }
    Some(left)
}
