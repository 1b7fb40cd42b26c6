//! The slack of each base row in the free box, and a number that no coefficient passes.
ghost use Rattle.std.specs.Prelude.{◌≡◌, ℕ, ◌+◌, ◌<◌, ◌≤◌, ◌^◌, [], ◌++◌, ◌∷◌, true, IfOk, OnOk, None, length, replicate, slice_index_or, pos, ◌-ℤ◌, ◌≤ℤ◌, unsigned_abs};
ghost use Rattle.proof_trees.specs.Boxes.{free_box, most};
ghost use Rattle.zero_one_rows.specs.Variables.{variables};
ghost use Rattle.zero_one_rows.specs.Rows.{is_base, whole};
ghost use Rattle.row_matrix.specs.Terms.{count, row_at, IsSmall};
ghost use Rattle.row_matrix.specs.Counted.{weight_of};
ghost use Rattle.row_matrix.specs.Margins.{top_by, IsMargin, AreMargins};

use crate::base_rows::base_row;
use crate::laws::rows_obey_laws;
use crate::slack::slack_among;
use row_sums::FlatLists;
use std::alloc::Global;
use stow_data::{NoMemory, Seq};
use zero_one_model::{Box01, Model};
use zero_one_rows::Row;

/// A row's slack in the free box, and a number that none of its coefficients passes.
#[derive(Clone, Copy)]
pub(crate) struct Margin {
    pub slack: i64,
    pub top: u32,
}

/// Those of each base row.
#[derive(Drop)]
pub(crate) struct Margins {
    pub slacks: Seq<i64>,
    pub tops: Seq<u32>,
}

fn narrow(slack: i128) -> i64
    requires { unsigned_abs slack ≤ 2 ^ 38 }
    ensures { result ≡ slack }
{
    slack as i64
}

/// The greatest of some weights.
pub(crate) fn heaviest_of(weights: &[u32]) -> u32
    ensures { (v : ℕ) → v < length weights.now → slice_index_or weights.now v 0 ≤ result }
{
    let mut heaviest = 0;
    for weight in weights {
        heaviest = heaviest.max(*weight);
    }
    heaviest
}

/// A number that no coefficient of a row passes.
fn top_of(row: &Row, heaviest: u32) -> u32
    ensures { result ≡ top_by row.now heaviest }
{
    match row {
        Row::Weight { .. } => heaviest,
        _ => 1,
    }
}

/// The slack in the free box of a row whose coefficients are at most 0.
fn least_slack(model: &Model, row: &Row) -> i64
    requires { (whole model.now).has row.now ≡ true }
    ensures { result ≡ pos 0 -ℤ (whole model.now).rhs row.now }
{
    0 - model.rhs(row)
}

/// The slack of a row in the free box.
fn slack_of(
    alloc: Global,
    model: &Model,
    free: &Box01,
    row: &Row,
    is_low: bool,
) -> Result<i64, NoMemory>
    requires row { (whole model.now).has row.now ≡ true }
    requires free { free.now ≡ replicate (length (variables model.now)) None }
    requires small { IsSmall model.now row.now }
    requires low { is_low ≡ true → (v : ℕ) → v < length (variables model.now) → (whole model.now).coef row.now v ≤ℤ pos 0 }
    ensures { IfOk result (λ s. s ≡ most (whole model.now) (free_box (whole model.now)) row.now -ℤ (whole model.now).rhs row.now) }
{
    if is_low {
        return Ok(least_slack(model, row));
    }
    let vars = model.vars_of(alloc, row)?;
    Ok(narrow(slack_among(model, free, row, vars.as_slice())))
}

/// The margin of a row.
fn margin_of(
    alloc: Global,
    model: &Model,
    free: &Box01,
    row: &Row,
    is_low: bool,
    heaviest: u32,
) -> Result<Margin, NoMemory>
    requires row { (whole model.now).has row.now ≡ true }
    requires base { is_base row.now ≡ true }
    requires free { free.now ≡ replicate (length (variables model.now)) None }
    requires low { is_low ≡ true → (v : ℕ) → v < length (variables model.now) → (whole model.now).coef row.now v ≤ℤ pos 0 }
    requires heaviest { (v : ℕ) → v < length (variables model.now) → weight_of model.now v ≤ heaviest }
    ensures { IfOk result (IsMargin model.now row.now) }
{
    rows_obey_laws(model);
    model.keeps_limits();
    let slack = slack_of(alloc, model, free, row, is_low)?;
    let top = top_of(row, heaviest);
    Ok(Margin { slack, top })
}

/// Appends the margin of one more row.
fn push_margin(margins: &mut Margins, margin: Margin) -> Result<(), NoMemory>
    ensures slacks { OnOk result (margins.new.slacks ≡ margins.old.slacks ++ margin.slack ∷ []) }
    ensures tops { OnOk result (margins.new.tops ≡ margins.old.tops ++ margin.top ∷ []) }
{
    margins.slacks.push(margin.slack)?;
    margins.tops.push(margin.top)
}

/// Appends the margin of the next base row.
fn push_next(
    alloc: Global,
    model: &Model,
    free: &Box01,
    plus: &FlatLists<usize>,
    heaviest: u32,
    margins: &mut Margins,
    k: u64,
) -> Result<(), NoMemory>
    requires row { k < count model.now }
    requires free { free.now ≡ replicate (length (variables model.now)) None }
    requires low { (k v : ℕ) → k < count model.now → slice_index_or plus.now k [] ≡ [] → v < length (variables model.now) → (whole model.now).coef (row_at model.now k) v ≤ℤ pos 0 }
    requires heaviest { (v : ℕ) → v < length (variables model.now) → weight_of model.now v ≤ heaviest }
    requires before { AreMargins model.now margins.old k }
    ensures { OnOk result (AreMargins model.now margins.new (k + 1)) }
{
    rows_obey_laws(model);
    let row = base_row(model, k);
    let is_low = plus.at(k as usize).is_empty();
    let margin = margin_of(alloc, model, free, &row, is_low, heaviest)?;
    push_margin(margins, margin)?;
    Ok(())
}

/// Appends the margins of all base rows.
fn push_margins(
    alloc: Global,
    model: &Model,
    free: &Box01,
    plus: &FlatLists<usize>,
    heaviest: u32,
    margins: &mut Margins,
) -> Result<(), NoMemory>
    requires free { free.now ≡ replicate (length (variables model.now)) None }
    requires low { (k v : ℕ) → k < count model.now → slice_index_or plus.now k [] ≡ [] → v < length (variables model.now) → (whole model.now).coef (row_at model.now k) v ≤ℤ pos 0 }
    requires heaviest { (v : ℕ) → v < length (variables model.now) → weight_of model.now v ≤ heaviest }
    requires none { AreMargins model.now margins.old 0 }
    ensures { OnOk result (AreMargins model.now margins.new (count model.now)) }
{
    for k in 0..model.base_rows() {
        push_next(alloc, model, free, plus, heaviest, margins, k)?;
    }
    Ok(())
}

/// The margins of all base rows, where the free box is at hand.
fn margins_in(
    alloc: Global,
    model: &Model,
    free: &Box01,
    plus: &FlatLists<usize>,
    heaviest: u32,
) -> Result<Margins, NoMemory>
    requires free { free.now ≡ replicate (length (variables model.now)) None }
    requires low { (k v : ℕ) → k < count model.now → slice_index_or plus.now k [] ≡ [] → v < length (variables model.now) → (whole model.now).coef (row_at model.now k) v ≤ℤ pos 0 }
    requires heaviest { (v : ℕ) → v < length (variables model.now) → weight_of model.now v ≤ heaviest }
    ensures { IfOk result (λ margins. AreMargins model.now margins (count model.now)) }
{
    let mut margins = Margins {
        slacks: Seq::new(alloc),
        tops: Seq::new(alloc),
    };
    match push_margins(alloc, model, free, plus, heaviest, &mut margins) {
        Ok(_) => Ok(margins),
        Err(no) => {
            drop(margins);
            Err(no)
        }
    }
}

/// The margins of all base rows, of which these are the sums with plus.
pub(crate) fn margins_of(
    alloc: Global,
    model: &Model,
    plus: &FlatLists<usize>,
    heaviest: u32,
) -> Result<Margins, NoMemory>
    requires low { (k v : ℕ) → k < count model.now → slice_index_or plus.now k [] ≡ [] → v < length (variables model.now) → (whole model.now).coef (row_at model.now k) v ≤ℤ pos 0 }
    requires heaviest { (v : ℕ) → v < length (variables model.now) → weight_of model.now v ≤ heaviest }
    ensures { IfOk result (λ margins. AreMargins model.now margins (count model.now)) }
{
    let free = Box01::free(alloc, model)?;
    let margins = margins_in(alloc, model, &free, plus, heaviest);
    drop(free);
    margins
}
