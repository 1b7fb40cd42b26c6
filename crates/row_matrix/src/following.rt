//! Slacks that follow a box in which a variable is fixed or freed.
ghost use Rattle.std.specs.Prelude.{◌≡◌, ℕ, ◌<◌, ◌≤◌, ◌^◌, ◌+ℤ◌, ◌-ℤ◌, unsigned_abs, None, Some, length, slice_get, slice_set};
ghost use Rattle.proof_trees.specs.Boxes.{fixed};
ghost use Rattle.zero_one_rows.specs.Variables.{variables};
ghost use Rattle.zero_one_rows.specs.Rows.{whole};
ghost use Rattle.row_matrix.specs.Terms.{count, row_at, loss};
ghost use Rattle.row_matrix.specs.Waiting.{number_at, IsShort};
ghost use Rattle.row_matrix.specs.Following.{Holds, ChangedRowsWait};

use crate::matrix::BaseMatrix;
use crate::slacks::Slacks;
use stow_data::VarNo;
use zero_one_model::Box01;

// Base rows lose slack where a variable gets a value, and wait where they may force something.
fn lower_rows(matrix: &BaseMatrix, slacks: &mut Slacks, x: VarNo, value: bool)
    requires var { x < length (variables matrix.now) }
    requires short { IsShort slacks.old (count matrix.now) }
    requires room { (r : ℕ) → r < count matrix.now → unsigned_abs (number_at slacks.old.slack.items r) ≤ 2 ^ 38 }
    requires left { (r : ℕ) → r < count matrix.now → unsigned_abs (number_at slacks.old.slack.items r -ℤ loss value ((whole matrix.now).coef (row_at matrix.now r) x)) ≤ 2 ^ 38 }
    ensures short { IsShort slacks.new (count matrix.now) }
    ensures slack { (r : ℕ) → r < count matrix.now → number_at slacks.new.slack.items r ≡ number_at slacks.old.slack.items r -ℤ loss value ((whole matrix.now).coef (row_at matrix.now r) x) }
    ensures marks { ChangedRowsWait matrix.now slacks.old slacks.new }
{
    match matrix.written_losses(x, value) {
        Some(losses) => slacks.lower_each(losses, matrix.tops()),
        None => {
            let losses = matrix.losses(x, value);
            slacks.lower(losses.shares, losses.rows, matrix.tops());
        }
    }
}

// Base rows get back what they lose where a variable has a value.
fn lift_rows(matrix: &BaseMatrix, slacks: &mut Slacks, x: VarNo, value: bool)
    requires var { x < length (variables matrix.now) }
    requires short { IsShort slacks.old (count matrix.now) }
    requires room { (r : ℕ) → r < count matrix.now → unsigned_abs (number_at slacks.old.slack.items r) ≤ 2 ^ 38 }
    requires left { (r : ℕ) → r < count matrix.now → unsigned_abs (number_at slacks.old.slack.items r +ℤ loss value ((whole matrix.now).coef (row_at matrix.now r) x)) ≤ 2 ^ 38 }
    ensures short { IsShort slacks.new (count matrix.now) }
    ensures slack { (r : ℕ) → r < count matrix.now → number_at slacks.new.slack.items r ≡ number_at slacks.old.slack.items r +ℤ loss value ((whole matrix.now).coef (row_at matrix.now r) x) }
{
    match matrix.written_losses(x, value) {
        Some(losses) => slacks.lift_each(losses),
        None => {
            let losses = matrix.losses(x, value);
            slacks.lift(losses.shares, losses.rows);
        }
    }
}

/// Slacks follow a variable that gets a value. It takes no memory.
pub fn lower_by(matrix: &BaseMatrix, b: &mut Box01, slacks: &mut Slacks, x: VarNo, value: bool)
    requires holds { Holds matrix.now b.old slacks.old }
    requires free { slice_get b.old x ≡ Some None }
    ensures known { b.new ≡ fixed b.old x value }
    ensures holds { Holds matrix.now b.new slacks.new }
    ensures marks { ChangedRowsWait matrix.now slacks.old slacks.new }
{
    matrix.has_small_slacks();
    b.fix(x, value);
    lower_rows(matrix, slacks, x, value);
}

/// Slacks follow a variable that is freed, if it is fixed. It takes no memory.
pub fn lift_by(matrix: &BaseMatrix, b: &mut Box01, slacks: &mut Slacks, x: VarNo)
    requires holds { Holds matrix.now b.old slacks.old }
    requires var { x < length b.old }
    ensures known { b.new ≡ slice_set b.old x None }
    ensures holds { Holds matrix.now b.new slacks.new }
{
    matrix.has_small_slacks();
    match b.at(x) {
        Some(value) => {
            b.release(x);
            lift_rows(matrix, slacks, x, value);
        }
        None => {}
    }
}
