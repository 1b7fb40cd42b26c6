//! The slack of each base row, and which rows wait to be looked at.
ghost use Rattle.std.specs.Prelude.{◌≡◌, ℕ, ◌+◌, ◌<◌, ◌≤◌, ◌^◌, ◌==◌, true, false, IfOk, IfSome, None, length, pos, ◌+ℤ◌, ◌-ℤ◌, ◌≤ℤ◌, slice_index_or, slice_set, unsigned_abs};
ghost use Rattle.proof_trees.specs.Program.{where_set};
ghost use Rattle.row_matrix.specs.Terms.{loses, lost, lost_by};
ghost use Rattle.row_matrix.specs.Waiting.{number_at, waits_at, waiting_in, Marked, IsShort};

use crate::entries::{Loss, Share};
use row_sums::FlatLists;
use std::alloc::Global;
use stow_data::NoMemory;

/// The slack of each base row, whether it waits to be looked at, how many rows wait, and hints where to look; a hint may be wrong or missing.
#[derive(Drop)]
pub struct Slacks {
    pub slack: Vec<i64>,
    pub waits: Vec<bool>,
    pub waiting: usize,
    pub hints: Vec<usize>,
}

fn less(slack: i64, by: u32) -> i64
    requires { unsigned_abs slack ≤ 2 ^ 39 }
    ensures { result ≡ slack -ℤ pos by }
{
    slack - i64::from(by)
}

fn more(slack: i64, by: u32) -> i64
    requires { unsigned_abs slack ≤ 2 ^ 39 }
    ensures { result ≡ slack +ℤ pos by }
{
    slack + i64::from(by)
}

// Marks all rows.
fn set_all(waits: &mut Vec<bool>, value: bool)
    ensures len { length waits.new.items ≡ length waits.old.items }
    ensures all { (r : ℕ) → r < length waits.new.items → waits_at waits.new.items r ≡ value }
{
    for row in 0..waits.len() {
        waits[row] = value;
    }
}

// Hints that lead to all of so many rows, the first one next.
fn hint_all(hints: &mut Vec<usize>, rows: usize) {
    for row in (0..rows).rev() {
        let _ = hints.push(row);
    }
}

impl Slacks {
    // A row loses slack, and waits where what is left may force something.
    fn lower_row(&mut self, row: usize, by: u32, top: u32)
        requires row { row < length self.old.slack.items }
        requires marks { length self.old.waits.items ≡ length self.old.slack.items }
        requires room { unsigned_abs (number_at self.old.slack.items row) ≤ 2 ^ 39 }
        requires count { self.old.waiting ≡ waiting_in self.old.waits.items }
        ensures len { length self.new.slack.items ≡ length self.old.slack.items }
        ensures marks { length self.new.waits.items ≡ length self.old.waits.items }
        ensures count { self.new.waiting ≡ waiting_in self.new.waits.items }
        ensures slack { (r : ℕ) → number_at self.new.slack.items r ≡ number_at self.old.slack.items r -ℤ where_set (row == r) (pos by) }
        ensures waits { (r : ℕ) → waits_at self.new.waits.items r ≡ false → waits_at self.old.waits.items r ≡ false }
        ensures wide { waits_at self.new.waits.items row ≡ false → pos top ≤ℤ number_at self.new.slack.items row }
    {
        let left = less(self.slack[row], by);
        self.slack[row] = left;
        if left >= i64::from(top) {
            return;
        }
        if self.waits[row] {
            return;
        }
        self.waits[row] = true;
        self.waiting += 1;
        let _ = self.hints.push(row);
    }

    // One row that loses slack, where it is a base row.
    fn lower_one(&mut self, row: usize, by: u32, tops: &[u32])
        requires short { IsShort self.old (length tops.now) }
        requires room { (r : ℕ) → r < length tops.now → unsigned_abs (number_at self.old.slack.items r) ≤ 2 ^ 38 }
        ensures short { IsShort self.new (length tops.now) }
        ensures slack { (r : ℕ) → r < length tops.now → number_at self.new.slack.items r ≡ number_at self.old.slack.items r -ℤ where_set (row == r) (pos by) }
        ensures waits { Marked tops.now self.old self.new }
    {
        if row >= tops.len() {
            return;
        }
        self.lower_row(row, by, tops[row]);
    }

    // Rows that lose so much slack each, and wait where they may force something.
    fn lower_all(&mut self, rows: &[usize], by: u32, tops: &[u32])
        requires short { IsShort self.old (length tops.now) }
        requires room { (r : ℕ) → r < length tops.now → unsigned_abs (number_at self.old.slack.items r) ≤ 2 ^ 38 }
        requires left { (r : ℕ) → r < length tops.now → unsigned_abs (number_at self.old.slack.items r -ℤ lost_by by rows.now r) ≤ 2 ^ 38 }
        ensures short { IsShort self.new (length tops.now) }
        ensures slack { (r : ℕ) → r < length tops.now → number_at self.new.slack.items r ≡ number_at self.old.slack.items r -ℤ lost_by by rows.now r }
        ensures waits { Marked tops.now self.old self.new }
    {
        for row in rows {
            self.lower_one(*row, by, tops);
        }
    }

    // Rows lose slack, and wait where they may force something.
    pub(crate) fn lower(&mut self, shares: &[Share], rows: &FlatLists<usize>, tops: &[u32])
        requires short { IsShort self.old (length tops.now) }
        requires room { (r : ℕ) → r < length tops.now → unsigned_abs (number_at self.old.slack.items r) ≤ 2 ^ 38 }
        requires left { (r : ℕ) → r < length tops.now → unsigned_abs (number_at self.old.slack.items r -ℤ lost shares.now rows.now r) ≤ 2 ^ 38 }
        ensures short { IsShort self.new (length tops.now) }
        ensures slack { (r : ℕ) → r < length tops.now → number_at self.new.slack.items r ≡ number_at self.old.slack.items r -ℤ lost shares.now rows.now r }
        ensures waits { Marked tops.now self.old self.new }
    {
        for share in shares {
            self.lower_all(rows.at(share.sum), share.by, tops);
        }
    }

    // Rows lose slack, each as much as is said, and wait where they may force something.
    pub(crate) fn lower_each(&mut self, losses: &[Loss], tops: &[u32])
        requires short { IsShort self.old (length tops.now) }
        requires room { (r : ℕ) → r < length tops.now → unsigned_abs (number_at self.old.slack.items r) ≤ 2 ^ 38 }
        requires left { (r : ℕ) → r < length tops.now → unsigned_abs (number_at self.old.slack.items r -ℤ loses losses.now r) ≤ 2 ^ 38 }
        ensures short { IsShort self.new (length tops.now) }
        ensures slack { (r : ℕ) → r < length tops.now → number_at self.new.slack.items r ≡ number_at self.old.slack.items r -ℤ loses losses.now r }
        ensures waits { Marked tops.now self.old self.new }
    {
        for loss in losses {
            self.lower_one(loss.row as usize, loss.by, tops);
        }
    }

    // One row that gains slack, where it is a base row.
    fn lift_one(&mut self, row: usize, by: u32)
        requires room { (r : ℕ) → r < length self.old.slack.items → unsigned_abs (number_at self.old.slack.items r) ≤ 2 ^ 38 }
        ensures len { length self.new.slack.items ≡ length self.old.slack.items }
        ensures waits { self.new.waits ≡ self.old.waits }
        ensures waiting { self.new.waiting ≡ self.old.waiting }
        ensures slack { (r : ℕ) → r < length self.old.slack.items → number_at self.new.slack.items r ≡ number_at self.old.slack.items r +ℤ where_set (row == r) (pos by) }
    {
        if row >= self.slack.len() {
            return;
        }
        self.slack[row] = more(self.slack[row], by);
    }

    // Rows that gain so much slack each.
    fn lift_all(&mut self, rows: &[usize], by: u32)
        requires room { (r : ℕ) → r < length self.old.slack.items → unsigned_abs (number_at self.old.slack.items r) ≤ 2 ^ 38 }
        requires left { (r : ℕ) → r < length self.old.slack.items → unsigned_abs (number_at self.old.slack.items r +ℤ lost_by by rows.now r) ≤ 2 ^ 38 }
        ensures len { length self.new.slack.items ≡ length self.old.slack.items }
        ensures waits { self.new.waits ≡ self.old.waits }
        ensures waiting { self.new.waiting ≡ self.old.waiting }
        ensures slack { (r : ℕ) → r < length self.old.slack.items → number_at self.new.slack.items r ≡ number_at self.old.slack.items r +ℤ lost_by by rows.now r }
    {
        for row in rows {
            self.lift_one(*row, by);
        }
    }

    // Rows gain slack.
    pub(crate) fn lift(&mut self, shares: &[Share], rows: &FlatLists<usize>)
        requires room { (r : ℕ) → r < length self.old.slack.items → unsigned_abs (number_at self.old.slack.items r) ≤ 2 ^ 38 }
        requires left { (r : ℕ) → r < length self.old.slack.items → unsigned_abs (number_at self.old.slack.items r +ℤ lost shares.now rows.now r) ≤ 2 ^ 38 }
        ensures len { length self.new.slack.items ≡ length self.old.slack.items }
        ensures waits { self.new.waits ≡ self.old.waits }
        ensures waiting { self.new.waiting ≡ self.old.waiting }
        ensures slack { (r : ℕ) → r < length self.old.slack.items → number_at self.new.slack.items r ≡ number_at self.old.slack.items r +ℤ lost shares.now rows.now r }
    {
        for share in shares {
            self.lift_all(rows.at(share.sum), share.by);
        }
    }

    // Rows gain slack, each as much as is said.
    pub(crate) fn lift_each(&mut self, losses: &[Loss])
        requires room { (r : ℕ) → r < length self.old.slack.items → unsigned_abs (number_at self.old.slack.items r) ≤ 2 ^ 38 }
        requires left { (r : ℕ) → r < length self.old.slack.items → unsigned_abs (number_at self.old.slack.items r +ℤ loses losses.now r) ≤ 2 ^ 38 }
        ensures len { length self.new.slack.items ≡ length self.old.slack.items }
        ensures waits { self.new.waits ≡ self.old.waits }
        ensures waiting { self.new.waiting ≡ self.old.waiting }
        ensures slack { (r : ℕ) → r < length self.old.slack.items → number_at self.new.slack.items r ≡ number_at self.old.slack.items r +ℤ loses losses.now r }
    {
        for loss in losses {
            self.lift_one(loss.row as usize, loss.by);
        }
    }

    /// A row that waits doesn't wait any more.
    pub fn clear(&mut self, row: usize)
        requires row { row < length self.old.waits.items }
        requires waits { waits_at self.old.waits.items row ≡ true }
        requires count { self.old.waiting ≡ waiting_in self.old.waits.items }
        ensures slack { self.new.slack ≡ self.old.slack }
        ensures waits { self.new.waits.items ≡ slice_set self.old.waits.items row false }
        ensures count { self.new.waiting ≡ waiting_in self.new.waits.items }
    {
        self.waits[row] = false;
        self.waiting -= 1;
    }

    /// Leads to a row again that was found and waits still.
    pub fn hint(&mut self, row: usize)
        ensures slack { self.new.slack ≡ self.old.slack }
        ensures waits { self.new.waits ≡ self.old.waits }
        ensures waiting { self.new.waiting ≡ self.old.waiting }
    {
        let _ = self.hints.push(row);
    }

    /// A row that waits, if there is one.
    pub fn next(&mut self) -> Option<usize>
        requires count { self.old.waiting ≡ waiting_in self.old.waits.items }
        ensures slack { self.new.slack ≡ self.old.slack }
        ensures waits { self.new.waits ≡ self.old.waits }
        ensures waiting { self.new.waiting ≡ self.old.waiting }
        ensures some { IfSome result (λ row. (row < length self.old.waits.items) × (waits_at self.old.waits.items row ≡ true)) }
        ensures none { result ≡ None → (r : ℕ) → r < length self.old.waits.items → waits_at self.old.waits.items r ≡ false }
    {
        while let Some(row) = self.hints.pop() {
            if row < self.waits.len() {
                if self.waits[row] {
                    return Some(row);
                }
            }
        }
        if self.waiting == 0 {
            return None;
        }
        self.waits.iter().position(|waits| *waits)
    }

    /// No row waits.
    pub fn rest(&mut self)
        requires count { self.old.waiting ≡ waiting_in self.old.waits.items }
        ensures slack { self.new.slack ≡ self.old.slack }
        ensures len { length self.new.waits.items ≡ length self.old.waits.items }
        ensures none { (r : ℕ) → waits_at self.new.waits.items r ≡ false }
        ensures count { self.new.waiting ≡ waiting_in self.new.waits.items }
    {
        while let Some(row) = self.next() {
            self.clear(row);
        }
    }

    /// All rows wait.
    pub fn rouse(&mut self)
        ensures slack { self.new.slack ≡ self.old.slack }
        ensures len { length self.new.waits.items ≡ length self.old.waits.items }
        ensures all { (r : ℕ) → r < length self.new.waits.items → waits_at self.new.waits.items r ≡ true }
        ensures count { self.new.waiting ≡ waiting_in self.new.waits.items }
    {
        self.hints.truncate(0);
        hint_all(&mut self.hints, self.waits.len());
        set_all(&mut self.waits, true);
        self.waiting = self.waits.len();
    }

    /// These slacks; all rows wait.
    pub fn of(alloc: Global, slacks: &[i64]) -> Result<Slacks, NoMemory>
        ensures slack { IfOk result (λ s. s.slack.items ≡ slacks.now) }
        ensures len { IfOk result (λ s. length s.waits.items ≡ length slacks.now) }
        ensures all { IfOk result (λ s. (r : ℕ) → r < length slacks.now → waits_at s.waits.items r ≡ true) }
        ensures count { IfOk result (λ s. s.waiting ≡ waiting_in s.waits.items) }
    {
        let mut all = Slacks {
            slack: Vec::from_slice(alloc, slacks)?,
            waits: Vec::from_elem(alloc, true, slacks.len())?,
            waiting: 0,
            hints: Vec::with_capacity(alloc, slacks.len())?,
        };
        all.rouse();
        Ok(all)
    }
}
