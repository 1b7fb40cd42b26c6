//! Copies of records, and whether two are the same.
ghost use Rattle.std.specs.Prelude.{◌≡◌, IfOk, true};

use crate::few::Few;
use crate::kept_rows::{KeptRaise, KeptRaiseList, KeptRow, KeptRowList};
use crate::tree::Record;
use std::alloc::Global;
use stow_data::NoMemory;
use zero_one_rows::Row;

// A copy of rows.
fn copy_rows(alloc: Global, rows: &[KeptRow]) -> Result<Few<KeptRow>, NoMemory>
    ensures { IfOk result (λ copy. copy ≡ rows.now) }
{
    let mut copy = KeptRowList::new(alloc);
    for row in rows {
        copy.push(KeptRow::of(alloc, &row.row())?)?;
    }
    Few::of(alloc, copy)
}

// A copy of raises.
fn copy_raises(alloc: Global, raises: &[KeptRaise]) -> Result<Few<KeptRaise>, NoMemory>
    ensures { IfOk result (λ copy. copy ≡ raises.now) }
{
    let mut copy = KeptRaiseList::new(alloc);
    for raise in raises {
        copy.push(KeptRaise::of(alloc, &raise.raise())?)?;
    }
    Few::of(alloc, copy)
}

// Whether two rows are the same.
fn same_row(a: &Row, b: &Row) -> bool
    ensures { result ≡ true → a.now ≡ b.now }
{
    a == b
}

// Whether two kept rows are the same.
fn same_kept(a: &KeptRow, b: &KeptRow) -> bool
    ensures { result ≡ true → a.now ≡ b.now }
{
    same_row(&a.row(), &b.row())
}

// Whether two raises are the same.
fn same_raise(a: &KeptRaise, b: &KeptRaise) -> bool
    ensures { result ≡ true → a.now ≡ b.now }
{
    let (a, b) = (a.raise(), b.raise());
    if a.amount != b.amount {
        return false;
    }
    same_row(&a.row, &b.row)
}

// Whether two lists of rows are the same.
fn same_rows(a: &[KeptRow], b: &[KeptRow]) -> bool
    ensures { result ≡ true → a.now ≡ b.now }
{
    a.len() == b.len() && a.iter().zip(b).all(|(x, y)| same_kept(x, y))
}

// Whether two lists of raises are the same.
fn same_raises(a: &[KeptRaise], b: &[KeptRaise]) -> bool
    ensures { result ≡ true → a.now ≡ b.now }
{
    a.len() == b.len() && a.iter().zip(b).all(|(x, y)| same_raise(x, y))
}

impl Record {
    /// A copy of the record.
    pub fn copy(&self, alloc: Global) -> Result<Record, NoMemory>
        ensures { IfOk result (λ copy. copy ≡ self.now) }
    {
        Ok(Record {
            steps: copy_rows(alloc, self.steps.as_slice())?,
            raises: copy_raises(alloc, self.raises.as_slice())?,
            end: self.end,
            from_zero: self.from_zero,
        })
    }

    /// Whether two records are the same. No is no claim: contracts see what a yes says.
    pub fn is_same(&self, other: &Record) -> bool
        ensures { result ≡ true → self.now ≡ other.now }
    {
        if self.from_zero != other.from_zero {
            return false;
        }
        if self.end != other.end {
            return false;
        }
        if !same_rows(self.steps.as_slice(), other.steps.as_slice()) {
            return false;
        }
        same_raises(self.raises.as_slice(), other.raises.as_slice())
    }
}
