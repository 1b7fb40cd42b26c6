//! Base rows written out, and what they lose by each variable: faster to read than sums, in memory of the rows.
ghost use Rattle.std.specs.Prelude.{◌≡◌, ℕ, ◌+◌, ◌<◌, ◌++◌, ◌∷◌, [], IfSome, IfOk, OnOk, cond, length, pos, ◌+ℤ◌, ◌==◌, slice_index_or};
ghost use Rattle.proof_trees.specs.Program.{where_set};
ghost use Rattle.zero_one_rows.specs.Variables.{Voyage, variables};
ghost use Rattle.row_sums.specs.Numbers.{IsNumbering};
ghost use Rattle.row_matrix.specs.Terms.{count, row_at, loses, lost, lost_by, AreTerms};
ghost use Rattle.row_matrix.specs.Counted.{AreEntries, AreShares};
ghost use Rattle.row_matrix.specs.Signed.{AreSigned};
ghost use Rattle.row_matrix.specs.Written.{AreWritten, AreRowTerms, Flattens};

use crate::building::Columns;
use crate::entries::{Entry, Loss, Share, Term};
use crate::laws::rows_obey_laws;
use crate::reading::list_terms;
use crate::signed::SignedRows;
use row_sums::{FlatLists, Numbering};
use std::alloc::Global;
use stow_data::{NoMemory, VarNo};
use zero_one_model::Model;

/// The most terms that are written out.
const MOST_TERMS: usize = 1 << 24;

/// The terms of each base row, and for each variable the rows that lose where it gets a value.
#[derive(Drop)]
pub(crate) struct Written {
    pub terms: FlatLists<Term>,
    pub at_zero: FlatLists<Loss>,
    pub at_one: FlatLists<Loss>,
}

impl Written {
    /// The rows that lose where a variable gets a value.
    pub(crate) fn losses(&self, x: VarNo, value: bool) -> &[Loss]
        ensures { result.now ≡ slice_index_or (cond value self.now.at_one self.now.at_zero) x [] }
    {
        if value {
            self.at_one.at(x.0 as usize)
        } else {
            self.at_zero.at(x.0 as usize)
        }
    }
}

/// The number of entries of some sums.
fn entries_in(entries: &FlatLists<Entry>, sums: &[usize]) -> usize {
    let mut count = 0usize;
    for sum in sums {
        count = count.saturating_add(entries.at(*sum).len());
    }
    count
}

/// Whether the terms of all rows are few enough to be written out.
fn are_few(entries: &FlatLists<Entry>, rows: &SignedRows) -> bool {
    let mut room = MOST_TERMS;
    for k in 0..rows.plus.len() {
        let plus = entries_in(entries, rows.plus.at(k));
        let count = entries_in(entries, rows.minus.at(k)).saturating_add(plus);
        if count > room {
            return false;
        }
        room -= count;
    }
    true
}

/// The terms of each base row.
fn terms_of_rows(
    alloc: Global,
    model: &Model,
    numbering: Numbering,
    entries: &FlatLists<Entry>,
    rows: &SignedRows,
) -> Result<FlatLists<Term>, NoMemory>
    requires numbering { IsNumbering model.now numbering }
    requires entries { AreEntries model.now numbering entries.now }
    requires rows { AreSigned model.now numbering rows.now }
    ensures { IfOk result (λ lists. AreRowTerms model.now lists (count model.now)) }
{
    rows_obey_laws(model);
    let mut lists = FlatLists::new(alloc);
    let mut terms = Vec::new(alloc);
    for k in 0..model.base_rows() {
        list_terms(&mut terms, entries, rows, k as usize)?;
        lists.push(terms.as_slice())?;
    }
    Ok(lists)
}

/// What a row loses, where its number is small.
fn loss(row: usize, by: u32) -> Option<Loss>
    ensures { IfSome result (λ l. (l.row ≡ row) × (l.by ≡ by)) }
{
    match u32::try_from(row) {
        Ok(row) => Some(Loss { row, by }),
        Err(_) => None,
    }
}

/// Appends a row that loses so much, where there is memory and its number is small.
fn append_row(losses: &mut Vec<Loss>, row: usize, by: u32) -> Option<()>
    ensures { IfSome result (λ _. (k : ℕ) → loses losses.new.items k ≡ loses losses.old.items k +ℤ where_set (row == k) (pos by)) }
{
    let one = loss(row, by)?;
    match losses.push(one) {
        Ok(()) => Some(()),
        Err(_) => None,
    }
}

/// Appends rows that lose so much each.
fn append_rows(losses: &mut Vec<Loss>, rows: &[usize], by: u32) -> Option<()>
    ensures { IfSome result (λ _. (k : ℕ) → loses losses.new.items k ≡ loses losses.old.items k +ℤ lost_by by rows.now k) }
{
    for row in rows {
        append_row(losses, *row, by)?;
    }
    Some(())
}

/// Appends the rows that lose by some shares, where for each sum these rows lose with it.
fn append_shares(losses: &mut Vec<Loss>, shares: &[Share], rows: &FlatLists<usize>) -> Option<()>
    ensures { IfSome result (λ _. (k : ℕ) → loses losses.new.items k ≡ loses losses.old.items k +ℤ lost shares.now rows.now k) }
{
    for share in shares {
        append_rows(losses, rows.at(share.sum), share.by)?;
    }
    Some(())
}

/// For each of so many variables the rows that lose by its shares.
fn losses_of(
    alloc: Global,
    shares: &FlatLists<Share>,
    rows: &FlatLists<usize>,
    vars: usize,
) -> Option<FlatLists<Loss>>
    ensures { IfSome result (λ lists. Flattens shares.now rows.now lists vars) }
{
    let mut lists = FlatLists::new(alloc);
    let mut losses = Vec::new(alloc);
    for v in 0..vars {
        losses.truncate(0);
        append_shares(&mut losses, shares.at(v), rows)?;
        lists.push(losses.as_slice()).ok()?;
    }
    Some(lists)
}

/// For each of so many variables the rows that lose where it gets 0, and where it gets 1.
fn both_losses(
    alloc: Global,
    columns: &Columns,
    rows: &SignedRows,
    vars: usize,
) -> Option<(FlatLists<Loss>, FlatLists<Loss>)>
    ensures zero { IfSome result (λ l. Flattens columns.now.shares rows.now.plus_rows l.0 vars) }
    ensures one { IfSome result (λ l. Flattens columns.now.shares rows.now.minus_rows l.1 vars) }
{
    let at_zero = losses_of(alloc, &columns.shares, &rows.plus_rows, vars)?;
    match losses_of(alloc, &columns.shares, &rows.minus_rows, vars) {
        Some(at_one) => Some((at_zero, at_one)),
        None => {
            drop(at_zero);
            None
        }
    }
}

/// What is written out of a program's base rows, where there is room for it.
pub(crate) fn written_of(
    alloc: Global,
    model: &Model,
    numbering: Numbering,
    columns: &Columns,
    rows: &SignedRows,
) -> Option<Written>
    requires numbering { IsNumbering model.now numbering }
    requires entries { AreEntries model.now numbering columns.now.entries }
    requires shares { (v : ℕ) → v < length (variables model.now) → AreShares model.now numbering v (slice_index_or columns.now.shares v []) }
    requires rows { AreSigned model.now numbering rows.now }
    ensures { IfSome result (AreWritten model.now) }
{
    if !are_few(&columns.entries, rows) {
        return None;
    }
    rows_obey_laws(model);
    let vars = model.vars() as usize;
    let Ok(terms) = terms_of_rows(alloc, model, numbering, &columns.entries, rows) else {
        return None;
    };
    match both_losses(alloc, columns, rows, vars) {
        Some((at_zero, at_one)) => Some(Written {
            terms,
            at_zero,
            at_one,
        }),
        None => {
            drop(terms);
            None
        }
    }
}
