//! The base rows of a program, by number and by their sums.
ghost use Rattle.std.specs.Prelude.{◌≡◌, ℕ, ◌<◌, ◌≤◌, IfOk, IfSome, OnOk, cond, length, slice_index_or, true, pos, unsigned_abs};
ghost use Rattle.proof_trees.specs.Boxes.{free_box};
ghost use Rattle.zero_one_rows.specs.Variables.{variables};
ghost use Rattle.zero_one_rows.specs.Rows.{base, whole};
ghost use Rattle.row_matrix.specs.Terms.{count, row_at, loss, loses, lost, slack_in, AreTerms, IsSmall};

use crate::base_rows::base_row;
use crate::building::{columns_of, matrix_of, rows_and_margins};
use crate::entries::{Entry, Loss, Share, Term};
use crate::laws::rows_obey_laws;
use crate::margins::Margins;
use crate::reading::list_terms;
use crate::signed::SignedRows;
use crate::written::{Written, written_of};
use row_sums::{FlatLists, Numbering, SumMatrix};
use std::alloc::Global;
use stow_data::{NoMemory, VarNo};
use zero_one_model::Model;
use zero_one_rows::Row;

/// What rows lose where a variable gets a value: the sums that hold the variable, with what it counts there, and for each sum the rows that lose with it.
#[derive(Clone, Copy)]
pub struct Losses<'a> {
    pub shares: &'a [Share],
    pub rows: &'a FlatLists<usize>,
}

/// The base rows of a program, built once for any number of boxes. Contracts see the voyage.
#[derive(Drop)]
pub struct BaseMatrix<'a> {
    model: &'a Model<'a>,
    numbering: Numbering,
    entries: FlatLists<Entry>,
    shares: FlatLists<Share>,
    rows: SignedRows,
    written: Option<Written>,
    margins: Margins,
}

impl<'a> std::marker::Model for BaseMatrix<'a> {
    ghost use Rattle.zero_one_rows.specs.Variables.{Voyage};

    ghost Value = { Voyage };

    ghost use Rattle.row_matrix.specs.Built.{voyage_of, IsBuilt};

    ghost view = { voyage_of };

    ghost invariant = { IsBuilt };
}

/// The first lists at 1, the second ones at 0.
fn chosen<'b>(
    value: bool,
    at_one: &'b FlatLists<usize>,
    at_zero: &'b FlatLists<usize>,
) -> &'b FlatLists<usize>
    ensures { result.now ≡ cond value at_one.now at_zero.now }
{
    if value { at_one } else { at_zero }
}

/// The matrix of a program's base rows, from its sums.
fn build_from<'a>(
    alloc: Global,
    matrix: &SumMatrix,
    model: &'a Model<'a>,
) -> Result<BaseMatrix<'a>, NoMemory>
    requires { matrix.now.voyage ≡ model.now }
    ensures { IfOk result (λ a. a ≡ model.now) }
{
    let numbering = matrix.numbering();
    let columns = columns_of(alloc, matrix, model)?;
    match rows_and_margins(alloc, matrix, model, columns.heaviest) {
        Ok((rows, margins)) => {
            let written = written_of(alloc, model, numbering, &columns, &rows);
            Ok(BaseMatrix {
                model,
                numbering,
                entries: columns.entries,
                shares: columns.shares,
                rows,
                written,
                margins,
            })
        }
        Err(no) => {
            drop(columns);
            Err(no)
        }
    }
}

impl<'a> BaseMatrix<'a> {
    /// The matrix of a program's base rows.
    pub fn build(alloc: Global, model: &'a Model<'a>) -> Result<BaseMatrix<'a>, NoMemory>
        ensures { IfOk result (λ a. a ≡ model.now) }
    {
        let matrix = matrix_of(alloc, model)?;
        let built = build_from(alloc, &matrix, model);
        drop(matrix);
        built
    }

    /// The program.
    pub fn model(&self) -> &Model<'a>
        ensures { result.now ≡ self.now }
    {
        self.model
    }

    /// The number of base rows.
    pub fn rows(&self) -> usize
        ensures { result ≡ count self.now }
    {
        self.margins.slacks.len()
    }

    /// A base row.
    pub fn row(&self, k: usize) -> Row
        requires { k < count self.now }
        ensures is { result ≡ row_at self.now k }
        ensures has { (whole self.now).has result ≡ true }
        ensures base { (base self.now).has result ≡ true }
    {
        base_row(self.model, k as u64)
    }

    /// The terms of a base row, in place of what the list holds.
    pub fn terms(&self, k: usize, terms: &mut Vec<Term>) -> Result<(), NoMemory>
        requires { k < count self.now }
        ensures { OnOk result (AreTerms self.now (row_at self.now k) terms.new.items) }
    {
        rows_obey_laws(self.model);
        list_terms(terms, &self.entries, &self.rows, k)
    }

    /// The terms of a base row, where rows are written out.
    pub fn written_terms(&self, k: usize) -> Option<&[Term]>
        requires { k < count self.now }
        ensures { IfSome result (λ ts. AreTerms self.now (row_at self.now k) ts.now) }
    {
        match &self.written {
            Some(written) => Some(written.terms.at(k)),
            None => None,
        }
    }

    /// For each base row a number that no coefficient passes.
    pub fn tops(&self) -> &[u32]
        ensures many { length result.now ≡ count self.now }
        ensures each { (k v : ℕ) → k < count self.now → v < length (variables self.now) → unsigned_abs ((whole self.now).coef (row_at self.now k) v) ≤ slice_index_or result.now k 0 }
    {
        self.margins.tops.as_slice()
    }

    /// The slack of each base row in the free box.
    pub fn slacks(&self) -> &[i64]
        ensures many { length result.now ≡ count self.now }
        ensures each { (k : ℕ) → k < count self.now → slice_index_or result.now k (pos 0) ≡ slack_in self.now (free_box (whole self.now)) k }
    {
        self.margins.slacks.as_slice()
    }

    /// What rows lose where a variable gets a value. It takes no memory.
    pub fn losses(&self, x: VarNo, value: bool) -> Losses<'_>
        requires { x < length (variables self.now) }
        ensures { (k : ℕ) → k < count self.now → lost result.shares.now result.rows.now k ≡ loss value ((whole self.now).coef (row_at self.now k) x) }
    {
        rows_obey_laws(self.model);
        Losses {
            shares: self.shares.at(x.0 as usize),
            rows: chosen(value, &self.rows.minus_rows, &self.rows.plus_rows),
        }
    }

    /// What rows lose where a variable gets a value, row by row, where rows are written out. It takes no memory.
    pub fn written_losses(&self, x: VarNo, value: bool) -> Option<&[Loss]>
        requires { x < length (variables self.now) }
        ensures { IfSome result (λ ls. (k : ℕ) → k < count self.now → loses ls.now k ≡ loss value ((whole self.now).coef (row_at self.now k) x)) }
    {
        match &self.written {
            Some(written) => Some(written.losses(x, value)),
            None => None,
        }
    }

    /// Slacks are small numbers: a law, which costs nothing when it runs.
    pub fn has_small_slacks(&self)
        ensures { (k : ℕ) → k < count self.now → IsSmall self.now (row_at self.now k) }
    {
        let _opened = &self.margins;
    }
}
