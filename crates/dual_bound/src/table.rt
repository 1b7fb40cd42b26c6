//! The terms of a program's rows, kept.
ghost use Rattle.std.specs.Prelude.{◌≡◌, ◌+◌, ◌<◌, ◌≤◌, length, slice_get, Some, OnOk, IfSome};
ghost use Rattle.zero_one_rows.specs.declared.program.Row.{Row as Rows};
ghost use Rattle.zero_one_rows.specs.Counted.{all_rows, base_rows};
ghost use Rattle.row_matrix.specs.Terms.{count, AreTerms};
ghost use Rattle.dual_bound.specs.Costs.{IsListed};
ghost use Rattle.dual_bound.specs.Kept.{AreRights, AreCrossing};
ghost use Rattle.crossing_pricing.specs.Pairs.{ArePairs};

use crate::terms::terms_of;
use crossing_pricing::PairTable;
use row_matrix::{BaseMatrix, Term};
use row_sums::FlatLists;
use std::alloc::Global;
use stow_data::{NoMemory, Seq};
use zero_one_model::Model;

/// The most terms of crossing rows that are kept.
const MOST_TERMS: usize = 1 << 22;

/// The right sides of a program's rows; the terms of its base rows, where a matrix has them written out, and of as many crossing rows as there is room for; and what pairs of calls bring to crossing rows. Contracts see the voyage.
#[derive(Drop)]
pub struct RowTable<'a> {
    model: &'a Model<'a>,
    matrix: Option<&'a BaseMatrix<'a>>,
    rights: Seq<i64>,
    crossing: FlatLists<Term>,
    pairs: Option<PairTable>,
}

impl<'a> std::marker::Model for RowTable<'a> {
    ghost use Rattle.zero_one_rows.specs.Variables.{Voyage};
    ghost use Rattle.dual_bound.specs.Tables.{voyage_of, IsTable};

    ghost Value = { Voyage };

    ghost view = { voyage_of };

    ghost invariant = { IsTable };
}

// Appends the right side of the next row.
fn append_right(model: &Model, number: u64, rights: &mut Seq<i64>) -> Result<(), NoMemory>
    requires number { number < length (all_rows model.now) }
    requires rights { length rights.old ≡ number }
    requires kept { AreRights model.now rights.old }
    ensures kept { AreRights model.now rights.new }
    ensures rights { OnOk result (length rights.new ≡ number + 1) }
{
    let row = model.row_at(number);
    let right = model.rhs(&row);
    rights.push(right)?;
    Ok(())
}

// The right sides of all rows, of as many as there is memory for.
fn rights_of(alloc: Global, model: &Model) -> Seq<i64>
    ensures { AreRights model.now result }
{
    let mut rights = Seq::new(alloc);
    for number in 0..model.rows() {
        if append_right(model, number, &mut rights).is_err() {
            return rights;
        }
    }
    rights
}

// Appends the terms of the next crossing row, and answers how many they are.
fn append_terms(
    alloc: Global,
    model: &Model,
    number: u64,
    lists: &mut FlatLists<Term>,
) -> Result<usize, NoMemory>
    requires number { number < length (all_rows model.now) }
    requires lists { length (base_rows model.now) + length lists.old ≡ number }
    requires kept { AreCrossing model.now lists.old }
    ensures kept { AreCrossing model.now lists.new }
    ensures lists { OnOk result (length (base_rows model.now) + length lists.new ≡ number + 1) }
{
    let row = model.row_at(number);
    let terms = terms_of(alloc, model, &row)?;
    lists.push(terms.as_slice())?;
    Ok(terms.len())
}

// The terms of crossing rows, of as many as there is room for.
fn crossing_of(alloc: Global, model: &Model) -> FlatLists<Term>
    ensures { AreCrossing model.now result }
{
    let mut lists = FlatLists::new(alloc);
    let mut room = MOST_TERMS;
    for number in model.base_rows()..model.rows() {
        let Ok(count) = append_terms(alloc, model, number, &mut lists) else {
            return lists;
        };
        if count >= room {
            return lists;
        }
        room -= count;
    }
    lists
}

// What pairs of calls bring, where there is memory for it.
fn pairs_of(alloc: Global, model: &Model) -> Option<PairTable>
    ensures { IfSome result (ArePairs model.now) }
{
    PairTable::build(alloc, model).ok()
}

impl<'a> RowTable<'a> {
    /// A table that keeps no rows. It takes no memory.
    pub fn none(alloc: Global, model: &'a Model<'a>) -> RowTable<'a>
        ensures { result ≡ model.now }
    {
        RowTable {
            model,
            matrix: None,
            rights: Seq::new(alloc),
            crossing: FlatLists::new(alloc),
            pairs: None,
        }
    }

    /// The rows of a program, whose base rows stand in a matrix, and of whose other rows it keeps as many as there is memory for.
    pub fn build(alloc: Global, matrix: &'a BaseMatrix<'a>) -> RowTable<'a>
        ensures { result ≡ matrix.now }
    {
        let model = matrix.model();
        RowTable {
            model,
            matrix: Some(matrix),
            rights: rights_of(alloc, model),
            crossing: crossing_of(alloc, model),
            pairs: pairs_of(alloc, model),
        }
    }

    // The terms of a base row, where a matrix has them written out.
    fn base_terms(&self, number: u64) -> Option<&[Term]>
        requires { number < count self.now }
        ensures { IfSome result (λ ts. (r : Rows) → slice_get (all_rows self.now) number ≡ Some r → AreTerms self.now r ts.now) }
    {
        match self.matrix {
            Some(matrix) => matrix.written_terms(number as usize),
            None => None,
        }
    }

    // The terms of a crossing row, where they are kept.
    fn crossing_terms(&self, number: u64) -> Option<&[Term]>
        requires { count self.now ≤ number }
        ensures { IfSome result (λ ts. (r : Rows) → slice_get (all_rows self.now) number ≡ Some r → AreTerms self.now r ts.now) }
    {
        let index = (number - self.model.base_rows()) as usize;
        if index < self.crossing.len() {
            Some(self.crossing.at(index))
        } else {
            None
        }
    }

    // The terms of a row, where they are at hand.
    fn terms(&self, number: u64) -> Option<&[Term]>
        ensures { IfSome result (λ ts. (r : Rows) → slice_get (all_rows self.now) number ≡ Some r → AreTerms self.now r ts.now) }
    {
        if number < self.model.base_rows() {
            self.base_terms(number)
        } else {
            self.crossing_terms(number)
        }
    }

    /// The right side and the terms of the row with this number, where they are at hand.
    pub fn row(&self, number: u64) -> Option<(i64, &[Term])>
        ensures { IfSome result (λ p. (r : Rows) → slice_get (all_rows self.now) number ≡ Some r → IsListed self.now r p.0 p.1.now) }
    {
        let index = number as usize;
        if index >= self.rights.len() {
            return None;
        }
        let terms = self.terms(number)?;
        Some((*self.rights.at(index), terms))
    }

    /// What pairs of calls bring to crossing rows, where it is kept.
    pub fn pairs(&self) -> Option<&PairTable>
        ensures { IfSome result (λ t. ArePairs self.now t.now) }
    {
        self.pairs.as_ref()
    }
}
