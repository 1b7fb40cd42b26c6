//! The parts of the matrix, built.
ghost use Rattle.std.specs.Prelude.{◌≡◌, ℕ, ◌<◌, ◌≤◌, [], IfOk, length, slice_index_or};
ghost use Rattle.zero_one_rows.specs.Variables.{variables};
ghost use Rattle.row_sums.specs.Transposed.{IsTransposed};
ghost use Rattle.row_sums.specs.Numbers.{numbers};
ghost use Rattle.row_matrix.specs.Terms.{count};
ghost use Rattle.row_matrix.specs.Counted.{weight_of, all_weights, AreEntries, AreShares};
ghost use Rattle.row_matrix.specs.Parted.{AreRowSums};
ghost use Rattle.row_matrix.specs.Signed.{AreSigned};
ghost use Rattle.row_matrix.specs.Margins.{AreMargins};

use crate::counting::{all_entries, all_shares, weights_of};
use crate::entries::{Entry, Share};
use crate::laws::rows_obey_laws;
use crate::margins::{Margins, heaviest_of, margins_of};
use crate::signed::{SignedRows, rows_at};
use row_sums::{FlatLists, RowSums, SumMatrix};
use std::alloc::Global;
use stow_data::{NoMemory, Seq, VarNo};
use zero_one_model::Model;
use zero_one_rows::Var;

/// The entries of each sum, the shares of each variable, and a weight that no variable's passes.
#[derive(Drop)]
pub(crate) struct Columns {
    pub entries: FlatLists<Entry>,
    pub shares: FlatLists<Share>,
    pub heaviest: u32,
}

/// The variables in their order.
fn variables_of(alloc: Global, model: &Model) -> Result<Seq<Var>, NoMemory>
    ensures { IfOk result (λ vars. vars ≡ variables model.now) }
{
    let mut vars = Seq::new(alloc);
    for v in 0..model.vars() {
        vars.push(model.var(VarNo(v)))?;
    }
    Ok(vars)
}

/// The sums of a program.
pub(crate) fn matrix_of<'a>(alloc: Global, model: &'a Model<'a>) -> Result<SumMatrix<'a>, NoMemory>
    ensures { IfOk result (λ a. a.voyage ≡ model.now) }
{
    let vars = variables_of(alloc, model)?;
    let matrix = SumMatrix::build(alloc, model.ship(), model.cargo(), vars.as_slice());
    drop(vars);
    matrix
}

/// The weight of each variable's kind.
fn all_weights_of(alloc: Global, sums: &RowSums, model: &Model) -> Result<Seq<u32>, NoMemory>
    requires { sums.now ≡ model.now }
    ensures { IfOk result (λ ws. ws ≡ all_weights model.now) }
{
    let vars = variables_of(alloc, model)?;
    let weights = weights_of(alloc, sums, vars.as_slice());
    drop(vars);
    weights
}

/// What is kept of sums and variables, where the weights of variables are at hand.
fn columns_by(alloc: Global, matrix: &SumMatrix, weights: &[u32]) -> Result<Columns, NoMemory>
    requires weights { weights.now ≡ all_weights matrix.now.voyage }
    requires few { length weights.now ≤ 200000 }
    ensures entries { IfOk result (λ c. AreEntries matrix.now.voyage matrix.now.numbering c.entries) }
    ensures shares { IfOk result (λ c. (v : ℕ) → v < length (variables matrix.now.voyage) → AreShares matrix.now.voyage matrix.now.numbering v (slice_index_or c.shares v [])) }
    ensures heaviest { IfOk result (λ c. (v : ℕ) → v < length (variables matrix.now.voyage) → weight_of matrix.now.voyage v ≤ c.heaviest) }
{
    let entries = all_entries(alloc, matrix, weights)?;
    match all_shares(alloc, matrix, weights) {
        Ok(shares) => Ok(Columns {
            entries,
            shares,
            heaviest: heaviest_of(weights),
        }),
        Err(no) => {
            drop(entries);
            Err(no)
        }
    }
}

/// What is kept of the program's sums and variables.
pub(crate) fn columns_of(
    alloc: Global,
    matrix: &SumMatrix,
    model: &Model,
) -> Result<Columns, NoMemory>
    requires { matrix.now.voyage ≡ model.now }
    ensures entries { IfOk result (λ c. AreEntries matrix.now.voyage matrix.now.numbering c.entries) }
    ensures shares { IfOk result (λ c. (v : ℕ) → v < length (variables matrix.now.voyage) → AreShares matrix.now.voyage matrix.now.numbering v (slice_index_or c.shares v [])) }
    ensures heaviest { IfOk result (λ c. (v : ℕ) → v < length (variables matrix.now.voyage) → weight_of matrix.now.voyage v ≤ c.heaviest) }
{
    model.keeps_limits();
    let weights = all_weights_of(alloc, matrix.sums(), model)?;
    let columns = columns_by(alloc, matrix, weights.as_slice());
    drop(weights);
    columns
}

/// For each base row the numbers of its sums that lose at the value, and for each sum those rows.
fn turned_rows(
    alloc: Global,
    matrix: &SumMatrix,
    model: &Model,
    value: bool,
) -> Result<(FlatLists<usize>, FlatLists<usize>), NoMemory>
    requires { matrix.now.voyage ≡ model.now }
    ensures lists { IfOk result (λ r. AreRowSums model.now matrix.now.numbering value r.0 (count model.now)) }
    ensures turned { IfOk result (λ r. IsTransposed r.0 (numbers matrix.now.numbering) r.1) }
{
    let lists = rows_at(alloc, matrix, model, value)?;
    match lists.transposed(alloc, matrix.numbering().numbers()) {
        Ok(turned) => Ok((lists, turned)),
        Err(no) => {
            drop(lists);
            Err(no)
        }
    }
}

/// What is kept of the program's base rows.
fn signed_rows(alloc: Global, matrix: &SumMatrix, model: &Model) -> Result<SignedRows, NoMemory>
    requires { matrix.now.voyage ≡ model.now }
    ensures { IfOk result (AreSigned model.now matrix.now.numbering) }
{
    let plus = turned_rows(alloc, matrix, model, false)?;
    match turned_rows(alloc, matrix, model, true) {
        Ok((minus, minus_rows)) => Ok(SignedRows {
            plus: plus.0,
            minus,
            plus_rows: plus.1,
            minus_rows,
        }),
        Err(no) => {
            drop(plus);
            Err(no)
        }
    }
}

/// What is kept of the program's base rows, and their margins.
pub(crate) fn rows_and_margins(
    alloc: Global,
    matrix: &SumMatrix,
    model: &Model,
    heaviest: u32,
) -> Result<(SignedRows, Margins), NoMemory>
    requires voyage { matrix.now.voyage ≡ model.now }
    requires heaviest { (v : ℕ) → v < length (variables model.now) → weight_of model.now v ≤ heaviest }
    ensures rows { IfOk result (λ r. AreSigned model.now matrix.now.numbering r.0) }
    ensures margins { IfOk result (λ r. AreMargins model.now r.1 (count model.now)) }
{
    rows_obey_laws(model);
    matrix.is_numbered();
    let rows = signed_rows(alloc, matrix, model)?;
    match margins_of(alloc, model, &rows.plus, heaviest) {
        Ok(margins) => Ok((rows, margins)),
        Err(no) => {
            drop(rows);
            Err(no)
        }
    }
}
