//! The sums of a program's rows, and the tables that a search builds once.
ghost use Rattle.std.specs.Prelude.{◌≡◌, IfOk, length};
ghost use Rattle.zero_one_rows.specs.Variables.{variables};

use crate::words::write_count;
use dual_bound::RowTable;
use partial_plan::BaseMatrix;
use row_sums::SumMatrix;
use std::alloc::Global;
use stow_data::{Bytes, NoMemory, Seq, VarNo};
use zero_one_model::Model;
use zero_one_rows::Var;

/// The variables in their order.
fn variables_of(alloc: Global, model: &Model) -> Result<Seq<Var>, NoMemory>
    ensures { IfOk result (λ vars. vars ≡ variables model.now) }
{
    let mut vars = Seq::new(alloc);
    for v in 0..model.vars() {
        vars.push(model.var(VarNo(v)))?;
    }
    Ok(vars)
}

/// How many sums the base rows share, and how many variables they hold together.
pub fn write_sums(alloc: Global, model: &Model, out: &mut Bytes) -> Result<(), NoMemory> {
    let vars = variables_of(alloc, model)?;
    let written = write_sums_of(alloc, model, vars.as_slice(), out);
    drop(vars);
    written
}

/// The same by the variables.
fn write_sums_of(
    alloc: Global,
    model: &Model,
    vars: &[Var],
    out: &mut Bytes,
) -> Result<(), NoMemory>
    requires { vars.now ≡ variables model.now }
{
    let matrix = SumMatrix::build(alloc, model.ship(), model.cargo(), vars)?;
    let entries = entries_of(&matrix, vars.len());
    drop(matrix);
    write_count(out, b"entries", entries)
}

/// How many variables the sums of a matrix hold together.
fn entries_of(matrix: &SumMatrix, vars: usize) -> u64
    requires { vars ≡ length (variables matrix.now.voyage) }
{
    let mut entries: u64 = 0;
    for v in 0..vars {
        entries = entries.saturating_add(matrix.sums_of(v).len() as u64);
    }
    entries
}

/// Builds what a search builds once.
pub fn write_tables<'a>(
    alloc: Global,
    model: &'a Model<'a>,
    out: &mut Bytes,
) -> Result<(), NoMemory> {
    let matrix = BaseMatrix::build(alloc, model)?;
    drop(RowTable::build(alloc, &matrix));
    let vars = matrix.model().vars();
    drop(matrix);
    write_count(out, b"tables of", u64::from(vars))
}
