//! The 0-1 program of a voyage, line by line.
ghost use Rattle.std.specs.Prelude.{◌≡◌, true};
ghost use Rattle.zero_one_rows.specs.Rows.{whole};

use crate::words::{write_count, write_number, write_signed, write_var};
use certificate::{Tree, write_row};
use std::alloc::Global;
use stow_data::{Bytes, NoMemory, VarNo};
use zero_one_model::Model;
use zero_one_rows::Row;

/// How large the program is.
pub fn write_sizes(model: &Model, out: &mut Bytes) -> Result<(), NoMemory> {
    write_count(out, b"variables", u64::from(model.vars()))?;
    write_count(out, b"rows", model.rows())?;
    write_count(out, b"base rows", model.base_rows())?;
    write_count(out, b"limit", model.limit())
}

/// Each variable with its cost and the number of the rows that it stands in, and whether its number is found again.
pub fn write_variables(alloc: Global, model: &Model, out: &mut Bytes) -> Result<(), NoMemory> {
    for v in 0..model.vars() {
        let x = VarNo(v);
        write_var(out, b"x", model.var(x))?;
        out.extend(b" costs")?;
        write_number(out, u64::from(model.cost(x)))?;
        write_count(out, b" rows", model.rows_of(alloc, x)?.len() as u64)?;
        if model.number(&model.var(x)) != Some(x) {
            out.extend(b"not found\n")?;
        }
    }
    Ok(())
}

/// A row of the program: its name, its right side, and its variables by number with their coefficients.
fn write_terms(alloc: Global, model: &Model, row: &Row, out: &mut Bytes) -> Result<(), NoMemory>
    requires { (whole model.now).has row.now ≡ true }
{
    write_row(out, row)?;
    out.extend(b" :")?;
    write_signed(out, model.rhs(row))?;
    out.extend(b" :")?;
    let mut vars = Vec::from_slice(alloc, model.vars_of(alloc, row)?.as_slice())?;
    vars.sort_by_key(|x| x.0)?;
    for x in vars.as_slice() {
        write_term(model, row, *x, out)?;
    }
    out.extend(b"\n")
}

/// The number of a variable with its coefficient.
fn write_term(model: &Model, row: &Row, x: VarNo, out: &mut Bytes) -> Result<(), NoMemory>
    requires { (whole model.now).has row.now ≡ true }
{
    if x.0 >= model.vars() {
        return Ok(());
    }
    write_signed(out, i64::from(x.0))?;
    write_signed(out, model.coefficient(row, x))
}

/// Each row in its order.
pub fn write_rows(alloc: Global, model: &Model, out: &mut Bytes) -> Result<(), NoMemory> {
    for k in 0..model.rows() {
        write_terms(alloc, model, &model.row_at(k), out)?;
    }
    Ok(())
}

/// A row, with the number that it has, and its variables; or that the program hasn't it.
fn write_named(alloc: Global, model: &Model, row: &Row, out: &mut Bytes) -> Result<(), NoMemory> {
    match model.row_number(row) {
        Some(k) if model.has_row(row) => {
            write_count(out, b"row", k)?;
            write_terms(alloc, model, row, out)
        }
        _ => {
            write_row(out, row)?;
            out.extend(b" isn't a row\n")
        }
    }
}

/// The rows of some records' steps.
pub fn write_steps(
    alloc: Global,
    model: &Model,
    asked: &Tree,
    out: &mut Bytes,
) -> Result<(), NoMemory> {
    for record in asked.as_slice() {
        for row in record.steps.as_slice() {
            write_named(alloc, model, &row.row(), out)?;
        }
    }
    Ok(())
}
