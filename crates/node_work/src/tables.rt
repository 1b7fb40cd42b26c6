//! What is built once for a program.
ghost use Rattle.std.specs.Prelude.{◌≡◌};

use dual_bound::RowTable;
use partial_plan::BaseMatrix;
use std::alloc::Global;
use std::marker;
use zero_one_model::Model;

/// The matrix of a program's base rows with the terms of its rows, built once and read by every worker. Contracts see the voyage.
#[derive(Drop)]
pub struct Tables<'a> {
    matrix: &'a BaseMatrix<'a>,
    rows: RowTable<'a>,
}

impl<'a> marker::Model for Tables<'a> {
    ghost use Rattle.zero_one_rows.specs.Variables.{Voyage};

    ghost Value = { Voyage };

    ghost use Rattle.node_work.specs.Built.{voyage_of, AreTables};

    ghost view = { voyage_of };

    ghost invariant = { AreTables };
}

impl<'a> Tables<'a> {
    /// The tables of a program, whose base rows stand in a matrix.
    pub fn build(alloc: Global, matrix: &'a BaseMatrix<'a>) -> Tables<'a>
        ensures { result ≡ matrix.now }
    {
        Tables {
            matrix,
            rows: RowTable::build(alloc, matrix),
        }
    }

    /// The program.
    pub fn model(&self) -> &Model<'a>
        ensures { result.now ≡ self.now }
    {
        self.matrix.model()
    }

    /// Its base rows.
    pub(crate) fn matrix(&self) -> &BaseMatrix<'a>
        ensures { result.now ≡ self.now }
    {
        self.matrix
    }

    /// The terms of its rows.
    pub(crate) fn rows(&self) -> &RowTable<'a>
        ensures { result.now ≡ self.now }
    {
        &self.rows
    }
}
