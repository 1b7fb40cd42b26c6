//! The variables of sums and the sums of variables.
ghost use Rattle.std.specs.Prelude.{◌≡◌, ℕ, ◌<◌, ◌^◌, All, length, IfOk};
ghost use Rattle.zero_one_rows.specs.Variables.{variables, var};
ghost use Rattle.row_sums.specs.Numbers.{number as number_of, IsNumbering, IsThere};
ghost use Rattle.row_sums.specs.declared.sums.Sum.{Sum};
ghost use Rattle.row_sums.specs.Held.{variables_of, AreSumsOf, AreTurned, IsRising};
ghost use Rattle.row_sums.specs.Transposed.{IsTransposed};

use crate::listing::list_sums;
use crate::lists::FlatLists;
use crate::numbering::Numbering;
use crate::rows::RowSums;
use crate::sums::Sum;
use std::alloc::Global;
use std::marker::Model;
use stow_data::{Cargo, NoMemory, Ship};
use zero_one_rows::Var;

/// The sums of a voyage by number, with the variables of each and the sums of each variable. Contracts see the voyage and how its sums are numbered.
#[derive(Drop)]
pub struct SumMatrix<'a> {
    sums: RowSums<'a>,
    numbering: Numbering,
    variables: FlatLists<usize>,
    holders: FlatLists<usize>,
}

impl<'a> Model for SumMatrix<'a> {
    ghost use Rattle.row_sums.specs.Matrix.{Matrix};

    ghost Value = { Matrix };

    ghost use Rattle.row_sums.specs.Built.{matrix_of, IsBuilt};

    ghost view = { matrix_of };

    ghost invariant = { IsBuilt };
}

/// The variables of each sum.
fn variables_by_sum(
    alloc: Global,
    sums: &RowSums,
    z: Numbering,
    vars: &[Var],
) -> Result<FlatLists<usize>, NoMemory>
    requires numbers { IsNumbering sums.now z }
    requires vars { vars.now ≡ variables sums.now }
    ensures { IfOk result (λ lists. AreTurned sums.now z lists) }
{
    let each = list_sums(alloc, sums, z, vars)?;
    let turned = each.transposed(alloc, z.numbers());
    drop(each);
    turned
}

/// How the sums are numbered, the variables of each sum, and the sums of each variable.
fn numbered(
    alloc: Global,
    ship: &Ship,
    cargo: &Cargo,
    sums: &RowSums,
    vars: &[Var],
) -> Result<(Numbering, FlatLists<usize>, FlatLists<usize>), NoMemory>
    requires voyage { sums.now ≡ record { ship = ship.now; cargo = cargo.now } }
    requires vars { vars.now ≡ variables sums.now }
    ensures numbers { IfOk result (λ l. IsNumbering sums.now l.0) }
    ensures variables { IfOk result (λ l. AreTurned sums.now l.0 l.1) }
    ensures holders { IfOk result (λ l. IsTransposed l.1 (length (variables sums.now)) l.2) }
{
    let Some(numbering) = Numbering::of(ship, cargo, sums.kinds()) else {
        return Err(NoMemory);
    };
    let variables = variables_by_sum(alloc, sums, numbering, vars)?;
    match variables.transposed(alloc, vars.len()) {
        Ok(holders) => Ok((numbering, variables, holders)),
        Err(no) => {
            drop(variables);
            Err(no)
        }
    }
}

impl<'a> SumMatrix<'a> {
    /// The matrix of the voyage of this ship and cargo, whose variables these are. Wants memory too where 64 bits can't count the sums.
    pub fn build(
        alloc: Global,
        ship: &'a Ship,
        cargo: &'a Cargo,
        vars: &[Var],
    ) -> Result<SumMatrix<'a>, NoMemory>
        requires { vars.now ≡ variables (record { ship = ship.now; cargo = cargo.now }) }
        ensures voyage { IfOk result (λ a. a.voyage ≡ record { ship = ship.now; cargo = cargo.now }) }
        ensures numbers { IfOk result (λ a. IsNumbering a.voyage a.numbering) }
    {
        let sums = RowSums::build(alloc, ship, cargo)?;
        match numbered(alloc, ship, cargo, &sums, vars) {
            Ok((numbering, variables, holders)) => Ok(SumMatrix {
                sums,
                numbering,
                variables,
                holders,
            }),
            Err(no) => {
                drop(sums);
                Err(no)
            }
        }
    }

    /// The voyage's sums.
    pub fn sums(&self) -> &RowSums<'a>
        ensures { result.now ≡ self.now.voyage }
    {
        &self.sums
    }

    /// How the sums are numbered.
    pub fn numbering(&self) -> Numbering
        ensures same { result ≡ self.now.numbering }
        ensures room { IsNumbering self.now.voyage result }
    {
        self.numbering
    }

    /// The numbering is the voyage's: a law, which costs nothing when it runs.
    pub fn is_numbered(&self)
        ensures { IsNumbering self.now.voyage self.now.numbering }
    {
        let _opened = &self.numbering;
    }

    /// The variables of a sum by its number, rising.
    pub fn variables(&self, number: usize) -> &[usize]
        ensures are { (s : Sum) → IsThere self.now.voyage s → number ≡ number_of self.now.numbering s → result.now ≡ variables_of self.now.voyage s }
        ensures inside { All (λ v. v < length (variables self.now.voyage)) result.now }
    {
        self.variables.at(number)
    }

    /// The numbers of the sums that hold a variable, rising, each once.
    pub fn sums_of(&self, v: usize) -> &[usize]
        requires { v < length (variables self.now.voyage) }
        ensures sums { AreSumsOf self.now.voyage self.now.numbering (var self.now.voyage v) result.now }
        ensures rising { IsRising result.now }
    {
        self.holders.at(v)
    }
}
