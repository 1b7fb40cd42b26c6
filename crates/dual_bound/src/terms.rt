//! The terms of rows: their variables with coefficients.
ghost use Rattle.std.specs.Prelude.{◌≡◌, ℕ, ◌<◌, ◌≤◌, ◌^◌, ◌↔◌, true, length, Contains, IfOk, unsigned_abs};
ghost use Rattle.zero_one_rows.specs.Variables.{variables};
ghost use Rattle.zero_one_rows.specs.Rows.{whole};
ghost use Rattle.zero_one_model.specs.Indexed.{Touches};
ghost use Rattle.row_matrix.specs.Terms.{AreTerms, vars_in};
ghost use Rattle.dual_bound.specs.Costs.{IsListed};

use row_matrix::Term;
use std::alloc::Global;
use stow_data::{NoMemory, Seq, VarNo};
use zero_one_model::Model;
use zero_one_rows::Row;

/// A row with its right side and its terms.
#[derive(Clone, Copy)]
pub struct Listed<'a> {
    pub row: &'a Row,
    pub right: i64,
    pub terms: &'a [Term],
}

// A coefficient, which is small.
fn narrow(coef: i64) -> i32
    requires { unsigned_abs coef ≤ 2 ^ 17 }
    ensures { result ≡ coef }
{
    coef as i32
}

// The term of a variable in a row.
fn term_of(model: &Model, row: &Row, var: VarNo) -> Term
    requires row { (whole model.now).has row.now ≡ true }
    requires var { var < length (variables model.now) }
    ensures var { result.at ≡ var }
    ensures coef { result.by ≡ (whole model.now).coef row.now var }
    ensures small { unsigned_abs result.by ≤ 2 ^ 17 }
{
    Term {
        at: var,
        by: narrow(model.coefficient(row, var)),
    }
}

/// The terms of a row: exactly those with a coefficient other than 0.
pub fn terms_of(alloc: Global, model: &Model, row: &Row) -> Result<Seq<Term>, NoMemory>
    requires { (whole model.now).has row.now ≡ true }
    ensures terms { IfOk result (λ ts. AreTerms model.now row.now ts) }
    ensures each { IfOk result (λ ts. (x : ℕ) → Contains (vars_in ts) x ↔ Touches model.now row.now x) }
{
    let vars = model.vars_of(alloc, row)?;
    let mut terms = Seq::new(alloc);
    for var in vars.as_slice() {
        terms.push(term_of(model, row, *var))?;
    }
    Ok(terms)
}

/// A row with its terms at hand.
pub fn list_row<'a>(model: &Model, row: &'a Row, terms: &'a [Term]) -> Listed<'a>
    requires row { (whole model.now).has row.now ≡ true }
    requires terms { AreTerms model.now row.now terms.now }
    ensures row { result.row.now ≡ row.now }
    ensures terms { result.terms.now ≡ terms.now }
    ensures listed { IsListed model.now row.now result.right terms.now }
{
    Listed {
        row,
        right: model.rhs(row),
        terms,
    }
}
