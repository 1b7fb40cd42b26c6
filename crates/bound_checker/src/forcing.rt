//! What a row whose terms are at hand forces in a box.
ghost use Rattle.std.specs.Prelude.{◌≡◌, ℕ, ◌+◌, ◌<◌, ◌≤◌, ◌^◌, List, ◌++◌, true, length, OnOk, pos, ◌+ℤ◌, ◌-ℤ◌, ◌≤ℤ◌, unsigned_abs};
ghost use Rattle.proof_trees.specs.Boxes.{at, greatest, most, tight};
ghost use Rattle.zero_one_rows.specs.Variables.{variables};
ghost use Rattle.zero_one_rows.specs.Rows.{whole};
ghost use Rattle.row_matrix.specs.Terms.{AreTerms};
ghost use Rattle.dual_bound.specs.Costs.{IsListed};
ghost use Rattle.partial_plan.specs.Fixing.{Fixes};
ghost use Rattle.partial_plan.specs.Forced.{stepped};

use dual_bound::{Listed, Term};
use partial_plan::UndoList;
use stow_data::NoMemory;
use zero_one_model::{Box01, Model};
use zero_one_rows::Row;

#[tactic(auto, using(std::proofs::lemmas::Option::get_or_from_slice_get))]
// What a term brings to the greatest value of its row.
fn part(b: &Box01, term: Term) -> i64
    requires var { term.at < length b.now }
    requires small { unsigned_abs term.by ≤ 2 ^ 17 }
    ensures value { result ≡ greatest (at b.now term.at) term.by }
    ensures size { unsigned_abs result ≤ 2 ^ 17 }
{
    let by = term.by as i64;
    match b.at(term.at) {
        None => { if by < 0 { 0 } else { by } }
        Some(true) => by,
        Some(false) => 0,
    }
}

// A sum with one more number.
fn more(total: i128, by: i64) -> i128
    requires total { unsigned_abs total ≤ 2 ^ 100 }
    requires by { unsigned_abs by ≤ 2 ^ 37 }
    ensures value { result ≡ total +ℤ by }
    ensures size { unsigned_abs result ≤ unsigned_abs total + unsigned_abs by }
{
    total + by as i128
}

// The greatest value of a row over a box.
fn most_of(model: &Model, b: &Box01, row: &Row, terms: &[Term]) -> i128
    requires row { (whole model.now).has row.now ≡ true }
    requires whole { length b.now ≡ length (variables model.now) }
    requires terms { AreTerms model.now row.now terms.now }
    ensures value { result ≡ most (whole model.now) b.now row.now }
    ensures size { unsigned_abs result ≤ 2 ^ 100 }
{
    let _count = terms.len();
    let mut total: i128 = 0;
    for term in terms {
        total = more(total, part(b, *term));
    }
    total
}

// The greatest value of a row over a box, less its right side.
fn slack_of(model: &Model, b: &Box01, listed: Listed) -> i128
    requires whole { length b.now ≡ length (variables model.now) }
    requires listed { IsListed model.now listed.row.now listed.right listed.terms.now }
    ensures { result ≡ most (whole model.now) b.now listed.entry.row.now -ℤ (whole model.now).rhs listed.entry.row.now }
{
    most_of(model, b, listed.row, listed.terms) - listed.right as i128
}

#[tactic(auto, using(std::proofs::lemmas::Option::get_or_from_slice_get, partial_plan::proofs::Walking::not_stepped, partial_plan::proofs::Freeing::noted_none))]
// Fixes a term's variable where its row with this slack forces it, and notes it.
fn note_one(b: &mut Box01, undo: &mut UndoList, slack: i128, term: Term) -> Result<(), NoMemory>
    requires { term.at < length b.old }
    ensures stepped { OnOk result (b.new ≡ stepped slack b.old term.at term.by) }
    ensures noted { (xs : List ℕ) × (undo.new ≡ undo.old ++ xs) × Fixes b.old b.new xs }
{
    let by = term.by as i64;
    if b.at(term.at).is_none() && slack < by.unsigned_abs() as i128 {
        undo.push(term.at)?;
        b.fix(term.at, by > 0);
    }
    Ok(())
}

// Fixes all variables that a row with this slack forces, and notes them.
fn note_all(
    model: &Model,
    b: &mut Box01,
    undo: &mut UndoList,
    row: &Row,
    slack: i128,
    terms: &[Term],
) -> Result<(), NoMemory>
    requires row { (whole model.now).has row.now ≡ true }
    requires whole { length b.old ≡ length (variables model.now) }
    requires slack { slack ≡ most (whole model.now) b.old row.now -ℤ (whole model.now).rhs row.now }
    requires met { pos 0 ≤ℤ slack }
    requires terms { AreTerms model.now row.now terms.now }
    ensures tight { OnOk result (b.new ≡ tight (whole model.now) b.old row.now) }
    ensures noted { (xs : List ℕ) × (undo.new ≡ undo.old ++ xs) × Fixes b.old b.new xs }
{
    for term in terms {
        note_one(b, undo, slack, *term)?;
    }
    Ok(())
}

#[tactic(auto, using(partial_plan::proofs::Landing::tight_violated, partial_plan::proofs::Freeing::noted_none))]
/// Fixes all variables that a row forces, at once, and notes what was fixed; a violated row fixes nothing. It takes the time of the row's terms.
pub fn tighten_listed(
    model: &Model,
    b: &mut Box01,
    undo: &mut UndoList,
    listed: Listed,
) -> Result<(), NoMemory>
    requires whole { length b.old ≡ length (variables model.now) }
    requires listed { IsListed model.now listed.row.now listed.right listed.terms.now }
    ensures tight { OnOk result (b.new ≡ tight (whole model.now) b.old listed.entry.row.now) }
    ensures noted { (xs : List ℕ) × (undo.new ≡ undo.old ++ xs) × Fixes b.old b.new xs }
{
    let slack = slack_of(model, b, listed);
    if slack >= 0 {
        note_all(model, b, undo, listed.row, slack, listed.terms)?;
    }
    Ok(())
}
