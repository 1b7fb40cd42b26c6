//! How far the greatest value of a row over a box lies above its right side.
ghost use Rattle.std.specs.Prelude.{◌≡◌, ◌≢◌, ℕ, ◌+◌, ◌<◌, ◌≤◌, ◌^◌, ◌↔◌, true, length, Contains, pos, ◌+ℤ◌, ◌-ℤ◌, unsigned_abs};
ghost use Rattle.std.specs.List.{AllPairs};
ghost use Rattle.proof_trees.specs.Boxes.{at, greatest, most};
ghost use Rattle.zero_one_rows.specs.Variables.{variables};
ghost use Rattle.zero_one_rows.specs.Rows.{whole};
ghost use Rattle.zero_one_model.specs.Indexed.{Touches};

use stow_data::VarNo;
use zero_one_model::{Box01, Model};
use zero_one_rows::Row;

// The greatest of so many times the values that are allowed.
fn greatest_of(allowed: Option<bool>, by: i64) -> i64
    requires { unsigned_abs by ≤ 2 ^ 17 }
    ensures value { result ≡ greatest allowed by }
    ensures size { unsigned_abs result ≤ 2 ^ 17 }
{
    match allowed {
        None => { if by < 0 { 0 } else { by } }
        Some(true) => by,
        Some(false) => 0,
    }
}

// A sum with one more number.
fn more(total: i128, by: i64) -> i128
    requires total { unsigned_abs total ≤ 2 ^ 100 }
    requires by { unsigned_abs by ≤ 2 ^ 17 }
    ensures value { result ≡ total +ℤ by }
    ensures size { unsigned_abs result ≤ unsigned_abs total + unsigned_abs by }
{
    total + by as i128
}

// A number less another.
fn less(total: i128, by: i64) -> i128
    requires total { unsigned_abs total ≤ 2 ^ 100 }
    requires by { unsigned_abs by ≤ 2 ^ 37 }
    ensures { result ≡ total -ℤ by }
{
    total - by as i128
}

#[tactic(auto, using(std::proofs::lemmas::Option::get_or_from_slice_get))]
// What a variable brings to the greatest value of a row.
fn part(model: &Model, b: &Box01, r: &Row, x: VarNo) -> i64
    requires row { (whole model.now).has r.now ≡ true }
    requires var { x < length (variables model.now) }
    requires whole { length b.now ≡ length (variables model.now) }
    ensures value { result ≡ greatest (at b.now x) ((whole model.now).coef r.now x) }
    ensures size { unsigned_abs result ≤ 2 ^ 17 }
{
    greatest_of(b.at(x), model.coefficient(r, x))
}

// The greatest value of a row over a box: a sum over all variables.
fn most_of(model: &Model, b: &Box01, r: &Row) -> i128
    requires row { (whole model.now).has r.now ≡ true }
    requires whole { length b.now ≡ length (variables model.now) }
    ensures value { result ≡ most (whole model.now) b.now r.now }
    ensures size { unsigned_abs result ≤ 2 ^ 100 }
{
    let mut total: i128 = 0;
    for v in 0..model.vars() {
        total = more(total, part(model, b, r, VarNo(v)));
    }
    total
}

// The same as a sum over the row's variables.
fn most_among(model: &Model, b: &Box01, r: &Row, vars: &[VarNo]) -> i128
    requires row { (whole model.now).has r.now ≡ true }
    requires whole { length b.now ≡ length (variables model.now) }
    requires each { (x : ℕ) → Contains vars.now x ↔ Touches model.now r.now x }
    requires once { AllPairs (λ x y. x ≢ y) vars.now }
    ensures value { result ≡ most (whole model.now) b.now r.now }
    ensures size { unsigned_abs result ≤ 2 ^ 100 }
{
    let _count = vars.len();
    let mut total: i128 = 0;
    for x in vars {
        total = more(total, part(model, b, r, *x));
    }
    total
}

/// The greatest value of a row over a box, less its right side. It takes no memory.
pub fn slack_of(model: &Model, b: &Box01, r: &Row) -> i128
    requires row { (whole model.now).has r.now ≡ true }
    requires whole { length b.now ≡ length (variables model.now) }
    ensures { result ≡ most (whole model.now) b.now r.now -ℤ (whole model.now).rhs r.now }
{
    less(most_of(model, b, r), model.rhs(r))
}

/// The same, where the row's variables are at hand.
pub fn slack_among(model: &Model, b: &Box01, r: &Row, vars: &[VarNo]) -> i128
    requires row { (whole model.now).has r.now ≡ true }
    requires whole { length b.now ≡ length (variables model.now) }
    requires each { (x : ℕ) → Contains vars.now x ↔ Touches model.now r.now x }
    requires once { AllPairs (λ x y. x ≢ y) vars.now }
    ensures { result ≡ most (whole model.now) b.now r.now -ℤ (whole model.now).rhs r.now }
{
    less(most_among(model, b, r, vars), model.rhs(r))
}
