//! The dual value by its definition, without memory.
ghost use Rattle.std.specs.Prelude.{◌≡◌, ◌+◌, ◌*◌, ◌<◌, ◌≤◌, ◌^◌, length, pos, ◌-ℤ◌, ◌*ℤ◌, unsigned_abs};
ghost use Rattle.proof_trees.specs.Boxes.{at};
ghost use Rattle.proof_trees.specs.Multipliers.{least, weighed, weighed_rhs, worth};
ghost use Rattle.zero_one_rows.specs.Variables.{variables};
ghost use Rattle.zero_one_rows.specs.Rows.{whole};
ghost use Rattle.dual_bound.specs.Raising.{AreMultipliers};

use crate::costs::part;
use crate::multipliers::Multipliers;
use crate::sizes::{difference, first_cost, grown, signed, sum_of};
use stow_data::VarNo;
use zero_one_model::{Box01, Model};

/// The most rows of a program.
const MOST_ROWS: u64 = 2_000_000;

// The weighed right sides.
fn weighed_right(model: &Model, m: &Multipliers) -> i128
    requires { AreMultipliers model.now m.now }
    ensures value { result ≡ weighed_rhs (whole model.now) m.now }
    ensures size { unsigned_abs result ≤ 2 ^ 98 }
{
    let rows = model.rows();
    prove!(rows <= MOST_ROWS);
    let mut total: i128 = 0;
    for entry in m.as_slice() {
        total = grown(total, signed(entry.1), model.rhs(&entry.0));
    }
    total
}

// The weighed coefficients of a variable.
fn weight(model: &Model, m: &Multipliers, x: VarNo) -> i128
    requires multipliers { AreMultipliers model.now m.now }
    requires var { x < length (variables model.now) }
    ensures value { result ≡ weighed (whole model.now) m.now x }
    ensures size { unsigned_abs result ≤ 2 ^ 98 }
{
    let rows = model.rows();
    prove!(rows <= MOST_ROWS);
    let mut total: i128 = 0;
    for entry in m.as_slice() {
        total = grown(total, signed(entry.1), model.coefficient(&entry.0, x));
    }
    total
}

// What a variable brings to the dual value.
fn part_of(model: &Model, b: &Box01, m: &Multipliers, x: VarNo) -> i128
    requires multipliers { AreMultipliers model.now m.now }
    requires var { x < length (variables model.now) }
    requires whole { length b.now ≡ length (variables model.now) }
    ensures value { result ≡ least (at b.now x) (pos 16 *ℤ (whole model.now).cost x -ℤ weighed (whole model.now) m.now x) }
    ensures size { unsigned_abs result ≤ 2 ^ 99 }
{
    let reduced = difference(first_cost(model.cost(x)), weight(model, m, x));
    part(b, x, reduced)
}

/// The dual value W of a box: at most 16 times the cost of each solution in it. It is looked up nowhere and takes no memory: a sum over all variables and rows with multipliers.
pub fn value(model: &Model, b: &Box01, m: &Multipliers) -> i128
    requires multipliers { AreMultipliers model.now m.now }
    requires whole { length b.now ≡ length (variables model.now) }
    ensures { result ≡ worth (whole model.now) b.now m.now }
{
    let mut total = weighed_right(model, m);
    for v in 0..model.vars() {
        total = sum_of(total, part_of(model, b, m, VarNo(v)));
    }
    total
}
