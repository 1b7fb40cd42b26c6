//! The dual value of a box at a node.
ghost use Rattle.std.specs.Prelude.{◌≡◌, ◌+◌, ◌<◌, ◌≤◌, ◌^◌, length, pos, ◌+ℤ◌, ◌-ℤ◌, ◌*ℤ◌, unsigned_abs};
ghost use Rattle.proof_trees.specs.Boxes.{at};
ghost use Rattle.proof_trees.specs.Multipliers.{Multipliers, least, worth};
ghost use Rattle.zero_one_rows.specs.declared.program.Row.{Row as Rows};
ghost use Rattle.zero_one_rows.specs.Variables.{variables};
ghost use Rattle.zero_one_rows.specs.Rows.{whole};
ghost use Rattle.event_search.specs.Counting.{Tallies, TalliesSome};

use crate::tally::Tally;
use stow_data::VarNo;
use zero_one_model::{Box01, Model};

/// The most rows of a program.
const MOST_ROWS: u64 = 2_000_000;

// The least over the values that are allowed of a variable with this reduced cost.
fn least_of(allowed: Option<bool>, reduced: i128) -> i128
    ensures value { result ≡ least allowed reduced }
    ensures size { unsigned_abs result ≤ unsigned_abs reduced }
{
    match allowed {
        None => { if reduced < 0 { reduced } else { 0 } }
        Some(true) => reduced,
        Some(false) => 0,
    }
}

// The reduced cost of a variable with this cost.
fn reduced_cost(cost: u32, weighed: i128) -> i128
    requires cost { cost ≤ 1000 }
    requires weighed { unsigned_abs weighed ≤ 2 ^ 98 }
    ensures value { result ≡ pos 16 *ℤ pos cost -ℤ weighed }
    ensures size { unsigned_abs result ≤ 2 ^ 99 }
{
    16 * cost as i128 - weighed
}

// The sum of two numbers.
fn sum_of(left: i128, right: i128) -> i128
    requires left { unsigned_abs left ≤ 2 ^ 120 }
    requires right { unsigned_abs right ≤ 2 ^ 99 }
    ensures value { result ≡ left +ℤ right }
    ensures size { unsigned_abs result ≤ unsigned_abs left + unsigned_abs right }
{
    left + right
}

// What a variable brings to the dual value, by the sum of its coefficients.
fn part_of(model: &Model, b: &Box01, x: VarNo, weighed: i128) -> i128
    requires whole { length b.now ≡ length (variables model.now) }
    requires var { x < length (variables model.now) }
    requires weighed { unsigned_abs weighed ≤ 2 ^ 98 }
    ensures value { result ≡ least (at b.now x) (pos 16 *ℤ (whole model.now).cost x -ℤ weighed) }
    ensures size { unsigned_abs result ≤ 2 ^ 99 }
{
    least_of(b.at(x), reduced_cost(model.cost(x), weighed))
}

/// The dual value of a box, at the multipliers of a tally. It takes no memory, and the time of the program's variables.
pub fn dual_value(model: &Model, b: &Box01, tally: &Tally) -> i128
    requires whole { length b.now ≡ length (variables model.now) }
    requires some { TalliesSome model.now tally.now }
    ensures value { (ns : Multipliers Rows) → Tallies model.now ns tally.now → result ≡ worth (whole model.now) b.now ns }
{
    let rows = model.rows();
    prove!(rows <= MOST_ROWS);
    let mut total = tally.right;
    for v in 0..model.vars() {
        total = sum_of(
            total,
            part_of(model, b, VarNo(v), tally.weights[v as usize]),
        );
    }
    total
}
