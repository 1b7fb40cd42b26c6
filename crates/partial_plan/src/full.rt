//! What a full box costs, and whether it breaks a base row.
ghost use Rattle.std.specs.Prelude.{◌≡◌, ◌<◌, ◌≤◌, ◌↔◌, IfOk, IsTrue, length, pos, true};
ghost use Rattle.proof_trees.specs.Program.{cost_of as cost_in, where_set};
ghost use Rattle.proof_trees.specs.Boxes.{violated};
ghost use Rattle.zero_one_rows.specs.Variables.{variables};
ghost use Rattle.zero_one_rows.specs.Rows.{whole};
ghost use Rattle.partial_plan.specs.Full.{BreaksNone, ones};

use row_matrix::{base_row, slack_among};
use std::alloc::Global;
use stow_data::{NoMemory, VarNo};
use zero_one_model::{Box01, Model};
use zero_one_rows::{Row, rows_are_listed};

// Whether nothing in a box meets a row: as `violates`, by a list of the row's variables, which are few of all.
fn is_violated(alloc: Global, model: &Model, b: &Box01, r: &Row) -> Result<bool, NoMemory>
    requires row { (whole model.now).has r.now ≡ true }
    requires whole { length b.now ≡ length (variables model.now) }
    ensures { IfOk result (λ answer. answer ≡ violated (whole model.now) b.now r.now) }
{
    let vars = model.vars_of(alloc, r)?;
    Ok(slack_among(model, b, r, vars.as_slice()) < 0)
}

/// Whether no base row is violated in a box. It looks at each row's variables alone.
pub fn breaks_none(alloc: Global, model: &Model, b: &Box01) -> Result<bool, NoMemory>
    requires { length b.now ≡ length (variables model.now) }
    ensures { IfOk result (λ answer. IsTrue answer ↔ BreaksNone model.now b.now) }
{
    rows_are_listed();
    for k in 0..model.base_rows() {
        let row = base_row(model, k);
        if is_violated(alloc, model, b, &row)? {
            return Ok(false);
        }
    }
    Ok(true)
}

// What a variable costs where it is at 1, and else nothing.
fn cost_at(model: &Model, b: &Box01, x: VarNo) -> u32
    requires var { x < length (variables model.now) }
    requires whole { length b.now ≡ length (variables model.now) }
    ensures value { pos result ≡ where_set (ones b.now x) ((whole model.now).cost x) }
    ensures size { result ≤ 1000 }
{
    match b.at(x) {
        Some(true) => model.cost(x),
        Some(false) | None => 0,
    }
}

/// The cost of what a box has at 1: of a full box the cost of its assignment. It takes no memory.
pub fn cost_of(model: &Model, b: &Box01) -> u64
    requires { length b.now ≡ length (variables model.now) }
    ensures { pos result ≡ cost_in (whole model.now) (ones b.now) }
{
    let mut total: u32 = 0;
    for v in 0..model.vars() {
        total += cost_at(model, b, VarNo(v));
    }
    u64::from(total)
}
