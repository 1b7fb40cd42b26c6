//! Planned voyages, along which dives go.
ghost use Rattle.std.specs.Prelude.{◌≡◌, ◌<◌, IfOk, IfSome, length};
ghost use Rattle.zero_one_rows.specs.Variables.{variables};

use crate::boxes::fix_free;
use crate::words::{write_count, write_number};
use heuristic::{HeuristicLimits, Planner};
use partial_plan::KeptBox;
use std::alloc::Global;
use stow_data::{Bytes, NoMemory, VarNo};
use zero_one_model::{Box01, Model};
use zero_one_rows::RowList;

/// How many voyages are tried for a plan.
const RUNS: u32 = 200;

/// A planned voyage as a box, where one is found.
pub fn planned(alloc: Global, model: &Model) -> Result<Option<Box01>, NoMemory>
    ensures { IfOk result (λ found. IfSome found (λ b. length b ≡ length (variables model.now))) }
{
    let free = Box01::free(alloc, model)?;
    let mut planner = Planner::new(alloc, model)?;
    let limits = HeuristicLimits {
        cut: u64::MAX,
        enough: 0,
        runs: RUNS,
        looks: u64::MAX,
    };
    planner.choose(model, &free, limits)?;
    planner.full_box(alloc, model)
}

/// Appends a line of the variables that a box has at 1.
fn write_stays(model: &Model, b: &Box01, out: &mut Bytes) -> Result<(), NoMemory>
    requires { length b.now ≡ length (variables model.now) }
{
    out.extend(b"stays")?;
    for v in 0..model.vars() {
        if b.at(VarNo(v)) == Some(true) {
            write_number(out, v)?;
        }
    }
    out.extend(b"\n")
}

/// The cheapest voyage by chance after so many runs: what it costs, and the variables of its stays.
pub fn write_voyage(
    alloc: Global,
    model: &Model,
    runs: u64,
    out: &mut Bytes,
) -> Result<(), NoMemory> {
    let free = Box01::free(alloc, model)?;
    let mut planner = Planner::new(alloc, model)?;
    let limits = HeuristicLimits {
        cut: u64::MAX,
        enough: 0,
        runs: u32::try_from(runs).unwrap_or(u32::MAX),
        looks: u64::MAX,
    };
    planner.choose(model, &free, limits)?;
    let Some(voyage) = planner.full_box(alloc, model)? else {
        return out.extend(b"no voyage\n");
    };
    write_count(out, b"cost", planner.cost().unwrap_or(u64::MAX))?;
    write_stays(model, &voyage, out)
}

/// Fixes a variable at 1 where the plan has it there and the box has it free, and tightens the box. Whether there was something to do.
pub fn step_down(kept: &mut KeptBox, plan: &Box01, x: VarNo, steps: &mut RowList) -> bool
    requires inside { x < length plan.now }
    requires whole { length plan.now ≡ length (variables kept.old.voyage) }
    ensures same { kept.new.voyage ≡ kept.old.voyage }
{
    if plan.at(x) != Some(true) {
        return false;
    }
    if !fix_free(kept, x, true) {
        return false;
    }
    let _end = kept.tighten(steps);
    true
}
