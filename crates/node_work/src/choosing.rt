//! Which variable divides a box.
ghost use Rattle.std.specs.Prelude.{◌≡◌, ◌<◌, All, IfOk, IsSome, MatchOption, None, Some, length, slice_get};
ghost use Rattle.zero_one_rows.specs.Variables.{variables};

use heuristic::{HeuristicLimits, Planner};
use stow_data::{NoMemory, VarNo};
use zero_one_model::{Box01, Model};

/// The first free variable. None exactly where every variable is fixed.
pub fn first_free(model: &Model, b: &Box01) -> Option<VarNo>
    requires { length b.now ≡ length (variables model.now) }
    ensures { MatchOption result (All IsSome b.now) (λ x. (x < length (variables model.now)) × (slice_get b.now x ≡ Some None)) }
{
    let first = (0..model.vars()).find(|v| b.at(VarNo(*v)).is_none())?;
    Some(VarNo(first))
}

/// A free variable: one of the cheapest voyage that the planner finds, or else the first.
pub fn planned_or(
    planner: &mut Planner,
    model: &Model,
    b: &Box01,
    first: VarNo,
    limits: HeuristicLimits,
) -> Result<VarNo, NoMemory>
    requires vars { length b.now ≡ length (variables model.now) }
    requires inside { first < length (variables model.now) }
    requires free { slice_get b.now first ≡ Some None }
    ensures inside { IfOk result (λ x. x < length (variables model.now)) }
    ensures free { IfOk result (λ x. slice_get b.now x ≡ Some None) }
{
    match planner.choose(model, b, limits)? {
        Some(planned) => Ok(planned),
        None => Ok(first),
    }
}
