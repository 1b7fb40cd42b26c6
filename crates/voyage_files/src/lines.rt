//! What is printed of a refusal.
ghost use Rattle.std.specs.Prelude.{◌≡◌, IfOk};
ghost use Rattle.voyage_files.specs.Lines.{line_of};

use crate::refusals::JudgeNo;
use plan_files::PlanNo;
use std::alloc::Global;
use stow_data::NoMemory;
use stow_report::{Line, bound_line, departure_line, numbers_line, plan_line};

/// The line of a refusal, in the answer of a check.
pub fn line_of(alloc: Global, no: JudgeNo) -> Result<Line, NoMemory>
    ensures { IfOk result (λ line. line ≡ line_of no) }
{
    match no {
        JudgeNo::Text { call, fault } => departure_line(alloc, call, fault),
        JudgeNo::Plan(no) => plan_line(alloc, no),
        JudgeNo::Bound(no) => bound_line(alloc, no),
        JudgeNo::Numbers(no) => numbers_line(alloc, no),
        JudgeNo::NoMemory => plan_line(alloc, PlanNo::NoMemory),
    }
}
