//! The answer to a refused input.
ghost use Rattle.std.specs.Prelude.{◌≡◌, IfOk};
ghost use Rattle.voyage_files.specs.Inputs.{refused};

use crate::answer::Answer;
use std::alloc::Global;
use stow_data::NoMemory;
use stow_report::{Group, Line, refusal};

/// The answer to an input that is refused with this line.
pub fn refused(alloc: Global, line: Line) -> Result<Answer, NoMemory>
    ensures { IfOk result (λ a. a ≡ refused line) }
{
    let group = line.group;
    let text = refusal(alloc, &line);
    drop(line);
    let text = text?;
    match group {
        Group::Large => Ok(Answer::Large(text)),
        _ => Ok(Answer::Input(text)),
    }
}
