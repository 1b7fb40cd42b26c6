//! What a judge works with.
ghost use Rattle.std.specs.Prelude.{IfOk};
ghost use Rattle.event_search.specs.JudgeStates.{IsReady};

use crate::tally::Tally;
use std::alloc::Global;
use stow_data::NoMemory;
use zero_one_model::{Box01, Model};

/// The box of a node, and its multipliers with their sums.
#[derive(Drop)]
pub struct JudgeState {
    pub b: Box01,
    pub tally: Tally,
}

impl JudgeState {
    /// Room for a box, for one number for each variable, and for one for each row.
    pub fn new(alloc: Global, model: &Model) -> Result<JudgeState, NoMemory>
        ensures { IfOk result (IsReady model.now) }
    {
        Ok(JudgeState {
            b: Box01::free(alloc, model)?,
            tally: Tally::new(alloc, model)?,
        })
    }
}
