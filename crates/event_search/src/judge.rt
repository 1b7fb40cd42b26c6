//! The judge.
ghost use Rattle.std.specs.Prelude.{◌≡◌, IfOk};

use crate::event_nodes::Step;
use crate::judge_state::JudgeState;
use crate::judging::Judge;
use crate::nodes::{branch_at, close_at, offer_at};
use certificate::Record;
use search_core::{Done, NodeKey, Refused};
use std::alloc::Global;
use stow_data::NoMemory;
use zero_one_model::Model;

/// Judges records by a program's rows. At each call a node's box is made anew from the root by the steps of the records on the way, and the multipliers and their sums by the raises. So judging takes no memory, and is linear in the records on the way with their rows: a step or a raise costs the number of variables, a raise besides the look-up of its row's number.
///
/// Contracts see the voyage, and for how many ended nodes there is room.
#[derive(Drop)]
pub struct RecordJudge<'a> {
    model: &'a Model<'a>,
    judge_state: JudgeState,
    way: Vec<Step>,
}

impl<'a> std::marker::Model for RecordJudge<'a> {
    ghost use Rattle.std.specs.Prelude.{vec_capacity};
    ghost use Rattle.event_search.specs.JudgeStates.{IsReady};
    ghost use Rattle.event_search.specs.Judging.{Judging};

    ghost Value = { Judging };

    ghost view = { λ j. record { voyage = j.model.now; room = vec_capacity j.way } };

    ghost invariant = { λ j. IsReady j.model.now j.judge_state };
}

impl<'a> RecordJudge<'a> {
    /// The judge of a program, without room for ended nodes yet. It makes room for a box, a sum for each variable and a multiplier for each row.
    pub fn new(alloc: Global, model: &'a Model<'a>) -> Result<RecordJudge<'a>, NoMemory>
        ensures { IfOk result (λ judge. judge.voyage ≡ model.now) }
    {
        Ok(RecordJudge {
            model,
            judge_state: JudgeState::new(alloc, model)?,
            way: Vec::new(alloc),
        })
    }
}

impl<'a> Judge for RecordJudge<'a> {
    ghost voyage = { λ j. j.voyage };

    ghost room = { λ j. j.room };

    fn reserve(&mut self, entries: usize) -> Result<(), NoMemory> {
        self.way.clear();
        self.way.reserve(entries)?;
        Ok(())
    }

    fn close(
        &mut self,
        ended: &[Done<Record>],
        node: NodeKey,
        seen: u64,
        entry: &Record,
    ) -> Result<(), Refused> {
        close_at(
            self.model,
            &mut self.judge_state,
            &mut self.way,
            ended,
            node,
            seen,
            entry,
        )
    }

    fn branch(
        &mut self,
        ended: &[Done<Record>],
        node: NodeKey,
        entry: &Record,
    ) -> Result<(), Refused> {
        branch_at(
            self.model,
            &mut self.judge_state,
            &mut self.way,
            ended,
            node,
            entry,
        )
    }

    fn offer(
        &mut self,
        ended: &[Done<Record>],
        node: NodeKey,
        entry: &Record,
    ) -> Result<u64, Refused> {
        offer_at(
            self.model,
            &mut self.judge_state,
            &mut self.way,
            ended,
            node,
            entry,
        )
    }
}
