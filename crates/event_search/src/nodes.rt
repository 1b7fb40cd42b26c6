//! Records judged at nodes, which are told by their keys and the ended nodes.
ghost use Rattle.std.specs.Prelude.{vec_capacity};
ghost use Rattle.certificate.specs.Entries.{entry_of};
ghost use Rattle.event_search.specs.Cores.{node_at};
ghost use Rattle.event_search.specs.JudgingEvents.{JudgesClose, JudgesBranch, JudgesOffer};
ghost use Rattle.event_search.specs.JudgeStates.{IsTold, Stays};

use crate::event_nodes::{Step, lead_to};
use crate::judge_state::JudgeState;
use crate::verdicts::{branch, close, offer};
use certificate::Record;
use search_core::{Done, NodeKey, Refused};
use zero_one_model::Model;

/// Whether a record is a leaf that closes its node at a value.
pub fn close_at(
    model: &Model,
    judge_state: &mut JudgeState,
    way: &mut Vec<Step>,
    ended: &[Done<Record>],
    node: NodeKey,
    seen: u64,
    entry: &Record,
) -> Result<(), Refused>
    requires { IsTold model.now judge_state.old (vec_capacity way.old) ended.now node }
    ensures stays { Stays model.now (vec_capacity way.old) (vec_capacity way.new) judge_state.new }
    ensures judged { JudgesClose model.now (node_at model.now ended.now node) (entry_of model.now entry.now) seen result }
{
    lead_to(way, ended, node);
    close(model, judge_state, ended, way.as_slice(), seen, entry)
}

/// Whether a record divides its node's box by a free variable.
pub fn branch_at(
    model: &Model,
    judge_state: &mut JudgeState,
    way: &mut Vec<Step>,
    ended: &[Done<Record>],
    node: NodeKey,
    entry: &Record,
) -> Result<(), Refused>
    requires { IsTold model.now judge_state.old (vec_capacity way.old) ended.now node }
    ensures stays { Stays model.now (vec_capacity way.old) (vec_capacity way.new) judge_state.new }
    ensures judged { JudgesBranch model.now (node_at model.now ended.now node) (entry_of model.now entry.now) result }
{
    lead_to(way, ended, node);
    branch(model, judge_state, ended, way.as_slice(), entry)
}

/// The price of a node's box after a leaf's steps, where it is full and violates no base row.
pub fn offer_at(
    model: &Model,
    judge_state: &mut JudgeState,
    way: &mut Vec<Step>,
    ended: &[Done<Record>],
    node: NodeKey,
    entry: &Record,
) -> Result<u64, Refused>
    requires { IsTold model.now judge_state.old (vec_capacity way.old) ended.now node }
    ensures stays { Stays model.now (vec_capacity way.old) (vec_capacity way.new) judge_state.new }
    ensures judged { JudgesOffer model.now (node_at model.now ended.now node) (entry_of model.now entry.now) result }
{
    lead_to(way, ended, node);
    offer(model, judge_state, ended, way.as_slice(), entry)
}
