//! The box of a node.
ghost use Rattle.std.specs.Prelude.{◌≡◌, ◌<◌, All, length, true};
ghost use Rattle.proof_trees.specs.Boxes.{free_box, tight, tightened};
ghost use Rattle.zero_one_rows.specs.Variables.{variables};
ghost use Rattle.zero_one_rows.specs.Rows.{whole};
ghost use Rattle.certificate.specs.Entries.{entry_of, end_of, number_of};
ghost use Rattle.search_core.specs.Journals.{divided};
ghost use Rattle.search_core.specs.Machine.{Divides};
ghost use Rattle.event_search.specs.JudgingEvents.{box_there};
ghost use Rattle.event_search.specs.Nodes.{along};
ghost use Rattle.event_search.specs.Standing.{standing, IsWay};

use crate::event_nodes::Step;
use certificate::{End, KeptRow, Record};
use partial_plan::force;
use search_core::Done;
use stow_data::VarNo;
use zero_one_model::{Box01, Model};

// Frees each variable.
fn free_all(model: &Model, b: &mut Box01)
    requires { length b.old ≡ length (variables model.now) }
    ensures { b.new ≡ free_box (whole model.now) }
{
    for v in 0..model.vars() {
        b.release(VarNo(v));
    }
}

// Tightens a box by a row that is kept.
fn force_kept(model: &Model, b: &mut Box01, kept: &KeptRow)
    requires row { (whole model.now).has kept.now ≡ true }
    requires whole { length b.old ≡ length (variables model.now) }
    ensures { b.new ≡ tight (whole model.now) b.old kept.now }
{
    let row = kept.row();
    force(model, b, &row);
}

// Tightens a box by rows, in order.
fn tighten_all(model: &Model, b: &mut Box01, rows: &[KeptRow])
    requires whole { length b.old ≡ length (variables model.now) }
    requires rows { All (λ r. (whole model.now).has r ≡ true) rows.now }
    ensures { b.new ≡ tightened (whole model.now) b.old rows.now }
{
    for row in rows {
        force_kept(model, b, row);
    }
}

// Goes from a divided box to one of its halves.
fn halve(model: &Model, b: &mut Box01, end: &End, value: bool)
    requires whole { length b.old ≡ length (variables model.now) }
    requires divides { Divides (whole model.now) b.old (end_of (number_of model.now) end.now) }
    ensures { b.new ≡ divided b.old (end_of (number_of model.now) end.now) value }
{
    match end {
        End::Branch(var) => match model.number(var) {
            Some(x) => b.fix(x, value),
            None => unreachable!(),
        },
        End::Leaf | End::Left => unreachable!(),
    }
}

// Goes on by a record to one of its halves.
fn follow(model: &Model, b: &mut Box01, entry: &Record, value: bool)
    requires whole { length b.old ≡ length (variables model.now) }
    requires rows { All (λ r. (whole model.now).has r ≡ true) entry.now.steps }
    requires divides { Divides (whole model.now) (tightened (whole model.now) b.old entry.now.steps) (end_of (number_of model.now) entry.now.end) }
    ensures { b.new ≡ divided (tightened (whole model.now) b.old entry.now.steps) (end_of (number_of model.now) entry.now.end) value }
{
    tighten_all(model, b, entry.steps.as_slice());
    halve(model, b, &entry.end, value);
}

// Goes to where the node at the end of a way begins.
fn stand_at(model: &Model, b: &mut Box01, ended: &[Done<Record>], way: &[Step])
    requires whole { length b.old ≡ length (variables model.now) }
    requires way { IsWay model.now ended.now way.now }
    ensures { b.new ≡ (standing model.now ended.now way.now).box }
{
    free_all(model, b);
    for step in way {
        follow(model, b, &ended[step.entry].entry, step.value);
    }
}

/// Goes to the box of the node at the end of a way after a record's steps, whatever the box was before. It takes no memory.
pub fn stand_after(
    model: &Model,
    b: &mut Box01,
    ended: &[Done<Record>],
    way: &[Step],
    entry: &Record,
)
    requires whole { length b.old ≡ length (variables model.now) }
    requires way { IsWay model.now ended.now way.now }
    requires rows { All (λ r. (whole model.now).has r ≡ true) entry.now.steps }
    ensures whole { length b.new ≡ length (variables model.now) }
    ensures there { b.new ≡ box_there model.now (along model.now ended.now way.now) (entry_of model.now entry.now) }
{
    stand_at(model, b, ended, way);
    tighten_all(model, b, entry.steps.as_slice());
}
