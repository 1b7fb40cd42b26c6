//! Multipliers that are kept from node to node, with the dual value of a box.
ghost use Rattle.std.specs.Prelude.{◌≡◌, ◌+◌, ◌≤◌, ◌<◌, true, All, IfOk, IfSome, OnOk, Some, [], drop, length, map, slice_set, take};
ghost use Rattle.proof_trees.specs.Multipliers.{Multipliers as Prices, raised, raised_all};
ghost use Rattle.proof_trees.specs.Trees.{begun};
ghost use Rattle.zero_one_rows.specs.declared.program.Row.{Row as Rows};
ghost use Rattle.zero_one_rows.specs.Variables.{variables};
ghost use Rattle.zero_one_rows.specs.Rows.{whole};
ghost use Rattle.certificate.specs.Entries.{same_row, raise_of};
ghost use Rattle.dual_bound.specs.Raising.{Raises};
ghost use Rattle.dual_bound.specs.Rising.{Ends};
ghost use Rattle.node_work.specs.Starts.{priced, prices_along, InRange};
ghost use Rattle.node_work.specs.DualStates.{AreNamed, IsDualState};

use crate::stages::{Stage, lengthened, lower_to, stages_in_common};
use certificate::{Record, Trail};
use dual_bound::{AddNo, Gauge, Raised, RowTable};
use partial_plan::BaseMatrix;
use std::alloc::Global;
use stow_data::{NoMemory, VarNo};
use zero_one_model::{Box01, Model};
use zero_one_rows::{Raise, RaiseList};

/// A gauge with the raises that led to its multipliers from none, stage by stage, where they are known.
#[derive(Drop)]
pub struct DualState<'a> {
    pub gauge: Gauge<'a>,
    pub stages: Option<Vec<Stage>>,
}

// One change of a row's multiplier.
fn reraise_one(
    alloc: Global,
    table: &RowTable,
    gauge: &mut Gauge,
    raise: &Raise,
) -> Result<(), NoMemory>
    requires program { table.now ≡ gauge.old.voyage }
    requires row { (whole gauge.old.voyage).has raise.now.row ≡ true }
    requires range { (ms : Prices Rows) × (raised same_row gauge.old.multipliers raise.now.row raise.now.amount ≡ Some ms) }
    ensures voyage { gauge.new.voyage ≡ gauge.old.voyage }
    ensures known { gauge.new.box ≡ gauge.old.box }
    ensures raised { OnOk result (raised same_row gauge.old.multipliers raise.now.row raise.now.amount ≡ Some gauge.new.multipliers) }
{
    match gauge.add(alloc, table, &raise.row, raise.amount) {
        Ok(()) => Ok(()),
        Err(AddNo::OutOfRange) => unreachable!(),
        Err(AddNo::NoMemory) => Err(NoMemory),
    }
}

// Changes multipliers, in order; none leaves its range.
fn reraise(
    alloc: Global,
    table: &RowTable,
    gauge: &mut Gauge,
    raises: &[Raise],
) -> Result<(), NoMemory>
    requires program { table.now ≡ gauge.old.voyage }
    requires rows { All (λ r. (whole gauge.old.voyage).has r.row ≡ true) raises.now }
    requires range { (ms : Prices Rows) × (raised_all same_row (Some gauge.old.multipliers) (map raise_of raises.now) ≡ Some ms) }
    ensures voyage { gauge.new.voyage ≡ gauge.old.voyage }
    ensures known { gauge.new.box ≡ gauge.old.box }
    ensures raised { OnOk result (raised_all same_row (Some gauge.old.multipliers) (map raise_of raises.now) ≡ Some gauge.new.multipliers) }
{
    for raise in raises {
        reraise_one(alloc, table, gauge, raise)?;
    }
    Ok(())
}

// Sets one variable of a gauge's box.
fn set_var(gauge: &mut Gauge, x: VarNo, value: Option<bool>)
    requires { x < length gauge.old.box }
    ensures { gauge.new ≡ record gauge.old { box = slice_set gauge.old.box x value } }
{
    match (gauge.current().at(x), value) {
        (None, None) => (),
        (None, Some(new)) => gauge.fix(x, new),
        (Some(_), None) => gauge.release(x),
        (Some(old), Some(new)) => {
            if old != new {
                gauge.release(x);
                gauge.fix(x, new);
            }
        }
    }
}

// Sets all variables of a gauge's box.
fn set_vars(gauge: &mut Gauge, model: &Model, b: &Box01)
    requires old { length gauge.old.box ≡ length (variables model.now) }
    requires new { length b.now ≡ length (variables model.now) }
    ensures { gauge.new ≡ record gauge.old { box = b.now } }
{
    for v in 0..model.vars() {
        set_var(gauge, VarNo(v), b.at(VarNo(v)));
    }
}

impl<'a> DualState<'a> {
    /// The free box without multipliers.
    pub fn start(alloc: Global, matrix: &'a BaseMatrix<'a>) -> Result<DualState<'a>, NoMemory>
        ensures { IfOk result (IsDualState matrix.now) }
    {
        let b = Box01::free(alloc, matrix.model())?;
        Ok(DualState {
            gauge: Gauge::start_over(alloc, matrix, b)?,
            stages: Some(Vec::new(alloc)),
        })
    }

    /// Goes on to another box.
    pub fn set_box(&mut self, model: &Model, b: &Box01)
        requires dual_state { IsDualState model.now self.old }
        requires whole { length b.now ≡ length (variables model.now) }
        ensures dual_state { IsDualState model.now self.new }
        ensures known { self.new.gauge.box ≡ b.now }
        ensures prices { self.new.gauge.multipliers ≡ self.old.gauge.multipliers }
    {
        set_vars(&mut self.gauge, model, b);
    }

    // Leaves no row a multiplier.
    fn clear(&mut self, alloc: Global, model: &Model)
        requires dual_state { IsDualState model.now self.old }
        ensures dual_state { IsDualState model.now self.new }
        ensures prices { self.new.gauge.multipliers ≡ [] }
    {
        self.gauge.clear(alloc);
        self.stages = Some(Vec::new(alloc));
    }

    // With what a record's raises begin: the multipliers, or none.
    fn begin(&mut self, alloc: Global, model: &Model, from_zero: bool)
        requires dual_state { IsDualState model.now self.old }
        ensures dual_state { IsDualState model.now self.new }
        ensures prices { self.new.gauge.multipliers ≡ begun from_zero self.old.gauge.multipliers }
    {
        if from_zero {
            self.clear(alloc, model);
        }
    }

    // Goes on by the raises of a record.
    fn go_on(
        &mut self,
        alloc: Global,
        model: &Model,
        table: &RowTable,
        entry: &Record,
    ) -> Result<(), NoMemory>
        requires table { table.now ≡ model.now }
        requires dual_state { IsDualState model.now self.old }
        requires rows { All (λ r. (whole model.now).has r.row ≡ true) entry.now.raises }
        requires range { (ms : Prices Rows) × (priced self.old.gauge.multipliers entry.now ≡ Some ms) }
        ensures dual_state { IsDualState model.now self.new }
        ensures priced { OnOk result (priced self.old.gauge.multipliers entry.now ≡ Some self.new.gauge.multipliers) }
    {
        self.begin(alloc, model, entry.from_zero);
        let list = entry.raises.to_list(alloc)?;
        let raises = list.as_slice();
        let before = self.gauge.multipliers().len();
        let stages = self.stages.take();
        reraise(alloc, table, &mut self.gauge, raises)?;
        self.stages = lengthened(alloc, stages, raises, before);
        Ok(())
    }

    // Goes on by the raises of the records from a depth on.
    fn follow(
        &mut self,
        alloc: Global,
        model: &Model,
        table: &RowTable,
        trail: &Trail,
        depth: usize,
    ) -> Result<(), NoMemory>
        requires table { table.now ≡ model.now }
        requires dual_state { IsDualState model.now self.old }
        requires rows { AreNamed model.now (drop depth trail.now) }
        requires range { InRange self.old.gauge.multipliers (drop depth trail.now) }
        ensures dual_state { IsDualState model.now self.new }
        ensures prices { OnOk result (self.new.gauge.multipliers ≡ prices_along self.old.gauge.multipliers (drop depth trail.now)) }
    {
        for k in depth..trail.len() {
            self.go_on(alloc, model, table, trail.get(k).record())?;
        }
        Ok(())
    }

    // Takes back the stages that aren't those of the first records. None where memory is wanting, or the stages aren't known.
    fn take_back(
        &mut self,
        alloc: Global,
        model: &Model,
        table: &RowTable,
        trail: &Trail,
    ) -> Option<usize>
        requires table { table.now ≡ model.now }
        requires dual_state { IsDualState model.now self.old }
        ensures dual_state { IsDualState model.now self.new }
        ensures records { IfSome result (λ depth. depth ≤ length trail.now) }
        ensures prices { IfSome result (λ depth. self.new.gauge.multipliers ≡ prices_along [] (take depth trail.now)) }
    {
        let stages = self.stages.take()?;
        let depth = stages_in_common(stages.as_slice(), trail);
        let left = lower_to(alloc, model, table, &mut self.gauge, stages, depth)?;
        self.stages = Some(left);
        Some(depth)
    }

    // Goes back to the last multipliers that are those after the first records. How many they are.
    fn go_back(&mut self, alloc: Global, model: &Model, table: &RowTable, trail: &Trail) -> usize
        requires table { table.now ≡ model.now }
        requires dual_state { IsDualState model.now self.old }
        ensures dual_state { IsDualState model.now self.new }
        ensures records { result ≤ length trail.now }
        ensures prices { self.new.gauge.multipliers ≡ prices_along [] (take result trail.now) }
    {
        match self.take_back(alloc, model, table, trail) {
            Some(depth) => depth,
            None => {
                self.clear(alloc, model);
                0
            }
        }
    }

    /// Goes to the multipliers after the records above a node: back to the last record in common with the last node, and on by the others.
    pub fn price_along(
        &mut self,
        alloc: Global,
        model: &Model,
        table: &RowTable,
        trail: &Trail,
    ) -> Result<(), NoMemory>
        requires table { table.now ≡ model.now }
        requires dual_state { IsDualState model.now self.old }
        requires rows { AreNamed model.now trail.now }
        requires range { InRange [] trail.now }
        ensures dual_state { IsDualState model.now self.new }
        ensures prices { OnOk result (self.new.gauge.multipliers ≡ prices_along [] trail.now) }
    {
        let depth = self.go_back(alloc, model, table, trail);
        self.follow(alloc, model, table, trail, depth)
    }

    /// Raises multipliers, as a gauge does.
    pub fn raise(
        &mut self,
        alloc: Global,
        model: &Model,
        table: &RowTable,
        cut: u64,
        most: u32,
        raises: &mut RaiseList,
    ) -> Raised
        requires table { table.now ≡ model.now }
        requires dual_state { IsDualState model.now self.old }
        requires none { raises.old ≡ [] }
        ensures dual_state { IsDualState model.now self.new }
        ensures raised { Raises model.now self.old.gauge.box most self.old.gauge.multipliers self.new.gauge.multipliers raises.old raises.new }
        ensures ends { Ends model.now self.old.gauge.box self.new.gauge.multipliers cut result }
        ensures spent { result ≡ Raised.Spent → length raises.new ≡ length raises.old + most }
    {
        let before = self.gauge.multipliers().len();
        let stages = self.stages.take();
        let end = self.gauge.raise(alloc, table, cut, most, raises);
        self.stages = lengthened(alloc, stages, raises.as_slice(), before);
        end
    }
}
