//! A box that is kept from node to node, with the records on the way to the last node.
ghost use Rattle.std.specs.Prelude.{◌≡◌, ℕ, ◌+◌, ◌<◌, ◌≤◌, true, All, IfOk, OnOk, List, [], ◌∷◌, ◌++◌, map, take, length};
ghost use Rattle.proof_trees.specs.Boxes.{free_box, tightened};
ghost use Rattle.proof_trees.specs.Trees.{root};
ghost use Rattle.zero_one_rows.specs.Rows.{whole};
ghost use Rattle.certificate.specs.Entries.{same_row, entry_of, end_of, number_of};
ghost use Rattle.search_core.specs.Journals.{after};
ghost use Rattle.search_core.specs.Machine.{Divides, IsTrail};
ghost use Rattle.partial_plan.specs.Fixing.{released};
ghost use Rattle.stow_data.specs.Shipment.{IsCargo, most_cost};
ghost use Rattle.node_solver.specs.Work.{Works};
ghost use Rattle.node_work.specs.declared.positions.Frame.{Frame as Frames};
ghost use Rattle.node_work.specs.DualStates.{IsDualState};
ghost use Rattle.node_work.specs.Positions.{entry_in, value_in, box_along, IsPosition};

use crate::dual_state::DualState;
use crate::ending::end_box;
use crate::retracing::{halve, retighten};
use certificate::{Record, SharedRecord, Trail};
use dual_bound::RowTable;
use heuristic::{HeuristicLimits, Planner};
use node_solver::Worked;
use partial_plan::{BaseMatrix, KeptBox};
use std::alloc::Global;
use stow_data::NoMemory;
use zero_one_model::Model;

/// A record on the way to a node, the value of the branch that was taken from it, and how many variables were fixed after its steps.
#[derive(Drop)]
pub struct Frame {
    pub entry: SharedRecord,
    pub value: bool,
    pub mark: usize,
}

/// The box of a node or what was fixed beyond it, and the records on the way.
#[derive(Drop)]
pub struct TreePosition<'a> {
    pub kept: KeptBox<'a>,
    pub frames: Vec<Frame>,
}

/// How many of the first frames are of the node's first records: their records are the same, and the values too, but for the last.
fn in_common(frames: &[Frame], path: &[bool], trail: &Trail) -> usize
    requires { length trail.now ≡ length path.now }
    ensures frames { result ≤ length frames.now }
    ensures records { result ≤ length trail.now }
    ensures entries { map entry_in (take result frames.now) ≡ take result trail.now }
    ensures values { (k : ℕ) → result ≡ k + 1 → map value_in (take k frames.now) ≡ take k path.now }
{
    for (depth, frame) in frames.iter().enumerate() {
        if depth >= trail.len() {
            return depth;
        }
        if !frame.entry.record().is_same(trail.get(depth).record()) {
            return depth;
        }
        if frame.value != path[depth] {
            return depth + 1;
        }
    }
    frames.len()
}

impl<'a> TreePosition<'a> {
    /// At the root: all variables are free.
    pub fn root(alloc: Global, matrix: &'a BaseMatrix<'a>) -> Result<TreePosition<'a>, NoMemory>
        ensures { IfOk result (IsPosition matrix.now) }
    {
        Ok(TreePosition {
            kept: KeptBox::free(alloc, matrix)?,
            frames: Vec::new(alloc),
        })
    }

    // Frees what was fixed past a place of the list.
    fn back_to(&mut self, model: &Model, to: usize)
        requires position { IsPosition model.now self.old }
        requires to { to ≤ length self.old.kept.undo }
        requires low { All (λ f. f.mark ≤ to) self.old.frames.items }
        ensures position { IsPosition model.now self.new }
        ensures freed { self.new.kept.known ≡ released self.old.kept.known self.old.kept.undo to }
        ensures fewer { self.new.kept.undo ≡ take to self.old.kept.undo }
        ensures frames { self.new.frames ≡ self.old.frames }
    {
        self.kept.undo_to(to);
    }

    // Goes to the half with this value of the deepest record, which is this one; the node's takes the place of the own one, so that both are one in memory.
    fn turn(&mut self, model: &Model, entry: &SharedRecord, value: bool) -> Result<(), NoMemory>
        requires position { IsPosition model.now self.old }
        requires some { 0 < length self.old.frames.items }
        requires same { (fs : List Frames) (f : Frames) → self.old.frames.items ≡ fs ++ f ∷ [] → f.entry ≡ entry.now }
        ensures position { IsPosition model.now self.new }
        ensures frames { OnOk result ((fs : List Frames) × (f : Frames) × (self.old.frames.items ≡ fs ++ f ∷ []) × (self.new.frames.items ≡ fs ++ record f { value = value } ∷ [])) }
        ensures at_half { OnOk result (self.new.kept.known ≡ box_along model.now (free_box (whole model.now)) self.new.frames.items) }
    {
        let Some(frame) = self.frames.pop() else {
            unreachable!()
        };
        self.back_to(model, frame.mark);
        let entry = entry.share()?;
        halve(model, &mut self.kept, &entry.record().end, value);
        self.frames.push(Frame {
            entry,
            value,
            mark: frame.mark,
        })?;
        Ok(())
    }

    // Goes on by a record to its half with this value.
    fn redo(
        &mut self,
        alloc: Global,
        model: &Model,
        entry: &SharedRecord,
        value: bool,
    ) -> Result<(), NoMemory>
        requires position { IsPosition model.now self.old }
        requires at { self.old.kept.known ≡ box_along model.now (free_box (whole model.now)) self.old.frames.items }
        requires rows { All (λ r. (whole model.now).has r ≡ true) entry.now.steps }
        requires divides { Divides (whole model.now) (tightened (whole model.now) self.old.kept.known entry.now.steps) (end_of (number_of model.now) entry.now.end) }
        ensures position { IsPosition model.now self.new }
        ensures frames { OnOk result ((f : Frames) × (f.entry ≡ entry.now) × (f.value ≡ value) × (self.new.frames.items ≡ self.old.frames.items ++ f ∷ [])) }
        ensures at_half { OnOk result (self.new.kept.known ≡ box_along model.now (free_box (whole model.now)) self.new.frames.items) }
    {
        let entry = entry.share()?;
        let record = entry.record();
        let steps = record.steps.to_list(alloc)?;
        retighten(alloc, model, &mut self.kept, steps.as_slice())?;
        let mark = self.kept.fixed().len();
        halve(model, &mut self.kept, &record.end, value);
        self.frames.push(Frame { entry, value, mark })?;
        Ok(())
    }

    // Keeps the first so many frames, and goes to the half with the path's value of the last of them.
    fn rejoin(
        &mut self,
        model: &Model,
        depth: usize,
        path: &[bool],
        trail: &Trail,
    ) -> Result<(), NoMemory>
        requires position { IsPosition model.now self.old }
        requires frames { depth ≤ length self.old.frames.items }
        requires branches { depth ≤ length path.now }
        requires records { depth ≤ length trail.now }
        requires entries { map entry_in (take depth self.old.frames.items) ≡ take depth trail.now }
        requires values { (k : ℕ) → depth ≡ k + 1 → map value_in (take k self.old.frames.items) ≡ take k path.now }
        ensures position { IsPosition model.now self.new }
        ensures entries { OnOk result (map entry_in self.new.frames.items ≡ map entry_in (take depth self.old.frames.items)) }
        ensures values { OnOk result (map value_in self.new.frames.items ≡ take depth path.now) }
        ensures at_half { OnOk result (self.new.kept.known ≡ box_along model.now (free_box (whole model.now)) self.new.frames.items) }
    {
        self.frames.truncate(depth);
        if depth == 0 {
            self.back_to(model, 0);
            return Ok(());
        }
        self.turn(model, trail.get(depth - 1), path[depth - 1])
    }

    // Goes on from so many records of a node to where it begins.
    fn go_on(
        &mut self,
        alloc: Global,
        model: &Model,
        depth: usize,
        path: &[bool],
        trail: &Trail,
    ) -> Result<(), NoMemory>
        requires position { IsPosition model.now self.old }
        requires trail { IsTrail same_row (whole model.now) (root (whole model.now)) path.now (map (entry_of model.now) trail.now) }
        requires records { depth ≤ length trail.now }
        requires entries { map entry_in self.old.frames.items ≡ take depth trail.now }
        requires values { map value_in self.old.frames.items ≡ take depth path.now }
        requires at_half { self.old.kept.known ≡ box_along model.now (free_box (whole model.now)) self.old.frames.items }
        ensures position { IsPosition model.now self.new }
        ensures begins { OnOk result (self.new.kept.known ≡ (after same_row (whole model.now) (root (whole model.now)) path.now (map (entry_of model.now) trail.now)).box) }
        ensures at { OnOk result (self.new.kept.known ≡ box_along model.now (free_box (whole model.now)) self.new.frames.items) }
    {
        for k in depth..trail.len() {
            self.redo(alloc, model, trail.get(k), path[k])?;
        }
        Ok(())
    }

    /// Goes to where a node begins: back to the last record that it has in common with the last node, and on by the others.
    pub fn walk_to(
        &mut self,
        alloc: Global,
        model: &Model,
        path: &[bool],
        trail: &Trail,
    ) -> Result<(), NoMemory>
        requires position { IsPosition model.now self.old }
        requires trail { IsTrail same_row (whole model.now) (root (whole model.now)) path.now (map (entry_of model.now) trail.now) }
        ensures position { IsPosition model.now self.new }
        ensures begins { OnOk result (self.new.kept.known ≡ (after same_row (whole model.now) (root (whole model.now)) path.now (map (entry_of model.now) trail.now)).box) }
        ensures at { OnOk result (self.new.kept.known ≡ box_along model.now (free_box (whole model.now)) self.new.frames.items) }
    {
        let depth = in_common(self.frames.as_slice(), path, trail);
        self.rejoin(model, depth, path, trail)?;
        self.go_on(alloc, model, depth, path, trail)
    }

    // Keeps the record that divided the box, so that the node's halves begin here.
    fn note(&mut self, alloc: Global, model: &Model, entry: &Record) -> Result<(), NoMemory>
        requires position { IsPosition model.now self.old }
        requires at { self.old.kept.known ≡ tightened (whole model.now) (box_along model.now (free_box (whole model.now)) self.old.frames.items) entry.now.steps }
        requires divides { Divides (whole model.now) self.old.kept.known (end_of (number_of model.now) entry.now.end) }
        ensures { IsPosition model.now self.new }
    {
        let copy = entry.copy(alloc)?;
        let entry = SharedRecord::new(alloc, copy)?;
        let mark = self.kept.fixed().len();
        let value = true;
        self.frames.push(Frame { entry, value, mark })?;
        Ok(())
    }

    /// Ends the node at which the box stands.
    pub fn end(
        &mut self,
        alloc: Global,
        model: &Model,
        table: &RowTable,
        planner: &mut Planner,
        dual_state: &mut DualState,
        most: u32,
        limits: HeuristicLimits,
    ) -> Result<Worked, NoMemory>
        requires table { table.now ≡ model.now }
        requires cargo { IsCargo model.now.cargo }
        requires position { IsPosition model.now self.old }
        requires at { self.old.kept.known ≡ box_along model.now (free_box (whole model.now)) self.old.frames.items }
        requires dual_state { IsDualState model.now dual_state.old }
        requires some { 1 ≤ most }
        requires cut { limits.cut ≤ most_cost model.now.cargo + 1 }
        ensures position { IsPosition model.now self.new }
        ensures dual_state { IsDualState model.now dual_state.new }
        ensures worked { IfOk result (Works model.now (record { box = self.old.kept.known; multipliers = dual_state.old.gauge.multipliers }) most limits.cut) }
    {
        let worked = end_box(
            alloc,
            model,
            table,
            planner,
            &mut self.kept,
            dual_state,
            most,
            limits,
        )?;
        if let Worked::Branched(entry) = &worked {
            self.note(alloc, model, entry)?;
        }
        Ok(worked)
    }
}
