//! Multipliers that are changed, and taken back.
ghost use Rattle.std.specs.Prelude.{◌≡◌, ℕ, ◌<◌, ◌≤◌, ◌^◌, true, false, All, OnOk, IfOk, Ok, List, [], length, map, take};
ghost use Rattle.proof_trees.specs.Multipliers.{Multipliers, with_amount};
ghost use Rattle.zero_one_rows.specs.declared.program.Row.{Row as Rows};
ghost use Rattle.zero_one_rows.specs.Variables.{variables};
ghost use Rattle.zero_one_rows.specs.Rows.{whole};
ghost use Rattle.bound_checker.specs.declared.prices.Change.{Change as Changes};
ghost use Rattle.certificate.specs.Entries.{raise_of, same_row};
ghost use Rattle.bound_checker.specs.Faults.{raised_row, raised_rows};
ghost use Rattle.dual_bound.specs.Costs.{AreSmall};
ghost use Rattle.bound_checker.specs.Sums.{Carries, CarriesSome};
ghost use Rattle.bound_checker.specs.Waits.{IsSound, Before};
ghost use Rattle.bound_checker.specs.Prices.{Holds, HoldsSome, Ends};

use crate::cleaning::turned;
use crate::sums::{Sums, changed};
use certificate::{BoundNo, KeptRaise, KeptRow};
use std::alloc::Global;
use stow_data::NoMemory;
use zero_one_model::{Box01, Model};
use zero_one_rows::{Raise, Row};

/// A row whose multiplier was changed, and its multiplier before.
#[derive(Drop)]
pub struct Change {
    pub row: KeptRow,
    pub old: u64,
}

/// Multipliers with what their rows add up to, and what was changed, in order.
#[derive(Drop)]
pub struct Prices<'a> {
    pub sums: Sums<'a>,
    pub changes: Vec<Change>,
}

impl<'a> Prices<'a> {
    /// No multipliers, and no changes.
    pub fn none(alloc: Global, model: &'a Model<'a>, b: &Box01) -> Result<Prices<'a>, NoMemory>
        requires { length b.now ≡ length (variables model.now) }
        ensures carries { IfOk result (λ p. Carries model.now b.now [] p.sums) }
        ensures changes { IfOk result (λ p. p.changes.items ≡ []) }
    {
        Ok(Prices {
            sums: Sums::none(alloc, model, b)?,
            changes: Vec::new(alloc),
        })
    }

    // Gives a row this multiplier, and notes the one that it had.
    fn change(
        &mut self,
        alloc: Global,
        model: &Model,
        b: &Box01,
        row: &Row,
        amount: u64,
    ) -> Result<(), NoMemory>
        requires row { (whole model.now).has row.now ≡ true }
        requires amount { amount ≤ 2 ^ 40 }
        requires carries { CarriesSome model.now b.now self.old.sums }
        ensures { (first ms : Multipliers Rows) (k : List Changes) → Holds model.now b.now first k ms self.old → OnOk result (Holds model.now b.now first k (with_amount same_row ms row.now amount) self.new) }
    {
        let old = self.sums.amounts.at(row);
        self.sums.give(alloc, model, b, row, amount)?;
        let row = KeptRow::of(alloc, row)?;
        self.changes.push(Change { row, old })?;
        Ok(())
    }

    // One raise.
    fn raise(
        &mut self,
        alloc: Global,
        model: &Model,
        b: &Box01,
        raise: &Raise,
        node: u32,
    ) -> Result<(), BoundNo>
        requires carries { CarriesSome model.now b.now self.old.sums }
        ensures { (first ms : Multipliers Rows) (k : List Changes) → Holds model.now b.now first k ms self.old → Ends (λ ns. Holds model.now b.now first k ns self.new) (raised_row (whole model.now) node ms (raise_of raise.now)) result }
    {
        if !model.has_row(&raise.row) {
            return Err(BoundNo::StepRow { node });
        }
        let Some(amount) = changed(self.sums.amounts.at(&raise.row), raise.amount) else {
            return Err(BoundNo::Multiplier { node });
        };
        self.change(alloc, model, b, &raise.row, amount)?;
        Ok(())
    }

    // One raise as a record keeps it.
    fn raise_kept(
        &mut self,
        alloc: Global,
        model: &Model,
        b: &Box01,
        kept: &KeptRaise,
        node: u32,
    ) -> Result<(), BoundNo>
        requires carries { CarriesSome model.now b.now self.old.sums }
        ensures { (first ms : Multipliers Rows) (k : List Changes) → Holds model.now b.now first k ms self.old → Ends (λ ns. Holds model.now b.now first k ns self.new) (raised_row (whole model.now) node ms (raise_of kept.now)) result }
    {
        let raise = kept.raise();
        self.raise(alloc, model, b, &raise, node)
    }

    /// Raises in order.
    pub fn raise_all(
        &mut self,
        alloc: Global,
        model: &Model,
        b: &Box01,
        raises: &[KeptRaise],
        node: u32,
    ) -> Result<(), BoundNo>
        requires carries { CarriesSome model.now b.now self.old.sums }
        ensures { (first ms : Multipliers Rows) (k : List Changes) → Holds model.now b.now first k ms self.old → Ends (λ ns. Holds model.now b.now first k ns self.new) (raised_rows (whole model.now) node (Ok ms) (map raise_of raises.now)) result }
    {
        for raise in raises {
            self.raise_kept(alloc, model, b, raise, node)?;
        }
        Ok(())
    }

    // Gives one row with a multiplier the multiplier 0; false where there is none.
    fn clear_one(&mut self, alloc: Global, model: &Model, b: &Box01) -> Result<bool, NoMemory>
        requires carries { CarriesSome model.now b.now self.old.sums }
        ensures holds { (first ms : Multipliers Rows) (k : List Changes) → Holds model.now b.now first k ms self.old → OnOk result (HoldsSome model.now b.now first k self.new) }
        ensures less { result ≡ Ok true → length self.new.sums.amounts < length self.old.sums.amounts }
        ensures none { result ≡ Ok false → self.new.sums.amounts ≡ [] }
    {
        let Some((row, amount)) = self.sums.amounts.take_first() else {
            return Ok(false);
        };
        if amount > 0 {
            self.sums.add_row(alloc, model, b, &row, turned(amount))?;
            let row = KeptRow::of(alloc, &row)?;
            self.changes.push(Change { row, old: amount })?;
        }
        Ok(true)
    }

    /// Gives each row the multiplier 0.
    pub fn clear(&mut self, alloc: Global, model: &Model, b: &Box01) -> Result<(), NoMemory>
        requires carries { CarriesSome model.now b.now self.old.sums }
        ensures { (first ms : Multipliers Rows) (k : List Changes) → Holds model.now b.now first k ms self.old → OnOk result (Holds model.now b.now first k [] self.new) }
    {
        let mut more = true;
        while more {
            more = self.clear_one(alloc, model, b)?;
        }
        Ok(())
    }

    // Gives a row the multiplier that it had before a change.
    fn undo(
        &mut self,
        alloc: Global,
        model: &Model,
        b: &Box01,
        change: Change,
    ) -> Result<(), NoMemory>
        requires sound { IsSound model.now change }
        requires carries { CarriesSome model.now b.now self.old.sums }
        ensures changes { self.new.changes ≡ self.old.changes }
        ensures carries { (ms : Multipliers Rows) → Carries model.now b.now ms self.old.sums → OnOk result (Carries model.now b.now (with_amount same_row ms change.row change.old) self.new.sums) }
    {
        let row = change.row.row();
        self.sums.give(alloc, model, b, &row, change.old)?;
        Ok(())
    }

    /// Takes back what was changed past a place of the list, the last first.
    pub fn take_back(
        &mut self,
        alloc: Global,
        model: &Model,
        b: &Box01,
        to: usize,
    ) -> Result<(), NoMemory>
        requires carries { CarriesSome model.now b.now self.old.sums }
        requires to { to ≤ length self.old.changes.items }
        requires sound { All (IsSound model.now) self.old.changes.items }
        ensures carries { (ms ns : Multipliers Rows) → Carries model.now b.now ms self.old.sums → Before ns to self.old.changes.items ms → AreSmall model.now ns → OnOk result (Carries model.now b.now ns self.new.sums) }
        ensures changes { OnOk result (self.new.changes.items ≡ take to self.old.changes.items) }
    {
        while self.changes.len() > to {
            if let Some(change) = self.changes.pop() {
                self.undo(alloc, model, b, change)?;
            }
        }
        Ok(())
    }
}
