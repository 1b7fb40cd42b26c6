//! Multipliers with the reduced costs and the dual value of a box.
ghost use Rattle.std.specs.Prelude.{◌≡◌, ℕ, ◌+◌, ◌<◌, ◌≤◌, ◌^◌, true, false, cond, OnOk, IfOk, IfSome, Ok, length, [], pos, ◌+ℤ◌, unsigned_abs};
ghost use Rattle.proof_trees.specs.Boxes.{Box};
ghost use Rattle.proof_trees.specs.Multipliers.{Multipliers, amount_of, worth, with_amount};
ghost use Rattle.zero_one_rows.specs.Variables.{Voyage, variables};
ghost use Rattle.zero_one_rows.specs.declared.program.Row.{Row as Rows};
ghost use Rattle.zero_one_rows.specs.Rows.{whole};
ghost use Rattle.certificate.specs.Entries.{same_row};
ghost use Rattle.dual_bound.specs.Adding.{in_range};
ghost use Rattle.dual_bound.specs.Costs.{AreSmall, Priced, PricedSome};
ghost use Rattle.bound_checker.specs.Sums.{AreAmounts, AreToCome, Carries, CarriesSome, HaveSum, IsAside, IsAsideSome, IsClean};
ghost use Rattle.bound_checker.specs.Waits.{in_hand, without_costs};

use crate::amounts::Amounts;
use crate::blank::Blank;
use crate::cleaning::cleaned;
use crate::named_rows::NamedRows;
use dual_bound::Costs;
use std::alloc::Global;
use std::mem;
use stow_data::NoMemory;
use zero_one_model::{Box01, Model};
use zero_one_rows::Row;

/// The greatest multiplier.
const MOST: u64 = 1 << 40;

/// Multipliers, looked up by row, with the reduced costs and the dual value that they give a box, and the rows that were named.
#[derive(Drop)]
pub struct Sums<'a> {
    pub amounts: Amounts,
    pub costs: Costs,
    pub blank: Blank,
    pub rows: NamedRows<'a>,
}

/// Multipliers that are put aside, with their costs, where there is room for these.
#[derive(Drop)]
pub struct Aside {
    pub amounts: Amounts,
    pub costs: Option<Costs>,
}

impl Aside {
    /// What the costs took to make; None where there are none.
    pub fn kept_work(&self) -> Option<usize> {
        match &self.costs {
            Some(_) => Some(self.amounts.work),
            None => None,
        }
    }
}

// How much a multiplier changes.
fn difference(old: u64, new: u64) -> i64
    requires old { old ≤ 2 ^ 40 }
    requires new { new ≤ 2 ^ 40 }
    ensures value { pos old +ℤ result ≡ pos new }
    ensures size { unsigned_abs result ≤ 2 ^ 40 }
{
    new as i64 - old as i64
}

/// A multiplier that is changed, where it stays in 0 to 2^40.
pub fn changed(old: u64, by: i64) -> Option<u64>
    requires { old ≤ 2 ^ 40 }
    ensures { result ≡ in_range (pos old +ℤ by) }
{
    let sum = old as i128 + by as i128;
    if sum < 0 || sum > MOST as i128 {
        None
    } else {
        Some(sum as u64)
    }
}

impl<'a> Sums<'a> {
    /// Those of a box without multipliers.
    pub fn none(alloc: Global, model: &'a Model<'a>, b: &Box01) -> Result<Sums<'a>, NoMemory>
        requires { length b.now ≡ length (variables model.now) }
        ensures { IfOk result (λ s. Carries model.now b.now [] s) }
    {
        let costs = Costs::start(alloc, model, b)?;
        match Blank::start(alloc, model, b) {
            Ok(blank) => Ok(Sums {
                amounts: Amounts::none(alloc),
                costs,
                blank,
                rows: NamedRows::none(alloc, model),
            }),
            Err(no) => {
                drop(costs);
                Err(no)
            }
        }
    }

    /// Adds so many times a row to the costs, and counts its variables. It takes their time.
    pub fn add_row(
        &mut self,
        alloc: Global,
        model: &Model,
        b: &Box01,
        row: &Row,
        by: i64,
    ) -> Result<usize, NoMemory>
        requires row { (whole model.now).has row.now ≡ true }
        requires by { unsigned_abs by ≤ 2 ^ 40 }
        requires whole { length b.now ≡ length (variables model.now) }
        requires rows { self.old.rows ≡ model.now }
        requires priced { PricedSome model.now b.now self.old.costs }
        ensures rows { self.new.rows ≡ self.old.rows }
        ensures blank { self.new.blank ≡ self.old.blank }
        ensures amounts { OnOk result (self.new.amounts ≡ self.old.amounts) }
        ensures priced { (ms : Multipliers Rows) (n : ℕ) → Priced model.now b.now ms self.old.costs → pos (amount_of same_row ms row.now) +ℤ by ≡ pos n → n ≤ 2 ^ 40
            → OnOk result (Priced model.now b.now (with_amount same_row ms row.now n) self.new.costs) }
    {
        self.rows.add_row(alloc, model, b, &mut self.costs, row, by)
    }

    /// Gives a row this multiplier.
    pub fn give(
        &mut self,
        alloc: Global,
        model: &Model,
        b: &Box01,
        row: &Row,
        amount: u64,
    ) -> Result<(), NoMemory>
        requires row { (whole model.now).has row.now ≡ true }
        requires amount { amount ≤ 2 ^ 40 }
        requires carries { CarriesSome model.now b.now self.old }
        ensures { (ms : Multipliers Rows) → Carries model.now b.now ms self.old → OnOk result (Carries model.now b.now (with_amount same_row ms row.now amount) self.new) }
    {
        let by = difference(self.amounts.at(row), amount);
        let count = self.add_row(alloc, model, b, row, by)?;
        self.amounts.set(row, amount, count)?;
        Ok(())
    }

    /// The dual value of the box. It takes constant time.
    pub fn value(&self) -> i128
        ensures { (m : Voyage) (b : Box) (ms : Multipliers Rows) → Carries m b ms self.now → result ≡ worth (whole m) b ms }
    {
        self.costs.total()
    }
}

impl<'a> Sums<'a> {
    /// Puts the multipliers aside; then no row has one. The costs to go on with are to be those of no multipliers. It takes constant time.
    pub fn put_aside(&mut self, alloc: Global, clean: Costs) -> Aside
        ensures aside { (m : Voyage) (b : Box) (ms : Multipliers Rows) → Carries m b ms self.old → IsAside m b ms result }
        ensures none { (m : Voyage) (b : Box) (ms : Multipliers Rows) → Carries m b ms self.old → IsClean m clean → Carries m b [] self.new }
    {
        let costs = self.blank.valued(clean);
        Aside {
            amounts: mem::replace(&mut self.amounts, Amounts::none(alloc)),
            costs: Some(mem::replace(&mut self.costs, costs)),
        }
    }

    /// Multipliers that are aside let go of their costs, which are cleaned for others. It takes the time of their rows.
    pub fn let_go(
        &mut self,
        alloc: Global,
        model: &Model,
        aside: &mut Aside,
    ) -> Result<(), NoMemory>
        requires carries { (b : Box) × CarriesSome model.now b self.old }
        requires aside { IsAsideSome model.now aside.old }
        ensures aside { aside.new ≡ without_costs aside.old }
        ensures carries { (b : Box) (ms : Multipliers Rows) → Carries model.now b ms self.old → OnOk result (Carries model.now b ms self.new) }
    {
        let Some(costs) = aside.costs.take() else {
            return Ok(());
        };
        let (rows, blank) = (&mut self.rows, &mut self.blank);
        let clean = cleaned(alloc, model, rows, &blank.zero, &aside.amounts, costs)?;
        blank.keep(clean);
        Ok(())
    }

    // Takes multipliers in hand again with their costs, where no row has one. It takes constant time, and that of dropping the rows that had one.
    fn take_up(&mut self, amounts: Amounts, costs: Costs)
        ensures { (m : Voyage) (b : Box) (ms : Multipliers Rows) → Carries m b [] self.old → AreAmounts amounts ms → Priced m b ms costs → Carries m b ms self.new }
    {
        let clean = mem::replace(&mut self.costs, costs);
        self.amounts = amounts;
        self.blank.keep(clean);
    }

    // Adds to a row's multiplier.
    fn give_more(
        &mut self,
        alloc: Global,
        model: &Model,
        b: &Box01,
        row: &Row,
        amount: u64,
    ) -> Result<(), NoMemory>
        requires row { 0 < amount → (whole model.now).has row.now ≡ true }
        requires low { amount + amount_of same_row self.old.amounts row.now ≤ 2 ^ 40 }
        requires carries { CarriesSome model.now b.now self.old }
        ensures carries { OnOk result (CarriesSome model.now b.now self.new) }
        ensures more { OnOk result ((r : Rows) → amount_of same_row self.new.amounts r ≡ cond (same_row row.now r) (amount_of same_row self.old.amounts row.now + amount) (amount_of same_row self.old.amounts r)) }
    {
        if amount == 0 {
            return Ok(());
        }
        let more = self.amounts.at(row) + amount;
        self.give(alloc, model, b, row, more)?;
        Ok(())
    }

    // Adds the first of these multipliers to those in hand, and takes it out; false where none is left.
    fn give_first(
        &mut self,
        alloc: Global,
        model: &Model,
        b: &Box01,
        rest: &mut Amounts,
    ) -> Result<bool, NoMemory>
        requires carries { CarriesSome model.now b.now self.old }
        requires come { AreToCome model.now rest.old self.old.amounts }
        ensures carries { OnOk result (CarriesSome model.now b.now self.new) }
        ensures come { OnOk result (AreToCome model.now rest.new self.new.amounts) }
        ensures sum { OnOk result (HaveSum rest.old self.old.amounts rest.new self.new.amounts) }
        ensures less { result ≡ Ok true → length rest.new < length rest.old }
        ensures none { result ≡ Ok false → rest.new ≡ [] }
    {
        let Some((row, amount)) = rest.take_first() else {
            return Ok(false);
        };
        self.give_more(alloc, model, b, &row, amount)?;
        Ok(true)
    }

    // Where no row has a multiplier, the rows that had one are forgotten, and what they took.
    fn forget_rows(&mut self, alloc: Global)
        ensures { (m : Voyage) (b : Box) → Carries m b [] self.old → Carries m b [] self.new }
    {
        self.amounts = Amounts::none(alloc);
    }

    // Takes multipliers in hand again whose costs aren't kept, where no row has one. It takes the time of their rows.
    fn give_back(
        &mut self,
        alloc: Global,
        model: &Model,
        b: &Box01,
        amounts: Amounts,
    ) -> Result<(), NoMemory>
        requires { (ms : Multipliers Rows) × Carries model.now b.now [] self.old × AreAmounts amounts ms × AreSmall model.now ms }
        ensures { (ms : Multipliers Rows) → Carries model.now b.now [] self.old → AreAmounts amounts ms → AreSmall model.now ms → OnOk result (Carries model.now b.now ms self.new) }
    {
        let mut rest = amounts;
        let mut more = true;
        while more {
            more = self.give_first(alloc, model, b, &mut rest)?;
        }
        Ok(())
    }

    /// Takes the multipliers in hand that are aside, where there are any.
    pub fn bring_back(
        &mut self,
        alloc: Global,
        model: &Model,
        b: &Box01,
        aside: Option<Aside>,
    ) -> Result<(), NoMemory>
        requires { (ms : Multipliers Rows) × Carries model.now b.now (in_hand aside ms) self.old × IfSome aside (IsAside model.now b.now ms) × AreSmall model.now ms }
        ensures { (ms : Multipliers Rows) → Carries model.now b.now (in_hand aside ms) self.old → IfSome aside (IsAside model.now b.now ms) → AreSmall model.now ms → OnOk result (Carries model.now b.now ms self.new) }
    {
        let Some(Aside { amounts, costs }) = aside else {
            return Ok(());
        };
        match costs {
            Some(costs) => {
                self.take_up(amounts, costs);
                Ok(())
            }
            None => {
                self.forget_rows(alloc);
                self.give_back(alloc, model, b, amounts)
            }
        }
    }
}
