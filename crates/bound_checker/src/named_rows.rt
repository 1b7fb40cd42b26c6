//! The rows that a tree's lines name, with their right sides and terms, kept for the next line that names them.
ghost use Rattle.std.specs.Prelude.{◌≡◌, ℕ, ◌≤◌, ◌^◌, true, IfOk, IfSome, OnOk, length, pos, ◌+ℤ◌, unsigned_abs};
ghost use Rattle.proof_trees.specs.Multipliers.{Multipliers, amount_of, with_amount};
ghost use Rattle.zero_one_rows.specs.declared.program.Row.{Row as Rows};
ghost use Rattle.zero_one_rows.specs.Variables.{Voyage, variables};
ghost use Rattle.zero_one_rows.specs.Rows.{whole};
ghost use Rattle.certificate.specs.Entries.{same_row};
ghost use Rattle.dual_bound.specs.Costs.{IsListed, Priced, PricedSome};
ghost use Rattle.bound_checker.specs.Named.{IsNamed};

use crate::amounts::copy_of;
use dual_bound::{Costs, Listed, Term, list_row, terms_of};
use std::alloc::Global;
use std::collections::BTreeMap;
use stow_data::{NoMemory, Seq};
use zero_one_model::{Box01, Model};
use zero_one_rows::Row;

/// The most terms that are kept: 2^24, which are 128 MiB.
const MOST_TERMS: usize = 1 << 24;

/// A row with its right side and its terms.
#[derive(Drop)]
pub struct NamedRow {
    row: Row,
    right: i64,
    terms: Seq<Term>,
}

/// The rows that were named so far, as many as there is room for. Contracts see the voyage.
#[derive(Drop)]
pub struct NamedRows<'a> {
    model: &'a Model<'a>,
    rows: Seq<NamedRow>,
    places: BTreeMap<Row, usize>,
    room: usize,
}

impl<'a> std::marker::Model for NamedRows<'a> {
    ghost use Rattle.std.specs.Prelude.{All};
    ghost use Rattle.zero_one_rows.specs.Variables.{Voyage};
    ghost use Rattle.bound_checker.specs.Named.{IsNamed};

    ghost Value = { Voyage };

    ghost view = { λ n. n.model.now };

    ghost invariant = { λ n. All (IsNamed n.model.now) n.rows };
}

// A row with its right side and its terms.
fn named_row(alloc: Global, model: &Model, row: &Row) -> Result<NamedRow, NoMemory>
    requires { (whole model.now).has row.now ≡ true }
    ensures { IfOk result (IsNamed model.now) }
{
    let terms = terms_of(alloc, model, row)?;
    let right = list_row(model, row, terms.as_slice()).right;
    Ok(NamedRow {
        row: copy_of(row)?,
        right,
        terms,
    })
}

impl NamedRow {
    // The same with a row's own name, where it is this one.
    fn listed<'r>(&'r self, row: &'r Row) -> Option<Listed<'r>>
        ensures row { IfSome result (λ l. l.row.now ≡ row.now) }
        ensures listed { (m : Voyage) → IsNamed m self.now → IfSome result (λ l. IsListed m row.now l.right l.terms.now) }
    {
        if self.row != *row {
            return None;
        }
        Some(Listed {
            row,
            right: self.right,
            terms: self.terms.as_slice(),
        })
    }
}

// Enters a row with its place.
fn enter(places: &mut BTreeMap<Row, usize>, row: &Row, place: usize) -> Result<(), NoMemory> {
    places.insert(copy_of(row)?, place)?;
    Ok(())
}

impl<'a> NamedRows<'a> {
    /// None so far.
    pub fn none(alloc: Global, model: &'a Model<'a>) -> NamedRows<'a>
        ensures { result ≡ model.now }
    {
        NamedRows {
            model,
            rows: Seq::new(alloc),
            places: BTreeMap::new(alloc),
            room: MOST_TERMS,
        }
    }

    /// Where a row stands, which is kept where there is room.
    pub fn place(&mut self, alloc: Global, row: &Row) -> Result<Option<usize>, NoMemory>
        requires { (whole self.old).has row.now ≡ true }
        ensures { self.new ≡ self.old }
    {
        if let Some(place) = self.places.get(row) {
            return Ok(Some(*place));
        }
        if self.room == 0 {
            return Ok(None);
        }
        let named = named_row(alloc, self.model, row)?;
        let (place, count) = (self.rows.len(), named.terms.len());
        match enter(&mut self.places, row, place) {
            Ok(()) => {
                self.rows.push(named)?;
                self.room = self.room.saturating_sub(count);
                Ok(Some(place))
            }
            Err(no) => {
                drop(named);
                Err(no)
            }
        }
    }

    /// The row at its place, where it stands there.
    pub fn at<'r>(&'r self, place: Option<usize>, row: &'r Row) -> Option<Listed<'r>>
        ensures row { IfSome result (λ l. l.row.now ≡ row.now) }
        ensures listed { IfSome result (λ l. IsListed self.now row.now l.right l.terms.now) }
    {
        let place = place?;
        if place < self.rows.len() {
            self.rows.at(place).listed(row)
        } else {
            None
        }
    }

    /// Adds so many times a row to costs, and counts its variables. It takes their time.
    pub fn add_row(
        &mut self,
        alloc: Global,
        model: &Model,
        b: &Box01,
        costs: &mut Costs,
        row: &Row,
        by: i64,
    ) -> Result<usize, NoMemory>
        requires row { (whole model.now).has row.now ≡ true }
        requires by { unsigned_abs by ≤ 2 ^ 40 }
        requires whole { length b.now ≡ length (variables model.now) }
        requires rows { self.old ≡ model.now }
        requires priced { PricedSome model.now b.now costs.old }
        ensures rows { self.new ≡ self.old }
        ensures priced { (ms : Multipliers Rows) (n : ℕ) → Priced model.now b.now ms costs.old → pos (amount_of same_row ms row.now) +ℤ by ≡ pos n → n ≤ 2 ^ 40
            → OnOk result (Priced model.now b.now (with_amount same_row ms row.now n) costs.new) }
    {
        let place = self.place(alloc, row)?;
        if let Some(listed) = self.at(place, row) {
            let count = listed.terms.len();
            costs.add_row(model, b, listed, by);
            return Ok(count);
        }
        let terms = terms_of(alloc, model, row)?;
        let listed = list_row(model, row, terms.as_slice());
        costs.add_row(model, b, listed, by);
        Ok(terms.len())
    }
}
