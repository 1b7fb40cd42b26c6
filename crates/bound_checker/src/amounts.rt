//! The multipliers of rows.
ghost use Rattle.std.specs.Prelude.{◌≡◌, ℕ, cond, OnOk, IfOk, IfNone, IfSome, [], ◌∷◌};
ghost use Rattle.proof_trees.specs.Multipliers.{amount_of};
ghost use Rattle.certificate.specs.Entries.{same_row};

use std::alloc::Global;
use std::collections::BTreeMap;
use std::marker::Model;
use stow_data::NoMemory;
use zero_one_rows::Row;

/// The multipliers of rows; a row that isn't there has 0.
#[derive(Drop)]
pub struct Amounts {
    pub by_row: BTreeMap<Row, u64>,

    /// What it took to give them: for each time that a row was given one, its variables and one more.
    pub work: usize,
}

impl Model for Amounts {
    ghost use Rattle.std.specs.Prelude.{ℕ, List};
    ghost use Rattle.zero_one_rows.specs.declared.program.Row.{Row};

    ghost Value = { List (Row × ℕ) };

    ghost view = { λ a. a.by_row.entries };
}

impl Amounts {
    /// No multipliers.
    pub fn none(alloc: Global) -> Amounts
        ensures { result ≡ [] }
    {
        Amounts {
            by_row: BTreeMap::new(alloc),
            work: 0,
        }
    }

    /// The multiplier of a row.
    pub fn at(&self, row: &Row) -> u64
        ensures { result ≡ amount_of same_row self.now row.now }
    {
        self.by_row.get(row).copied().unwrap_or(0)
    }

    /// Gives a row of so many variables this multiplier.
    pub fn set(&mut self, row: &Row, amount: u64, count: usize) -> Result<(), NoMemory>
        ensures { OnOk result ((r : Row) → amount_of same_row self.new r ≡ cond (same_row row.now r) amount (amount_of same_row self.old r)) }
    {
        self.by_row.insert(copy_of(row)?, amount)?;
        self.work = self.work.saturating_add(count).saturating_add(1);
        Ok(())
    }
}

impl Amounts {
    /// Takes one row out, with its multiplier; None where no row has one.
    pub fn take_first(&mut self) -> Option<(Row, u64)>
        ensures none { IfNone result (self.old ≡ []) }
        ensures nothing_left { IfNone result (self.new ≡ []) }
        ensures some { IfSome result (λ p. self.old ≡ p ∷ self.new) }
        ensures was { IfSome result (λ p. amount_of same_row self.old p.0 ≡ p.1) }
        ensures rest { IfSome result (λ p. (r : Row) → amount_of same_row self.new r ≡ cond (same_row p.0 r) 0 (amount_of same_row self.old r)) }
    {
        self.by_row.pop_first()
    }
}

/// The same row again.
pub fn copy_of(row: &Row) -> Result<Row, NoMemory>
    ensures { IfOk result (λ r. r ≡ row.now) }
{
    Ok(row.clone()?)
}
