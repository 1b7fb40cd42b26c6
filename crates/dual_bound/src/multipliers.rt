//! The multipliers of rows.
ghost use Rattle.std.specs.Prelude.{◌≡◌, ℕ, ◌<◌, ◌≤◌, ◌^◌, true, All, [], drop, length, take, pos, ◌+ℤ◌, is_ok, if◌then◌else◌, IfOk, IfSome};
ghost use Rattle.zero_one_rows.specs.declared.program.Row.{Row as Rows};
ghost use Rattle.proof_trees.specs.Multipliers.{Multipliers as Prices, amount_of, with_amount, raised};
ghost use Rattle.certificate.specs.Entries.{same_row};
ghost use Rattle.dual_bound.specs.Adding.{Adds, place_in, amount_there, in_range};

use crate::sizes::signed;
use std::alloc::Global;
use std::marker::Model;
use stow_data::NoMemory;
use zero_one_rows::Row;

/// The greatest multiplier.
pub const MOST: u64 = 1 << 40;

/// Why a multiplier isn't changed.
#[derive(Clone, Copy)]
pub enum AddNo {
    /// It would leave 0 to 2^40.
    OutOfRange,
    NoMemory,
}

impl From<NoMemory> for AddNo {
    ghost use Rattle.std.specs.Prelude.{◌≡◌};
    ghost use Rattle.dual_bound.specs.declared.multipliers.AddNo.TheVariants.{NoMemory};

    ghost from_gives = { λ _ e. e ≡ NoMemory };

    fn from(_: NoMemory) -> Self {
        AddNo::NoMemory
    }
}

/// The multipliers of rows, 0 to 2^40, in the order in which the rows came; a row that isn't there has 0.
#[derive(Drop)]
pub struct Multipliers {
    entries: Vec<(Row, u64)>,
}

impl Model for Multipliers {
    ghost use Rattle.std.specs.Prelude.{ℕ, List, All, ◌≤◌, ◌^◌};
    ghost use Rattle.zero_one_rows.specs.declared.program.Row.{Row};

    ghost Value = { List (Row × ℕ) };

    ghost view = { λ a. a.entries.items };

    ghost invariant = { λ a. All (λ e. e.1 ≤ 2 ^ 40) a.entries.items };
}

/// The place of a row among those that have multipliers.
#[tactic(auto, using(certificate::proofs::RowsTold::equal_same))]
fn place_of(entries: &[(Row, u64)], r: &Row) -> Option<usize>
    ensures is { result ≡ place_in entries.now r.now }
    ensures inside { IfSome result (λ k. k < length entries.now) }
{
    entries.iter().position(|entry| entry.0 == *r)
}

// Whether each of these rows has the multiplier 0.
fn are_zero(entries: &[(Row, u64)]) -> bool
    ensures { result ≡ true → All (λ e. e.1 ≡ 0) entries.now }
{
    entries.iter().all(|entry| entry.1 == 0)
}

/// A multiplier that is changed, where it stays in 0 to 2^40.
pub fn changed(old: u64, by: i64) -> Option<u64>
    requires { old ≤ 2 ^ 40 }
    ensures { result ≡ in_range (pos old +ℤ by) }
{
    let sum = old as i128 + by as i128;
    if sum < 0 || sum > MOST as i128 {
        None
    } else {
        Some(sum as u64)
    }
}

impl Multipliers {
    /// No multipliers. It takes no memory.
    pub fn zero(alloc: Global) -> Multipliers
        ensures { result ≡ [] }
    {
        Multipliers {
            entries: Vec::new(alloc),
        }
    }

    /// The number of rows that have been given a multiplier.
    pub fn len(&self) -> usize
        ensures { result ≡ length self.now }
    {
        self.entries.len()
    }

    /// The rows that have been given a multiplier, with their multipliers, in the order in which they came.
    pub fn as_slice(&self) -> &[(Row, u64)]
        ensures { result.now ≡ self.now }
    {
        self.entries.as_slice()
    }

    /// The place of a row among those that have multipliers.
    pub fn place(&self, r: &Row) -> Option<usize>
        ensures is { result ≡ place_in self.now r.now }
        ensures inside { IfSome result (λ k. k < length self.now) }
    {
        place_of(self.entries.as_slice(), r)
    }

    /// The multiplier at this place, or 0.
    pub fn amount(&self, place: Option<usize>) -> u64
        requires { IfSome place (λ k. k < length self.now) }
        ensures value { result ≡ amount_there self.now place }
        ensures size { result ≤ 2 ^ 40 }
    {
        match place {
            Some(k) => self.entries[k].1,
            None => 0,
        }
    }

    /// The multiplier of a row.
    pub fn at(&self, r: &Row) -> i64
        ensures value { result ≡ pos (amount_of same_row self.now r.now) }
        ensures size { amount_of same_row self.now r.now ≤ 2 ^ 40 }
    {
        signed(self.amount(self.place(r)))
    }

    /// Gives a row, which stands at this place or is new, a multiplier.
    pub fn give(&mut self, place: Option<usize>, r: Row, amount: u64) -> Result<(), NoMemory>
        requires place { place ≡ place_in self.old r }
        requires inside { IfSome place (λ k. k < length self.old) }
        requires amount { amount ≤ 2 ^ 40 }
        ensures { self.new ≡ (if is_ok result then with_amount same_row self.old r amount else self.old) }
    {
        match place {
            Some(k) => self.entries[k].1 = amount,
            None => self.entries.push((r, amount))?,
        }
        Ok(())
    }

    /// Takes back what `give` did last: the row stood at this place, with this multiplier, or was new. It takes no memory.
    pub fn take_back(&mut self, place: Option<usize>, amount: u64)
        requires inside { IfSome place (λ k. k < length self.old) }
        requires low { amount ≤ 2 ^ 40 }
        ensures { (ms : Prices Rows) (r : Rows) (given : ℕ) → self.old ≡ with_amount same_row ms r given → place ≡ place_in ms r → amount ≡ amount_of same_row ms r → self.new ≡ ms }
    {
        match place {
            Some(k) => self.entries[k].1 = amount,
            None => {
                self.entries.pop();
            }
        }
    }

    /// Forgets the rows behind the first so many, where each of them has the multiplier 0; else nothing is changed. Whether it did. It takes no memory.
    pub fn shorten(&mut self, count: usize) -> bool
        ensures shorter { self.new ≡ (if result then take count self.old else self.old) }
        ensures zero { result ≡ true → All (λ e. e.1 ≡ 0) (drop count self.old) }
    {
        if count > self.entries.len() {
            return false;
        }
        let forgotten = are_zero(&self.entries[count..]);
        if forgotten {
            self.entries.truncate(count);
        }
        forgotten
    }

    /// Changes a row's multiplier by an amount. OutOfRange comes exactly where it would leave 0 to 2^40; after a refusal nothing is changed.
    pub fn add(&mut self, r: &Row, amount: i64) -> Result<(), AddNo>
        ensures { Adds (raised same_row self.old r.now amount) self.old self.new result }
    {
        let place = self.place(r);
        let Some(sum) = changed(self.amount(place), amount) else {
            return Err(AddNo::OutOfRange);
        };
        self.give(place, copy_of(r)?, sum)?;
        Ok(())
    }
}

/// The same row again.
pub fn copy_of(row: &Row) -> Result<Row, NoMemory>
    ensures { IfOk result (λ r. r ≡ row.now) }
{
    Ok(row.clone()?)
}
