//! The base rows by the tiers of their half-cells and places, one row for each run of calls.
ghost use Rattle.std.specs.Prelude.{◌≡◌, ℕ, ◌<◌, ◌≤◌, IfOk, length, map, slice_get, Some};
ghost use Rattle.zero_one_rows.specs.declared.program.Row.{Row};
ghost use Rattle.zero_one_rows.specs.Counted.{base_in, rows_in};
ghost use Rattle.zero_one_rows.specs.Grouping.{IsGrouped};
ghost use Rattle.zero_one_model.specs.Indexed.{NamesCells};
ghost use Rattle.zero_one_model.specs.Runs.{leads, first_shelf, second_shelf, no_shelf, first_file, second_file, AreFiled};

use crate::index::{TIERS, key_above, key_below, key_of_half, key_of_place};
use std::alloc::Global;
use stow_data::{NoMemory, Seq, Ship};
use zero_one_rows::{Groups, Row, RowLists, group};

/// The numbers of the base rows of the first call, by the first tier that a row names and by the second.
#[derive(Drop)]
pub struct RowFiles {
    pub by_first: Groups,
    pub by_second: Groups,
}

/// Whether a row stands for its run among those that are filed.
fn is_lead(row: &Row) -> bool
    ensures { result ≡ leads row.now }
{
    match row {
        Row::Cell { call, .. }
        | Row::Support { call, .. }
        | Row::Twenty { call, .. }
        | Row::Block { call, .. }
        | Row::Hatch { call, .. }
        | Row::Apart { call, .. } => call.0 == 1,
        Row::Flow { .. } | Row::Start { .. } | Row::Weight { .. } | Row::Cross { .. } => false,
    }
}

/// The tier of the first half-cell or place that a filed row names.
fn shelf_of_first(ship: &Ship, row: &Row) -> usize
    requires { NamesCells ship.now row.now }
    ensures { result ≡ first_shelf ship.now row.now }
{
    match row {
        Row::Cell { half, .. }
        | Row::Support { half, .. }
        | Row::Twenty { half, .. }
        | Row::Block { half, .. }
        | Row::Hatch { half, .. } => key_of_half(ship, *half),
        Row::Apart { first, .. } => key_of_place(ship, *first),
        Row::Flow { .. } | Row::Start { .. } | Row::Weight { .. } | Row::Cross { .. } => 0,
    }
}

/// That of the second one; of the first where the row names one.
fn shelf_of_second(ship: &Ship, row: &Row) -> usize
    requires { NamesCells ship.now row.now }
    ensures { result ≡ second_shelf ship.now row.now }
{
    match row {
        Row::Cell { half, .. } => key_of_half(ship, *half),
        Row::Support { half, .. } | Row::Twenty { half, .. } => key_below(ship, *half),
        Row::Block { half, .. } => key_above(ship, *half),
        Row::Hatch { lowest, .. } => key_of_half(ship, *lowest),
        Row::Apart { second, .. } => key_of_place(ship, *second),
        Row::Flow { .. } | Row::Start { .. } | Row::Weight { .. } | Row::Cross { .. } => 0,
    }
}

/// Where a row is filed by its first tier.
fn file_by_first(ship: &Ship, none: usize, row: &Row) -> usize
    requires row { NamesCells ship.now row.now }
    requires none { none ≡ no_shelf ship.now }
    ensures { result ≡ first_file ship.now row.now }
{
    if !is_lead(row) {
        return none;
    }
    shelf_of_first(ship, row)
}

/// Where a row is filed by its second tier.
fn file_by_second(ship: &Ship, none: usize, row: &Row) -> usize
    requires row { NamesCells ship.now row.now }
    requires none { none ≡ no_shelf ship.now }
    ensures { result ≡ second_file ship.now row.now }
{
    let second = shelf_of_second(ship, row);
    if second == shelf_of_first(ship, row) || !is_lead(row) {
        return none;
    }
    second
}

/// The base row of this number.
fn base_row(lists: &RowLists, base: u64, k: u64) -> Row
    requires few { length (rows_in lists.now) ≤ 2000000 }
    requires base { base ≡ length (base_in lists.now) }
    requires inside { k < length (base_in lists.now) }
    ensures { slice_get (base_in lists.now) k ≡ Some result }
{
    lists.at(base, k)
}

/// For each base row, where it is filed by its first tier.
fn first_files(
    alloc: Global,
    ship: &Ship,
    lists: &RowLists,
    base: u64,
) -> Result<Seq<usize>, NoMemory>
    requires names { (k : ℕ) (r : Row) → slice_get (base_in lists.now) k ≡ Some r → NamesCells ship.now r }
    requires few { length (rows_in lists.now) ≤ 2000000 }
    requires base { base ≡ length (base_in lists.now) }
    ensures { IfOk result (λ keys. keys ≡ map (first_file ship.now) (base_in lists.now)) }
{
    let none = ship.stacks() as usize * TIERS;
    let mut keys = Seq::new(alloc);
    for k in 0..base {
        keys.push(file_by_first(ship, none, &base_row(lists, base, k)))?;
    }
    Ok(keys)
}

/// For each base row, where it is filed by its second tier.
fn second_files(
    alloc: Global,
    ship: &Ship,
    lists: &RowLists,
    base: u64,
) -> Result<Seq<usize>, NoMemory>
    requires names { (k : ℕ) (r : Row) → slice_get (base_in lists.now) k ≡ Some r → NamesCells ship.now r }
    requires few { length (rows_in lists.now) ≤ 2000000 }
    requires base { base ≡ length (base_in lists.now) }
    ensures { IfOk result (λ keys. keys ≡ map (second_file ship.now) (base_in lists.now)) }
{
    let none = ship.stacks() as usize * TIERS;
    let mut keys = Seq::new(alloc);
    for k in 0..base {
        keys.push(file_by_second(ship, none, &base_row(lists, base, k)))?;
    }
    Ok(keys)
}

/// The base rows by their first tier.
fn group_first(alloc: Global, ship: &Ship, lists: &RowLists, base: u64) -> Result<Groups, NoMemory>
    requires names { (k : ℕ) (r : Row) → slice_get (base_in lists.now) k ≡ Some r → NamesCells ship.now r }
    requires few { length (rows_in lists.now) ≤ 2000000 }
    requires base { base ≡ length (base_in lists.now) }
    ensures { IfOk result (IsGrouped (map (first_file ship.now) (base_in lists.now)) (no_shelf ship.now)) }
{
    let keys = first_files(alloc, ship, lists, base)?;
    let groups = group(alloc, keys.as_slice(), ship.stacks() as usize * TIERS);
    drop(keys);
    groups
}

/// The base rows by their second tier.
fn group_second(alloc: Global, ship: &Ship, lists: &RowLists, base: u64) -> Result<Groups, NoMemory>
    requires names { (k : ℕ) (r : Row) → slice_get (base_in lists.now) k ≡ Some r → NamesCells ship.now r }
    requires few { length (rows_in lists.now) ≤ 2000000 }
    requires base { base ≡ length (base_in lists.now) }
    ensures { IfOk result (IsGrouped (map (second_file ship.now) (base_in lists.now)) (no_shelf ship.now)) }
{
    let keys = second_files(alloc, ship, lists, base)?;
    let groups = group(alloc, keys.as_slice(), ship.stacks() as usize * TIERS);
    drop(keys);
    groups
}

/// The base rows of some lists, filed.
pub fn file_rows(
    alloc: Global,
    ship: &Ship,
    lists: &RowLists,
    base: u64,
) -> Result<RowFiles, NoMemory>
    requires names { (k : ℕ) (r : Row) → slice_get (base_in lists.now) k ≡ Some r → NamesCells ship.now r }
    requires few { length (rows_in lists.now) ≤ 2000000 }
    requires base { base ≡ length (base_in lists.now) }
    ensures { IfOk result (λ f. AreFiled ship.now (base_in lists.now) f) }
{
    let by_first = group_first(alloc, ship, lists, base)?;
    match group_second(alloc, ship, lists, base) {
        Ok(by_second) => Ok(RowFiles {
            by_first,
            by_second,
        }),
        Err(no) => {
            drop(by_first);
            Err(no)
        }
    }
}
