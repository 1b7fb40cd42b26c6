//! The sums of each base row, by their signs.
ghost use Rattle.std.specs.Prelude.{◌≡◌, ℕ, ◌+◌, ◌<◌, ◌^◌, ◌++◌, ◌∷◌, [], true, false, cond, IfOk, OnOk, length};
ghost use Rattle.zero_one_rows.specs.Rows.{whole};
ghost use Rattle.row_sums.specs.Numbers.{number, numbers, IsLow, IsNumbering};
ghost use Rattle.row_matrix.specs.Terms.{count, row_at};
ghost use Rattle.row_matrix.specs.Parted.{loses_at, NamesPlace, PartsLow, numbers_of, AreSumsOf, AreRowSums};

use crate::base_rows::base_row;
use row_sums::{FlatLists, Numbering, Part, Parts, Sign, SumMatrix};
use std::alloc::Global;
use stow_data::{NoMemory, Seq, Ship};
use zero_one_model::Model;
use zero_one_rows::{Row, rows_are_in_range};

/// For each base row the numbers of its sums with plus, and of those with minus; and for each sum the rows in which it stands with plus, and those with minus.
#[derive(Drop)]
pub(crate) struct SignedRows {
    pub plus: FlatLists<usize>,
    pub minus: FlatLists<usize>,
    pub plus_rows: FlatLists<usize>,
    pub minus_rows: FlatLists<usize>,
}

/// Whether a sum with this sign loses greatest value where one of its variables gets the value.
fn falls_at(sign: Sign, value: bool) -> bool
    ensures { result ≡ loses_at sign value }
{
    match sign {
        Sign::Plus => !value,
        Sign::Minus => value,
    }
}

/// Appends the number of a row's sum, where it loses at the value.
fn note(z: Numbering, list: &mut Seq<usize>, part: Part, value: bool) -> Result<(), NoMemory>
    requires low { IsLow z part.sum }
    requires fits { numbers z < 2 ^ 64 }
    ensures { OnOk result (list.new ≡ list.old ++ cond (loses_at part.sign value) (number z part.sum ∷ []) []) }
{
    if !falls_at(part.sign, value) {
        return Ok(());
    }
    list.push(z.number(&part.sum))
}

/// Appends the numbers of a row's sums that lose at the value.
fn note_all(z: Numbering, list: &mut Seq<usize>, parts: Parts, value: bool) -> Result<(), NoMemory>
    requires low { PartsLow z parts }
    requires fits { numbers z < 2 ^ 64 }
    ensures { OnOk result (list.new ≡ list.old ++ numbers_of z value parts) }
{
    note(z, list, parts.first, value)?;
    match parts.second {
        Some(part) => note(z, list, part, value),
        None => Ok(()),
    }
}

/// Whether a row of arrivals is one of the ship's places, which then holds variables.
fn names_place(ship: &Ship, row: &Row) -> bool
    ensures names { result ≡ true → NamesPlace ship.now row.now }
    ensures refuses { result ≡ false → NamesPlace ship.now row.now → ⊥ }
{
    match row {
        Row::Start { place, .. } => place.0 < ship.places(),
        _ => true,
    }
}

/// The numbers of a row's sums that lose at the value.
fn sums_of_row(
    alloc: Global,
    matrix: &SumMatrix,
    row: &Row,
    value: bool,
) -> Result<Seq<usize>, NoMemory>
    requires { (whole matrix.now.voyage).has row.now ≡ true }
    ensures { IfOk result (AreSumsOf matrix.now.voyage matrix.now.numbering value row.now) }
{
    let sums = matrix.sums();
    sums.ship().obeys_rules();
    rows_are_in_range();
    let z = matrix.numbering();
    let mut list = Seq::new(alloc);
    let Some(parts) = sums.parts(row) else {
        return Ok(list);
    };
    if !names_place(sums.ship(), row) {
        return Ok(list);
    }
    note_all(z, &mut list, parts, value)?;
    Ok(list)
}

/// Appends the numbers of the next base row's sums that lose at the value.
fn push_row(
    alloc: Global,
    matrix: &SumMatrix,
    model: &Model,
    value: bool,
    lists: &mut FlatLists<usize>,
    k: u64,
) -> Result<(), NoMemory>
    requires voyage { matrix.now.voyage ≡ model.now }
    requires row { k < count model.now }
    requires before { AreRowSums model.now matrix.now.numbering value lists.old k }
    ensures { OnOk result (AreRowSums model.now matrix.now.numbering value lists.new (k + 1)) }
{
    let row = base_row(model, k);
    let sums = sums_of_row(alloc, matrix, &row, value)?;
    let pushed = lists.push(sums.as_slice());
    drop(sums);
    pushed
}

/// Appends those of each base row.
fn push_rows(
    alloc: Global,
    matrix: &SumMatrix,
    model: &Model,
    value: bool,
    lists: &mut FlatLists<usize>,
) -> Result<(), NoMemory>
    requires voyage { matrix.now.voyage ≡ model.now }
    requires none { AreRowSums model.now matrix.now.numbering value lists.old 0 }
    ensures { OnOk result (AreRowSums model.now matrix.now.numbering value lists.new (count model.now)) }
{
    for k in 0..model.base_rows() {
        push_row(alloc, matrix, model, value, lists, k)?;
    }
    Ok(())
}

/// For each base row the numbers of its sums that lose at the value.
pub(crate) fn rows_at(
    alloc: Global,
    matrix: &SumMatrix,
    model: &Model,
    value: bool,
) -> Result<FlatLists<usize>, NoMemory>
    requires { matrix.now.voyage ≡ model.now }
    ensures { IfOk result (λ lists. AreRowSums model.now matrix.now.numbering value lists (count model.now)) }
{
    let mut lists = FlatLists::new(alloc);
    match push_rows(alloc, matrix, model, value, &mut lists) {
        Ok(_) => Ok(lists),
        Err(no) => {
            drop(lists);
            Err(no)
        }
    }
}
