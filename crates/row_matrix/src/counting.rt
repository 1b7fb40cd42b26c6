//! What variables count in the sums that hold them.
ghost use Rattle.std.specs.Prelude.{◌≡◌, ℕ, ◌<◌, ◌≤◌, ◌^◌, ◌++◌, ◌∷◌, [], All, IfOk, OnOk, length, map, slice_index_or};
ghost use Rattle.zero_one_rows.specs.Variables.{variables};
ghost use Rattle.row_sums.specs.Numbers.{numbers};
ghost use Rattle.row_matrix.specs.Counted.{counted, weighs, all_weights, entry_by, share_of, AreEntries, AreShares};

use crate::entries::{Entry, Share};
use row_sums::{FlatLists, Numbering, RowSums, SumMatrix};
use std::alloc::Global;
use stow_data::{NoMemory, Seq, VarNo};
use zero_one_rows::{Var, kind_at, variables_stand_once};

/// Whether a number is that of a sum of weights.
fn is_of_weights(z: Numbering, number: usize) -> bool
    ensures { result ≡ weighs z number }
{
    if z.width == 0 || z.calls == 0 {
        return false;
    }
    number / z.width / z.calls == 8
}

/// What a variable of this weight counts in a sum.
fn count_in(z: Numbering, number: usize, weight: u32) -> u32
    ensures { result ≡ counted z number weight }
{
    if is_of_weights(z, number) { weight } else { 1 }
}

/// The rounded weight of each variable's kind.
pub(crate) fn weights_of(alloc: Global, sums: &RowSums, vars: &[Var]) -> Result<Seq<u32>, NoMemory>
    requires { vars.now ≡ variables sums.now }
    ensures { IfOk result (λ ws. ws ≡ all_weights sums.now) }
{
    variables_stand_once();
    let mut weights = Seq::new(alloc);
    for x in vars {
        weights.push(kind_at(sums.kinds(), x.kind).kg)?;
    }
    Ok(weights)
}

/// The entry of a variable in a sum.
fn entry(z: Numbering, number: usize, weights: &[u32], v: usize) -> Entry
    requires inside { v < length weights.now }
    requires few { length weights.now ≤ 200000 }
    ensures { result ≡ entry_by z number weights.now v }
{
    Entry {
        at: VarNo(v as u32),
        by: count_in(z, number, weights[v]),
    }
}

/// The entries of a sum.
fn entries_of(
    alloc: Global,
    z: Numbering,
    number: usize,
    weights: &[u32],
    vars: &[usize],
) -> Result<Seq<Entry>, NoMemory>
    requires inside { All (λ v. v < length weights.now) vars.now }
    requires few { length weights.now ≤ 200000 }
    ensures { IfOk result (λ es. es ≡ map (entry_by z number weights.now) vars.now) }
{
    let mut entries = Seq::new(alloc);
    for v in vars {
        entries.push(entry(z, number, weights, *v))?;
    }
    Ok(entries)
}

/// Appends the entries of a sum.
fn push_entries(
    alloc: Global,
    z: Numbering,
    number: usize,
    weights: &[u32],
    vars: &[usize],
    lists: &mut FlatLists<Entry>,
) -> Result<(), NoMemory>
    requires inside { All (λ v. v < length weights.now) vars.now }
    requires few { length weights.now ≤ 200000 }
    ensures { OnOk result (lists.new ≡ lists.old ++ map (entry_by z number weights.now) vars.now ∷ []) }
{
    let entries = entries_of(alloc, z, number, weights, vars)?;
    let pushed = lists.push(entries.as_slice());
    drop(entries);
    pushed
}

/// Appends the entries of each sum.
fn push_all_entries(
    alloc: Global,
    matrix: &SumMatrix,
    weights: &[u32],
    lists: &mut FlatLists<Entry>,
) -> Result<(), NoMemory>
    requires weights { weights.now ≡ all_weights matrix.now.voyage }
    requires few { length weights.now ≤ 200000 }
    requires empty { lists.old ≡ [] }
    ensures { OnOk result (AreEntries matrix.now.voyage matrix.now.numbering lists.new) }
{
    let z = matrix.numbering();
    for number in 0..z.numbers() {
        push_entries(alloc, z, number, weights, matrix.variables(number), lists)?;
    }
    Ok(())
}

/// The entries of each sum.
pub(crate) fn all_entries(
    alloc: Global,
    matrix: &SumMatrix,
    weights: &[u32],
) -> Result<FlatLists<Entry>, NoMemory>
    requires weights { weights.now ≡ all_weights matrix.now.voyage }
    requires few { length weights.now ≤ 200000 }
    ensures { IfOk result (AreEntries matrix.now.voyage matrix.now.numbering) }
{
    let mut lists = FlatLists::new(alloc);
    match push_all_entries(alloc, matrix, weights, &mut lists) {
        Ok(_) => Ok(lists),
        Err(no) => {
            drop(lists);
            Err(no)
        }
    }
}

/// The shares of a variable of this weight in these sums.
fn shares_of(
    alloc: Global,
    z: Numbering,
    weight: u32,
    sums: &[usize],
) -> Result<Seq<Share>, NoMemory>
    ensures { IfOk result (λ ss. ss ≡ map (share_of z weight) sums.now) }
{
    let mut shares = Seq::new(alloc);
    for number in sums {
        shares.push(Share {
            sum: *number,
            by: count_in(z, *number, weight),
        })?;
    }
    Ok(shares)
}

/// Appends the shares of a variable.
fn push_shares(
    alloc: Global,
    z: Numbering,
    weight: u32,
    sums: &[usize],
    lists: &mut FlatLists<Share>,
) -> Result<(), NoMemory>
    ensures { OnOk result (lists.new ≡ lists.old ++ map (share_of z weight) sums.now ∷ []) }
{
    let shares = shares_of(alloc, z, weight, sums)?;
    let pushed = lists.push(shares.as_slice());
    drop(shares);
    pushed
}

/// Appends the shares of each variable.
fn push_all_shares(
    alloc: Global,
    matrix: &SumMatrix,
    weights: &[u32],
    lists: &mut FlatLists<Share>,
) -> Result<(), NoMemory>
    requires weights { weights.now ≡ all_weights matrix.now.voyage }
    requires empty { lists.old ≡ [] }
    ensures { OnOk result ((v : ℕ) → v < length (variables matrix.now.voyage) → AreShares matrix.now.voyage matrix.now.numbering v (slice_index_or lists.new v [])) }
{
    let z = matrix.numbering();
    for weight in weights {
        push_shares(alloc, z, *weight, matrix.sums_of(lists.len()), lists)?;
    }
    Ok(())
}

/// The shares of each variable.
pub(crate) fn all_shares(
    alloc: Global,
    matrix: &SumMatrix,
    weights: &[u32],
) -> Result<FlatLists<Share>, NoMemory>
    requires weights { weights.now ≡ all_weights matrix.now.voyage }
    ensures { IfOk result (λ lists. (v : ℕ) → v < length (variables matrix.now.voyage) → AreShares matrix.now.voyage matrix.now.numbering v (slice_index_or lists v [])) }
{
    let mut lists = FlatLists::new(alloc);
    match push_all_shares(alloc, matrix, weights, &mut lists) {
        Ok(_) => Ok(lists),
        Err(no) => {
            drop(lists);
            Err(no)
        }
    }
}
