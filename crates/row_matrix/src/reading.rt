//! The terms of rows, read by their sums.
ghost use Rattle.std.specs.Prelude.{◌≡◌, ◌≤◌, ◌^◌, ◌++◌, All, OnOk, map, slice_index_or, unsigned_abs, [], true, false};
ghost use Rattle.row_matrix.specs.Counted.{term_of, terms_of, row_terms_of};

use crate::entries::{Entry, Term};
use crate::signed::SignedRows;
use row_sums::FlatLists;
use stow_data::NoMemory;

/// An entry of a sum that stands in a row with plus, or with minus.
fn term(entry: Entry, minus: bool) -> Term
    requires { unsigned_abs (term_of minus entry).by ≤ 2 ^ 17 }
    ensures { result ≡ term_of minus entry }
{
    let by = entry.by as i32;
    Term {
        at: entry.at,
        by: if minus { 0 - by } else { by },
    }
}

/// Appends the terms of one sum.
fn append_sum(terms: &mut Vec<Term>, entries: &[Entry], minus: bool) -> Result<(), NoMemory>
    requires { All (λ t. unsigned_abs t.by ≤ 2 ^ 17) (map (term_of minus) entries.now) }
    ensures { OnOk result (terms.new.items ≡ terms.old.items ++ map (term_of minus) entries.now) }
{
    for entry in entries {
        terms.push(term(*entry, minus))?;
    }
    Ok(())
}

/// Appends the terms of several sums.
fn append_sums(
    terms: &mut Vec<Term>,
    entries: &FlatLists<Entry>,
    sums: &[usize],
    minus: bool,
) -> Result<(), NoMemory>
    requires { All (λ t. unsigned_abs t.by ≤ 2 ^ 17) (terms_of minus entries.now sums.now) }
    ensures { OnOk result (terms.new.items ≡ terms.old.items ++ terms_of minus entries.now sums.now) }
{
    for sum in sums {
        append_sum(terms, entries.at(*sum), minus)?;
    }
    Ok(())
}

/// The terms of the row with this number, in place of what the list holds: those of its sums with plus, and then those with minus.
pub(crate) fn list_terms(
    terms: &mut Vec<Term>,
    entries: &FlatLists<Entry>,
    rows: &SignedRows,
    k: usize,
) -> Result<(), NoMemory>
    requires { All (λ t. unsigned_abs t.by ≤ 2 ^ 17) (row_terms_of entries.now rows.now k) }
    ensures { OnOk result (terms.new.items ≡ row_terms_of entries.now rows.now k) }
{
    terms.truncate(0);
    append_sums(terms, entries, rows.plus.at(k), false)?;
    append_sums(terms, entries, rows.minus.at(k), true)
}
