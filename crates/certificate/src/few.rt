//! Lists that are made once, and are mostly short.
ghost use Rattle.std.specs.Prelude.{◌≡◌, [], length, IfOk};
ghost use Rattle.certificate.specs.Few.{items_of};

use crate::kept_rows::{KeptRaise, KeptRow};
use std::alloc::Global;
use std::marker::Model;
use std::slice;
use stow_data::{NoMemory, Seq};
use zero_one_rows::{RaiseList, RowList};

/// A list that stays as it is made. It takes two words and the room of its items, and from two items on three words more; no room is spare. Contracts see the list of its items.
#[derive(Drop)]
pub struct Few<T> {
    kept: Kept<T>,
}

/// The items by their number.
#[derive(Drop)]
enum Kept<T> {
    Nothing,
    One(Box<T>),
    Many(Box<Vec<T>>),
}

impl<T> Model for Few<T> {
    ghost use Rattle.std.specs.Prelude.{List};
    ghost use Rattle.certificate.specs.Few.{items_of};

    ghost Value = { List T };

    ghost view = { λ f. items_of f.kept };
}

impl<T> Few<T> {
    /// The empty list. It takes no memory.
    pub fn none() -> Self
        ensures { result ≡ [] }
    {
        Few {
            kept: Kept::Nothing,
        }
    }
}

impl<T: Drop> Few<T> {
    /// A list of these items.
    pub fn of(alloc: Global, items: Seq<T>) -> Result<Self, NoMemory>
        ensures { IfOk result (λ few. few ≡ items) }
    {
        Ok(Few {
            kept: kept_of(alloc, items)?,
        })
    }
}

// The items as they are kept.
fn kept_of<T: Drop>(alloc: Global, items: Seq<T>) -> Result<Kept<T>, NoMemory>
    ensures { IfOk result (λ kept. items_of kept ≡ items) }
{
    let mut items = items.into_items();
    if items.len() > 1 {
        items.shrink_to_fit();
        return Ok(Kept::Many(Box::new(alloc, items)?));
    }
    match items.pop() {
        Some(item) => Ok(Kept::One(Box::new(alloc, item)?)),
        None => Ok(Kept::Nothing),
    }
}

impl Few<KeptRow> {
    /// The items.
    pub fn as_slice(&self) -> &[KeptRow]
        ensures { result.now ≡ self.now }
    {
        match &self.kept {
            Kept::Nothing => &[],
            Kept::One(item) => slice::from_ref(item),
            Kept::Many(items) => items.as_slice(),
        }
    }

    /// The number of items.
    pub fn len(&self) -> usize
        ensures { result ≡ length self.now }
    {
        self.as_slice().len()
    }

    /// The rows in a list.
    pub fn to_list(&self, alloc: Global) -> Result<RowList, NoMemory>
        ensures { IfOk result (λ rows. rows ≡ self.now) }
    {
        list_rows(alloc, self.as_slice())
    }
}

// Kept rows in a list.
fn list_rows(alloc: Global, kept: &[KeptRow]) -> Result<RowList, NoMemory>
    ensures { IfOk result (λ rows. rows ≡ kept.now) }
{
    let mut rows = RowList::new(alloc);
    for row in kept {
        rows.push(row.row())?;
    }
    Ok(rows)
}

impl Few<KeptRaise> {
    /// The items.
    pub fn as_slice(&self) -> &[KeptRaise]
        ensures { result.now ≡ self.now }
    {
        match &self.kept {
            Kept::Nothing => &[],
            Kept::One(item) => slice::from_ref(item),
            Kept::Many(items) => items.as_slice(),
        }
    }

    /// The number of items.
    pub fn len(&self) -> usize
        ensures { result ≡ length self.now }
    {
        self.as_slice().len()
    }

    /// The raises in a list.
    pub fn to_list(&self, alloc: Global) -> Result<RaiseList, NoMemory>
        ensures { IfOk result (λ raises. raises ≡ self.now) }
    {
        list_raises(alloc, self.as_slice())
    }
}

// Kept raises in a list.
fn list_raises(alloc: Global, kept: &[KeptRaise]) -> Result<RaiseList, NoMemory>
    ensures { IfOk result (λ raises. raises ≡ kept.now) }
{
    let mut raises = RaiseList::new(alloc);
    for raise in kept {
        raises.push(raise.raise())?;
    }
    Ok(raises)
}
