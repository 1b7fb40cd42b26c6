//! Lists in one array.
ghost use Rattle.row_sums.specs.Cut.{begins};
ghost use Rattle.std.specs.Prelude.{◌≡◌, ◌<◌, ◌≤◌, [], ◌∷◌, ◌++◌, IfOk, OnErr, OnOk, length, is_ok, slice_index_or, slice_range, if◌then◌else◌};

use std::alloc::Global;
use std::marker::Model;
use stow_data::NoMemory;

/// Where a list begins: at the end of the one before.
fn begin_of(ends: &[usize], index: usize) -> usize
    requires { index ≤ length ends.now }
    ensures { result ≡ begins 0 ends.now index }
{
    if index == 0 {
        return 0;
    }
    ends[index - 1]
}

/// The items from one index up to another.
fn part<T>(items: &[T], from: usize, to: usize) -> &[T]
    requires rise { from ≤ to }
    requires within { to ≤ length items.now }
    ensures { result.now ≡ slice_range items.now from to }
{
    &items[from..to]
}

/// Lists that lie one after the other in one array, each to be read as a slice by its number. Contracts see the lists.
#[derive(Drop)]
pub struct FlatLists<T> {
    ends: Vec<usize>,
    items: Vec<T>,
}

impl<T> Model for FlatLists<T> {
    ghost use Rattle.std.specs.Prelude.{List};

    ghost Value = { List (List T) };

    ghost use Rattle.row_sums.specs.Cut.{lists_in, IsCut};

    ghost view = { λ a. lists_in a.ends.items a.items.items };

    ghost invariant = { λ a. IsCut a.ends.items a.items.items };
}

impl<T> FlatLists<T> {
    /// No lists. They take no memory.
    pub fn new(alloc: Global) -> Self
        ensures { result ≡ [] }
    {
        FlatLists {
            ends: Vec::new(alloc),
            items: Vec::new(alloc),
        }
    }

    /// The number of lists.
    pub fn len(&self) -> usize
        ensures { result ≡ length self.now }
    {
        let ends = self.ends.as_slice();
        ends.len()
    }

    /// A list, from 0; empty where there is no such list.
    pub fn at(&self, index: usize) -> &[T]
        ensures { result.now ≡ slice_index_or self.now index [] }
    {
        let ends = self.ends.as_slice();
        if index >= ends.len() {
            return &[];
        }
        let from = begin_of(ends, index);
        let to = ends[index];
        part(self.items.as_slice(), from, to)
    }
}

impl<T: Copy> FlatLists<T> {
    /// Appends a list. What was there stays where memory is wanting.
    pub fn push(&mut self, list: &[T]) -> Result<(), NoMemory>
        ensures { self.new ≡ (if is_ok result then self.old ++ list.now ∷ [] else self.old) }
    {
        append(&mut self.ends, &mut self.items, list)
    }
}

/// Appends a list and its end.
fn append<T: Copy>(ends: &mut Vec<usize>, items: &mut Vec<T>, list: &[T]) -> Result<(), NoMemory>
    ensures items { items.new.items ≡ (if is_ok result then items.old.items ++ list.now else items.old.items) }
    ensures ends { ends.new.items ≡ (if is_ok result then ends.old.items ++ length items.new.items ∷ [] else ends.old.items) }
{
    let before = items.len();
    items.extend_from_slice(list)?;
    match ends.push(items.len()) {
        Ok(_) => Ok(()),
        Err(_) => {
            items.truncate(before);
            Err(NoMemory)
        }
    }
}
