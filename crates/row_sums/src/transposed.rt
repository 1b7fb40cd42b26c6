//! Which lists each number stands in.
ghost use Rattle.std.specs.Prelude.{◌≡◌, ℕ, ◌-◌, ◌<◌, ◌||◌, List, [], ◌∷◌, ◌++◌, Bool, Some, All, IsTrue, IfOk, OnOk, ◌↔◌, cond, length, nat_eq, replicate, slice_get, slice_index_or};
ghost use Rattle.std.specs.List.{list_any};
ghost use Rattle.row_sums.specs.Transposed.{IsTransposed};

use crate::lists::FlatLists;
use std::alloc::Global;
use stow_data::{NoMemory, Seq};

/// So many empty lists.
fn empty_lists(alloc: Global, count: usize) -> Result<Vec<Seq<usize>>, NoMemory>
    ensures { IfOk result (λ v. v.items ≡ replicate count []) }
{
    let mut lists = Vec::new(alloc);
    for _key in 0..count {
        lists.push(Seq::new(alloc))?;
    }
    Ok(lists)
}

/// Whether a list ends with this number.
fn ends_with(list: &[usize], number: usize) -> bool
    ensures { IsTrue result ↔ (slice_get list.now (length list.now - 1) ≡ Some number) }
{
    let count = list.len();
    if count == 0 {
        return false;
    }
    list[count - 1] == number
}

/// Appends a number to a list of lower ones, where it doesn't stand there yet.
fn append_once(list: &mut Seq<usize>, number: usize) -> Result<(), NoMemory>
    ensures { OnOk result ((before : List ℕ) (there : Bool) → All (λ w. w < number) before → list.old ≡ before ++ cond there (number ∷ []) [] → list.new ≡ before ++ number ∷ []) }
{
    if ends_with(list.as_slice(), number) {
        return Ok(());
    }
    list.push(number)
}

/// Appends a number to the list of a key, where there is such a key.
fn file(lists: &mut Vec<Seq<usize>>, key: usize, number: usize) -> Result<(), NoMemory>
    ensures each { OnOk result (length lists.new.items ≡ length lists.old.items) }
    ensures of { OnOk result ((k : ℕ) (before : List ℕ) (there : Bool) → k < length lists.old.items → All (λ w. w < number) before → slice_index_or lists.old.items k [] ≡ before ++ cond there (number ∷ []) [] → slice_index_or lists.new.items k [] ≡ before ++ cond (there || nat_eq k key) (number ∷ []) []) }
{
    if key >= lists.len() {
        return Ok(());
    }
    append_once(&mut lists[key], number)
}

/// Appends a number to the lists of several keys.
fn file_all(lists: &mut Vec<Seq<usize>>, keys: &[usize], number: usize) -> Result<(), NoMemory>
    ensures each { OnOk result (length lists.new.items ≡ length lists.old.items) }
    ensures of { OnOk result ((k : ℕ) → k < length lists.old.items → All (λ w. w < number) (slice_index_or lists.old.items k []) → slice_index_or lists.new.items k [] ≡ slice_index_or lists.old.items k [] ++ cond (list_any (nat_eq k) keys.now) (number ∷ []) []) }
{
    for key in keys {
        file(lists, *key, number)?;
    }
    Ok(())
}

/// The lists one after the other in one array.
fn joined(alloc: Global, lists: &[Seq<usize>]) -> Result<FlatLists<usize>, NoMemory>
    ensures { IfOk result (λ flat. flat ≡ lists.now) }
{
    let mut flat = FlatLists::new(alloc);
    for list in lists {
        flat.push(list.as_slice())?;
    }
    Ok(flat)
}

impl FlatLists<usize> {
    /// For each number below `count` the lists that have it, rising, each once; in time of the items.
    pub fn transposed(&self, alloc: Global, count: usize) -> Result<FlatLists<usize>, NoMemory>
        ensures { IfOk result (λ turned. IsTransposed self.now count turned) }
    {
        let mut turned = empty_lists(alloc, count)?;
        for index in 0..self.len() {
            file_all(&mut turned, self.at(index), index)?;
        }
        joined(alloc, turned.as_slice())
    }
}
