//! Numbers grouped by a key.
ghost use Rattle.std.specs.Prelude.{◌≡◌, ℕ, ◌+◌, ◌<◌, ◌^◌, ◌==◌, [], ◌∷◌, ◌++◌, cond, IfOk, OnOk, length, replicate, slice_index_or};
ghost use Rattle.zero_one_rows.specs.Grouping.{IsGrouped};

use std::alloc::Global;
use stow_data::{NoMemory, NumberList, Seq};

/// Lists of numbers, one for each key.
#[derive(Drop)]
pub struct Groups {
    lists: Vec<NumberList>,
}

impl std::marker::Model for Groups {
    ghost use Rattle.std.specs.Prelude.{ℕ, List};

    ghost Value = { List (List ℕ) };

    ghost view = { λ g. g.lists.items };
}

/// So many empty lists.
fn empty_lists(alloc: Global, count: usize) -> Result<Vec<NumberList>, NoMemory>
    ensures { IfOk result (λ v. v.items ≡ replicate count []) }
{
    let mut lists = Vec::new(alloc);
    for _key in 0..count {
        lists.push(Seq::new(alloc))?;
    }
    Ok(lists)
}

/// Appends a number to the list of its key, where there is such a key.
fn file(lists: &mut Vec<NumberList>, key: usize, number: u32) -> Result<(), NoMemory>
    ensures each { OnOk result (length lists.new.items ≡ length lists.old.items) }
    ensures of { OnOk result ((k : ℕ) → k < length lists.old.items → slice_index_or lists.new.items k [] ≡ slice_index_or lists.old.items k [] ++ cond (key == k) (number ∷ []) []) }
{
    if key >= lists.len() {
        return Ok(());
    }
    lists[key].push(number)
}

/// The indexes of each of so many keys, in order.
pub fn group(alloc: Global, keys: &[usize], count: usize) -> Result<Groups, NoMemory>
    requires { length keys.now < 2 ^ 32 }
    ensures { IfOk result (λ groups. IsGrouped keys.now count groups) }
{
    let mut lists = empty_lists(alloc, count)?;
    for (index, key) in keys.iter().enumerate() {
        file(&mut lists, *key, index as u32)?;
    }
    Ok(Groups { lists })
}

impl Groups {
    /// The numbers of a key; none where there is no such key.
    pub fn of(&self, key: usize) -> &[u32]
        ensures { result.now ≡ slice_index_or self.now key [] }
    {
        if key >= self.lists.len() {
            return &[];
        }
        self.lists[key].as_slice()
    }
}
