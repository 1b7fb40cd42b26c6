//! Which hatch cover lies over a stack, and which one lies under it.
ghost use Rattle.std.specs.Prelude.{◌≡◌, ◌<◌, ℕ, All, Contains, None, Some, IfOk, length, slice_get};
ghost use Rattle.stow_data.specs.CoverTable.{listed, IsCoverTable};

use crate::geometry::{Cover, StackList};
use crate::list::{NoMemory, Seq};
use crate::numbers::{CoverNo, StackNo};
use std::alloc::Global;

/// How a cover names a stack: as one that lies under it, or as one that stands on it.
#[derive(Clone, Copy)]
pub enum Naming {
    Under,
    On,
}

/// The stacks that a cover names in this way.
fn stacks_of(cover: &Cover, naming: Naming) -> &StackList
    ensures { result.now ≡ listed naming cover.now }
{
    match naming {
        Naming::Under => &cover.under,
        Naming::On => &cover.on,
    }
}

/// Makes the table lead from these stacks to this cover.
fn enter(table: &mut Seq<Option<CoverNo>>, stacks: &[StackNo], cover: CoverNo)
    requires { All (λ s. s < length table.old) stacks.now }
    ensures same_length { length table.new ≡ length table.old }
    ensures these { (s : ℕ) → Contains stacks.now s → slice_get table.new s ≡ Some (Some cover) }
    ensures others { (s : ℕ) → (Contains stacks.now s → ⊥) → slice_get table.new s ≡ slice_get table.old s }
{
    for stack in stacks {
        table.set(stack.0 as usize, Some(cover));
    }
}

/// The table that leads from each stack to the cover that names it in this way.
pub fn cover_table(
    alloc: Global,
    stacks: usize,
    covers: &[Cover],
    naming: Naming,
) -> Result<Seq<Option<CoverNo>>, NoMemory>
    requires { All (λ c. All (λ s. s < stacks) (listed naming c)) covers.now }
    ensures each { IfOk result (λ table. length table ≡ stacks) }
    ensures leads { IfOk result (λ table. IsCoverTable covers.now naming table) }
{
    let mut table = Seq::filled(alloc, None, stacks)?;
    let mut number: u32 = 0;
    for cover in covers {
        enter(&mut table, stacks_of(cover, naming), CoverNo(number));
        number = number.checked_add(1).ok_or(NoMemory)?;
    }
    Ok(table)
}
