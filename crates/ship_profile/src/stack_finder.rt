//! Finds the stacks at a bay and row.
ghost use Rattle.std.specs.Prelude.{◌≡◌, ◌<◌, ◌^◌, ◌∷◌, ◌++◌, [], IfOk, OnOk, None, if◌then◌else◌, length};
ghost use Rattle.std.specs.BTreeMap.{get, is_at};
ghost use Rattle.ship_profile.specs.Covers.{stacks_at};
ghost use Rattle.ship_profile.specs.Positions.{IsStackTable, listed_at, position_order};

use crate::covers::Part;
use crate::position::{Position, position_in, position_of};
use std::alloc::Global;
use std::collections::BTreeMap;
use std::marker::Model;
use stow_data::{NoMemory, Stack, StackList, StackNo};

/// The stacks of a ship, which are found by where they stand. Contracts see their list.
#[derive(Drop)]
pub struct StackFinder<'a> {
    stacks: &'a [Stack],
    table: BTreeMap<Position, StackList>,
}

impl<'a> Model for StackFinder<'a> {
    ghost use Rattle.std.specs.Prelude.{List};
    ghost use Rattle.stow_data.specs.declared.geometry.Stack.{Stack};
    ghost use Rattle.ship_profile.specs.Positions.{IsStackTable};

    ghost Value = { List Stack };

    ghost view = { λ f. f.stacks.now };

    ghost invariant = { λ f. IsStackTable f.table f.stacks.now };
}

/// Takes the stacks at a position out of the table.
fn take_out(
    alloc: Global,
    table: &mut BTreeMap<Position, StackList>,
    position: Position,
) -> StackList
    ensures stacks { result ≡ listed_at table.old position }
    ensures others { (q : Position) → get position_order table.new q ≡ (if is_at (position_order position) q then None else get position_order table.old q) }
{
    match table.remove(&position) {
        Some(stacks) => stacks,
        None => StackList::new(alloc),
    }
}

/// Appends a stack to those that the table leads to from a position.
fn enter(
    alloc: Global,
    table: &mut BTreeMap<Position, StackList>,
    position: Position,
    stack: StackNo,
) -> Result<(), NoMemory>
    ensures { OnOk result ((q : Position) → listed_at table.new q ≡ (if is_at (position_order position) q then listed_at table.old q ++ stack ∷ [] else listed_at table.old q)) }
{
    let mut stacks = take_out(alloc, table, position);
    stacks.push(stack)?;
    table.insert(position, stacks)?;
    Ok(())
}

fn table_of(alloc: Global, stacks: &[Stack]) -> Result<BTreeMap<Position, StackList>, NoMemory>
    requires { length stacks.now < 2 ^ 32 }
    ensures { IfOk result (λ table. IsStackTable table stacks.now) }
{
    let mut table = BTreeMap::new(alloc);
    for (number, stack) in stacks.iter().enumerate() {
        let position = position_in(stack.bay, stack);
        enter(alloc, &mut table, position, StackNo(number as u32))?;
    }
    Ok(table)
}

impl<'a> StackFinder<'a> {
    /// A finder of these stacks.
    pub fn new(alloc: Global, stacks: &'a [Stack]) -> Result<Self, NoMemory>
        requires { length stacks.now < 2 ^ 32 }
        ensures { IfOk result (λ finder. finder ≡ stacks.now) }
    {
        let table = table_of(alloc, stacks)?;
        Ok(StackFinder { stacks, table })
    }

    /// The numbers of the stacks in one part of the ship that stand at a bay and row.
    pub fn stacks_at(&self, part: Part, pair: (i64, i64)) -> &[StackNo]
        ensures { result.now ≡ stacks_at part self.now pair }
    {
        match self.table.get(&position_of(part, pair)) {
            Some(stacks) => stacks.as_slice(),
            None => &[],
        }
    }
}
