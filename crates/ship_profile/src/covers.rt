//! The hatch covers of a profile.
ghost use Rattle.std.specs.Prelude.{◌≡◌, ◌<◌, ◌^◌, ◌++◌, [], IfOk, OnOk, find, length};
ghost use Rattle.toml.specs.View.{array_view, items_view, table_view, view};
ghost use Rattle.toml_values.specs.Arrays.{each_of};
ghost use Rattle.ship_profile.specs.Keys.{Gives, entry_at, keyed, need};
ghost use Rattle.ship_profile.specs.Stacks.{is_among};
ghost use Rattle.ship_profile.specs.Covers.{all_named, cover_of, covers_in, covers_of, integer_of, named_by, newly_named, pair_in, pair_of, pairs_of};

use crate::faults::{ProfileFault, ProfileKey};
use crate::keys::keyed;
use crate::named_stacks::NamedStacks;
use crate::stack_finder::StackFinder;
use std::alloc::Global;
use stow_data::{Cover, CoverList, NoMemory, Seq, Stack, StackList, StackNo};
use toml::value::Array;
use toml::{Table, Value};
use toml_values::{Unread, array_of, table_of, tables_at, value_at};

/// A part of the ship.
#[derive(Clone, Copy, PartialEq, Eq)]
pub enum Part {
    Hold,
    Deck,
}

fn integer_of(value: &Value) -> Result<i64, Unread>
    ensures { result ≡ integer_of (view value.now) }
{
    match value {
        Value::Integer(number) => Ok(*number),
        _ => Err(Unread::BadValue),
    }
}

fn pair_in(items: &[Value]) -> Result<(i64, i64), Unread>
    ensures { result ≡ pair_in (items_view items.now) }
{
    match items {
        [bay, row] => Ok((integer_of(bay)?, integer_of(row)?)),
        _ => Err(Unread::BadValue),
    }
}

/// A pair of whole numbers: bay and row.
fn pair_of(value: &Value) -> Result<(i64, i64), Unread>
    ensures { result ≡ pair_of (view value.now) }
{
    let items = array_of(value)?;
    pair_in(items.as_slice())
}

fn all_pairs(
    alloc: Global,
    items: &Array,
    key: ProfileKey,
    index: u32,
) -> Result<Seq<(i64, i64)>, ProfileFault>
    ensures { Gives (λ pairs. pairs) result (keyed key index (each_of pair_of (array_view items.now))) }
{
    let mut pairs = Seq::new(alloc);
    for item in items {
        match pair_of(item) {
            Ok(pair) => pairs.push(pair)?,
            Err(unread) => return keyed(Err(unread), key, index),
        }
    }
    Ok(pairs)
}

fn pairs_of(
    alloc: Global,
    value: &Value,
    key: ProfileKey,
    index: u32,
) -> Result<Seq<(i64, i64)>, ProfileFault>
    ensures { Gives (λ pairs. pairs) result (keyed key index (pairs_of (view value.now))) }
{
    match array_of(value) {
        Ok(items) => all_pairs(alloc, items, key, index),
        Err(unread) => keyed(Err(unread), key, index),
    }
}

fn pairs_at(
    alloc: Global,
    entry: &Table,
    key: ProfileKey,
    index: u32,
) -> Result<Seq<(i64, i64)>, ProfileFault>
    ensures { Gives (λ pairs. pairs) result (need pairs_of key index (table_view entry.now)) }
{
    match value_at(entry, key.spelling()) {
        Ok(value) => pairs_of(alloc, value, key, index),
        Err(unread) => keyed(Err(unread), key, index),
    }
}

/// The first of these stacks that was named before.
fn named_again(named: &NamedStacks, these: &[StackNo]) -> Option<StackNo>
    ensures { result ≡ find (is_among named.now) these.now }
{
    these.iter().copied().find(|stack| named.has(*stack))
}

/// Appends stacks to a list.
fn append(list: &mut StackList, these: &[StackNo]) -> Result<(), NoMemory>
    ensures { OnOk result (list.new ≡ list.old ++ these.now) }
{
    for stack in these {
        list.push(*stack)?;
    }
    Ok(())
}

/// Appends stacks to those that are named.
fn name(named: &mut NamedStacks, these: &[StackNo]) -> Result<(), NoMemory>
    ensures { OnOk result (named.new ≡ named.old ++ these.now) }
{
    for stack in these {
        named.push(*stack)?;
    }
    Ok(())
}

/// Refuses stacks of which there is none, or of which one was named before.
fn newly_named(named: &NamedStacks, index: u32, these: &[StackNo]) -> Result<(), ProfileFault>
    ensures { Gives (λ _. these.now) result (newly_named index named.now these.now) }
{
    if these.is_empty() {
        return Err(ProfileFault::CoverUnknownStack { index });
    }
    match named_again(named, these) {
        Some(stack) => Err(ProfileFault::CoverTwice { stack }),
        None => Ok(()),
    }
}

/// The stacks that the pairs name, which also join those that covers named before.
#[tactic(auto, unfolding(crate::specs::Covers::all_named))]
fn all_named(
    alloc: Global,
    part: Part,
    stacks: &StackFinder<'_>,
    index: u32,
    named: &mut NamedStacks,
    pairs: &[(i64, i64)],
) -> Result<StackList, ProfileFault>
    ensures read { Gives (λ found. found) result (all_named part stacks.now index named.old [] pairs.now) }
    ensures joined { IfOk result (λ found. named.new ≡ named.old ++ found) }
{
    let mut found = StackList::new(alloc);
    for pair in pairs {
        let these = stacks.stacks_at(part, *pair);
        newly_named(named, index, these)?;
        name(named, these)?;
        append(&mut found, these)?;
    }
    Ok(found)
}

#[tactic(auto, unfolding(crate::specs::Covers::cover_of))]
fn cover_of(
    alloc: Global,
    stacks: &StackFinder<'_>,
    index: u32,
    named: &mut NamedStacks,
    entry: &Table,
) -> Result<Cover, ProfileFault>
    ensures read { Gives (λ cover. cover) result (cover_of stacks.now index named.old (table_view entry.now)) }
    ensures joined { IfOk result (λ cover. named.new ≡ named.old ++ (cover.under ++ cover.on)) }
{
    let pairs = pairs_at(alloc, entry, ProfileKey::Under, index)?;
    let under = all_named(alloc, Part::Hold, stacks, index, named, pairs.as_slice())?;
    let pairs = pairs_at(alloc, entry, ProfileKey::On, index)?;
    let on = all_named(alloc, Part::Deck, stacks, index, named, pairs.as_slice())?;
    Ok(Cover { under, on })
}

fn cover_at(
    alloc: Global,
    stacks: &StackFinder<'_>,
    index: u32,
    named: &mut NamedStacks,
    value: &Value,
) -> Result<Cover, ProfileFault>
    ensures read { Gives (λ cover. cover) result (entry_at ProfileKey.Cover (cover_of stacks.now index named.old) (view value.now)) }
    ensures joined { IfOk result (λ cover. named.new ≡ named.old ++ (cover.under ++ cover.on)) }
{
    match table_of(value) {
        Ok(entry) => cover_of(alloc, stacks, index, named, entry),
        Err(unread) => keyed(Err(unread), ProfileKey::Cover, 0),
    }
}

fn covers_of(
    alloc: Global,
    stacks: &StackFinder<'_>,
    entries: &Array,
) -> Result<CoverList, ProfileFault>
    ensures read { Gives (λ covers. covers) result (covers_of stacks.now (array_view entries.now)) }
    ensures few { IfOk result (λ covers. length covers < 2 ^ 32) }
{
    let mut covers = CoverList::new(alloc);
    let mut named = NamedStacks::new(alloc);
    let mut index: u32 = 1;
    for entry in entries {
        covers.push(cover_at(alloc, stacks, index, &mut named, entry)?)?;
        index = index.checked_add(1).ok_or(NoMemory)?;
    }
    Ok(covers)
}

/// The covers of a profile, of which there are fewer than 2^32.
#[tactic(auto, unfolding(toml_values::specs::Arrays::each_after))]
pub fn covers_in(alloc: Global, stacks: &[Stack], top: &Table) -> Result<CoverList, ProfileFault>
    requires { length stacks.now < 2 ^ 32 }
    ensures read { Gives (λ covers. covers) result (covers_in stacks.now (table_view top.now)) }
    ensures few { IfOk result (λ covers. length covers < 2 ^ 32) }
{
    match tables_at(top, "cover") {
        Ok(entries) => covers_of(alloc, &StackFinder::new(alloc, stacks)?, entries),
        Err(Unread::Missing) => Ok(CoverList::new(alloc)),
        Err(Unread::BadValue) => Err(ProfileFault::BadValue {
            key: ProfileKey::Cover,
            index: 0,
        }),
    }
}
