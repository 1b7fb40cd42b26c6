//! The stacks of a profile.
ghost use Rattle.std.specs.Prelude.{◌≡◌, ◌<◌, ◌≤◌, ◌^◌, [], IfOk, length, map};
ghost use Rattle.std.specs.List.{list_all};
ghost use Rattle.toml.specs.View.{array_view, table_view, view};
ghost use Rattle.toml_values.specs.Values.{at_key, number_of};
ghost use Rattle.toml_values.specs.Arrays.{each_of};
ghost use Rattle.ship_profile.specs.Keys.{Gives, entry_at, keyed, may, need, spelling};
ghost use Rattle.ship_profile.specs.Stacks.{are_tiers, bay_of, column_of, is_among, is_deck_tier, is_even, is_hold_tier, lengths_named, lengths_of, plug_of, plugs_of, rises_from, stack_of, stacks_in, stacks_of, tiers_of};

use crate::faults::{ProfileFault, ProfileKey};
use crate::keys::{keyed, needed_number, some_tables_at};
use std::alloc::Global;
use stow_data::{FlagList, Lengths, NoMemory, NumberList, Stack, Stacks};
use toml::value::Array;
use toml::{Table, Value};
use toml_values::{Unread, array_of, number_of, table_of, text_of, value_at};

/// An even bay number.
fn bay_of(value: &Value) -> Result<u32, Unread>
    ensures { result ≡ bay_of (view value.now) }
{
    let bay = number_of(value, 2, 998)?;
    if bay % 2 == 0 {
        Ok(bay)
    } else {
        Err(Unread::BadValue)
    }
}

fn bay_at(entry: &Table) -> Result<u32, Unread>
    ensures { result ≡ at_key bay_of (spelling ProfileKey.Bay) (table_view entry.now) }
{
    bay_of(value_at(entry, "bay")?)
}

/// The whole numbers of an array, where each may be the number of a tier.
fn numbers_of(alloc: Global, items: &Array, index: u32) -> Result<NumberList, ProfileFault>
    ensures { Gives (λ numbers. numbers) result (keyed ProfileKey.Tiers index (each_of (number_of 2 98) (array_view items.now))) }
{
    let mut numbers = NumberList::new(alloc);
    for item in items {
        match number_of(item, 2, 98) {
            Ok(number) => numbers.push(number)?,
            Err(unread) => return keyed(Err(unread), ProfileKey::Tiers, index),
        }
    }
    Ok(numbers)
}

fn are_all_even(tiers: &[u32]) -> bool
    ensures { result ≡ list_all is_even tiers.now }
{
    tiers.iter().all(|tier| *tier % 2 == 0)
}

fn are_all_in_hold(tiers: &[u32]) -> bool
    ensures { result ≡ list_all is_hold_tier tiers.now }
{
    tiers.iter().all(|tier| matches!(*tier, 2..=78))
}

fn are_all_on_deck(tiers: &[u32]) -> bool
    ensures { result ≡ list_all is_deck_tier tiers.now }
{
    tiers.iter().all(|tier| matches!(*tier, 80..=98))
}

/// Whether these may be the tiers of a stack: at least one, even, and all in the hold or all on deck.
fn are_tiers(tiers: &[u32]) -> bool
    ensures { result ≡ are_tiers tiers.now }
{
    if tiers.is_empty() || !are_all_even(tiers) {
        return false;
    }
    are_all_in_hold(tiers) || are_all_on_deck(tiers)
}

fn tiers_of(alloc: Global, value: &Value, index: u32) -> Result<NumberList, ProfileFault>
    ensures { Gives (λ tiers. tiers) result (keyed ProfileKey.Tiers index (tiers_of (view value.now))) }
{
    let items = match array_of(value) {
        Ok(items) => items,
        Err(unread) => return keyed(Err(unread), ProfileKey::Tiers, index),
    };
    let tiers = numbers_of(alloc, items, index)?;
    if are_tiers(tiers.as_slice()) {
        Ok(tiers)
    } else {
        keyed(Err(Unread::BadValue), ProfileKey::Tiers, index)
    }
}

fn tiers_at(alloc: Global, entry: &Table, index: u32) -> Result<NumberList, ProfileFault>
    ensures { Gives (λ tiers. tiers) result (need tiers_of ProfileKey.Tiers index (table_view entry.now)) }
{
    match value_at(entry, "tiers") {
        Ok(value) => tiers_of(alloc, value, index),
        Err(unread) => keyed(Err(unread), ProfileKey::Tiers, index),
    }
}

/// Whether the tiers rise by 2 each, from this one.
fn rises_from(lowest: u32, tiers: &[u32]) -> bool
    ensures { result ≡ rises_from lowest tiers.now }
{
    let mut next = u64::from(lowest);
    for tier in tiers {
        if u64::from(*tier) != next {
            return false;
        }
        next += 2;
    }
    true
}

fn lengths_named(text: &[u8]) -> Result<Lengths, Unread>
    ensures { result ≡ lengths_named text.now }
{
    if text == b"40".as_slice() {
        Ok(Lengths::Forty)
    } else if text == b"20".as_slice() {
        Ok(Lengths::Twenty)
    } else if text == b"20/40".as_slice() {
        Ok(Lengths::Mixed)
    } else if text == b"fore".as_slice() {
        Ok(Lengths::ForeOnly)
    } else if text == b"aft".as_slice() {
        Ok(Lengths::AftOnly)
    } else {
        Err(Unread::BadValue)
    }
}

fn lengths_at(entry: &Table) -> Result<Lengths, Unread>
    ensures { result ≡ at_key lengths_of (spelling ProfileKey.Lengths) (table_view entry.now) }
{
    let text = text_of(value_at(entry, "lengths")?)?;
    lengths_named(text)
}

fn is_among(numbers: &[u32], number: u32) -> bool
    ensures { result ≡ is_among numbers.now number }
{
    numbers.iter().any(|n| *n == number)
}

fn plug_of(tiers: &[u32], value: &Value) -> Result<u32, Unread>
    ensures { result ≡ plug_of tiers.now (view value.now) }
{
    let tier = number_of(value, 2, 98)?;
    if is_among(tiers, tier) {
        Ok(tier)
    } else {
        Err(Unread::BadValue)
    }
}

fn plug_tiers(
    alloc: Global,
    tiers: &[u32],
    items: &Array,
    index: u32,
) -> Result<NumberList, ProfileFault>
    ensures { Gives (λ plugs. plugs) result (keyed ProfileKey.Plugs index (each_of (plug_of tiers.now) (array_view items.now))) }
{
    let mut plugs = NumberList::new(alloc);
    for item in items {
        match plug_of(tiers, item) {
            Ok(plug) => plugs.push(plug)?,
            Err(unread) => return keyed(Err(unread), ProfileKey::Plugs, index),
        }
    }
    Ok(plugs)
}

fn plugs_of(
    alloc: Global,
    tiers: &[u32],
    value: &Value,
    index: u32,
) -> Result<NumberList, ProfileFault>
    ensures { Gives (λ plugs. plugs) result (keyed ProfileKey.Plugs index (plugs_of tiers.now (view value.now))) }
{
    match array_of(value) {
        Ok(items) => plug_tiers(alloc, tiers, items, index),
        Err(unread) => keyed(Err(unread), ProfileKey::Plugs, index),
    }
}

fn plugs_at(
    alloc: Global,
    tiers: &[u32],
    entry: &Table,
    index: u32,
) -> Result<NumberList, ProfileFault>
    ensures { Gives (λ plugs. plugs) result (need (plugs_of tiers.now) ProfileKey.Plugs index (table_view entry.now)) }
{
    match value_at(entry, "plugs") {
        Ok(value) => plugs_of(alloc, tiers, value, index),
        Err(unread) => keyed(Err(unread), ProfileKey::Plugs, index),
    }
}

/// The tiers with a plug; none where the key is missing.
fn plugs_or_none(
    alloc: Global,
    tiers: &[u32],
    entry: &Table,
    index: u32,
) -> Result<NumberList, ProfileFault>
    ensures { Gives (λ plugs. plugs) result (may (plugs_of tiers.now) [] ProfileKey.Plugs index (table_view entry.now)) }
{
    match plugs_at(alloc, tiers, entry, index) {
        Ok(plugs) => Ok(plugs),
        Err(ProfileFault::Missing { .. }) => Ok(NumberList::new(alloc)),
        Err(fault) => Err(fault),
    }
}

/// For each tier, whether it has a plug.
fn plug_flags(alloc: Global, tiers: &[u32], plugs: &[u32]) -> Result<FlagList, NoMemory>
    ensures { IfOk result (λ flags. flags ≡ map (is_among plugs.now) tiers.now) }
{
    let mut flags = FlagList::new(alloc);
    for tier in tiers {
        flags.push(is_among(plugs, *tier))?;
    }
    Ok(flags)
}

/// The tiers of an entry: at least one, and at most 98.
#[tactic(auto, unfolding(crate::specs::Stacks::column_of))]
fn column_of(alloc: Global, index: u32, entry: &Table) -> Result<NumberList, ProfileFault>
    ensures read { Gives (λ tiers. tiers) result (column_of index (table_view entry.now)) }
    ensures some { IfOk result (λ tiers. 1 ≤ length tiers) }
    ensures few { IfOk result (λ tiers. length tiers ≤ 98) }
{
    let tiers = tiers_at(alloc, entry, index)?;
    if rises_from(*tiers.at(0), tiers.as_slice()) {
        Ok(tiers)
    } else {
        Err(ProfileFault::GapInStack { index })
    }
}

#[tactic(auto, unfolding(crate::specs::Stacks::stack_of))]
fn stack_of(alloc: Global, index: u32, entry: &Table) -> Result<Stack, ProfileFault>
    ensures { Gives (λ s. s) result (stack_of index (table_view entry.now)) }
{
    let bay = keyed(bay_at(entry), ProfileKey::Bay, index)?;
    let row = needed_number(entry, ProfileKey::Row, index, 0, 99)?;
    let tiers = column_of(alloc, index, entry)?;
    let lengths = keyed(lengths_at(entry), ProfileKey::Lengths, index)?;
    let limit_kg = needed_number(entry, ProfileKey::LimitKg, index, 1, 1_000_000)?;
    let plugs = plugs_or_none(alloc, tiers.as_slice(), entry, index)?;
    let flags = plug_flags(alloc, tiers.as_slice(), plugs.as_slice())?;
    Ok(Stack {
        bay,
        row,
        lowest: *tiers.at(0),
        tiers: tiers.len() as u32,
        lengths,
        limit_kg,
        plugs: flags,
    })
}

fn stack_at(alloc: Global, index: u32, value: &Value) -> Result<Stack, ProfileFault>
    ensures { Gives (λ s. s) result (entry_at ProfileKey.Stack (stack_of index) (view value.now)) }
{
    match table_of(value) {
        Ok(entry) => stack_of(alloc, index, entry),
        Err(unread) => keyed(Err(unread), ProfileKey::Stack, 0),
    }
}

/// The stacks of the entries, of which there are fewer than 2^32.
fn stacks_of(alloc: Global, entries: &Array) -> Result<Stacks, ProfileFault>
    ensures read { Gives (λ stacks. stacks) result (stacks_of (array_view entries.now)) }
    ensures few { IfOk result (λ stacks. length stacks < 2 ^ 32) }
{
    let mut stacks = Stacks::new(alloc);
    let mut index: u32 = 1;
    for entry in entries {
        stacks.push(stack_at(alloc, index, entry)?)?;
        index = index.checked_add(1).ok_or(NoMemory)?;
    }
    Ok(stacks)
}

/// The stacks of a profile, of which there are fewer than 2^32.
pub fn stacks_in(alloc: Global, top: &Table) -> Result<Stacks, ProfileFault>
    ensures read { Gives (λ stacks. stacks) result (stacks_in (table_view top.now)) }
    ensures few { IfOk result (λ stacks. length stacks < 2 ^ 32) }
{
    match some_tables_at(top, ProfileKey::Stack) {
        Ok(entries) => stacks_of(alloc, entries),
        Err(unread) => keyed(Err(unread), ProfileKey::Stack, 0),
    }
}
