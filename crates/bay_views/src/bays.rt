//! The bays that are drawn.
ghost use Rattle.std.specs.Prelude.{◌≡◌, ◌<◌, ◌≤◌, ◌+◌, ◌++◌, length, All, IfOk, OnOk};
ghost use Rattle.stow_report.specs.Listings.{IsCell};
ghost use Rattle.bay_views.specs.Bays.{number_if, has, has_bay, long_bays, home_of, homes, drawn_bays, evens};

use baplie::CellGroup;
use std::alloc::Global;
use stow_data::{NoMemory, NumberList};

fn has(numbers: &NumberList, n: u32) -> bool
    ensures { result ≡ has numbers.now n }
{
    numbers.as_slice().iter().any(|m| *m == n)
}

fn has_bay(groups: &[CellGroup], bay: u32) -> bool
    ensures { result ≡ has_bay groups.now bay }
{
    groups.iter().any(|group| group.bay == bay)
}

fn push_if(numbers: &mut NumberList, on: bool, n: u32) -> Result<(), NoMemory>
    ensures pushed { OnOk result (numbers.new ≡ numbers.old ++ number_if on n) }
    ensures one { OnOk result (length numbers.new ≤ length numbers.old + 1) }
{
    if on { numbers.push(n) } else { Ok(()) }
}

/// The bays of 40 foot that are named.
#[tactic(auto, using(crate::proofs::Uptos::evens_steps))]
pub(crate) fn long_bays(alloc: Global, groups: &[CellGroup]) -> Result<NumberList, NoMemory>
    ensures value { IfOk result (λ bays. bays ≡ long_bays groups.now) }
    ensures few { IfOk result (λ bays. length bays ≤ 501) }
{
    let mut bays = NumberList::new(alloc);
    for half in 0..501 {
        push_if(&mut bays, has_bay(groups, 2 * half), 2 * half)?;
    }
    Ok(bays)
}

/// The bay of 40 foot that a bay is drawn in.
pub(crate) fn home_of(long_bays: &NumberList, bay: u32) -> u32
    requires { bay < 1000 }
    ensures value { result ≡ home_of long_bays.now bay }
    ensures small { result ≤ 1000 }
{
    if bay.is_multiple_of(2) {
        return bay;
    }
    if has(long_bays, bay + 1) {
        return bay + 1;
    }
    if has(long_bays, bay - 1) {
        return bay - 1;
    }
    if bay % 4 == 1 { bay + 1 } else { bay - 1 }
}

fn homes(alloc: Global, longs: &NumberList, groups: &[CellGroup]) -> Result<NumberList, NoMemory>
    requires { All IsCell groups.now }
    ensures { IfOk result (λ bays. bays ≡ homes longs.now groups.now) }
{
    let mut bays = NumberList::new(alloc);
    for group in groups {
        bays.push(home_of(longs, group.bay))?;
    }
    Ok(bays)
}

/// The even numbers among these, rising.
#[tactic(auto, using(crate::proofs::Uptos::evens_steps))]
fn evens_among(alloc: Global, numbers: &NumberList) -> Result<NumberList, NoMemory>
    ensures value { IfOk result (λ bays. bays ≡ evens (has numbers.now) 501) }
    ensures few { IfOk result (λ bays. length bays ≤ 501) }
{
    let mut bays = NumberList::new(alloc);
    for half in 0..501 {
        push_if(&mut bays, has(numbers, 2 * half), 2 * half)?;
    }
    Ok(bays)
}

/// How many bays are drawn.
pub fn bay_count(alloc: Global, groups: &[CellGroup]) -> Result<u32, NoMemory>
    requires { All IsCell groups.now }
    ensures { IfOk result (λ n. n ≡ length (drawn_bays groups.now)) }
{
    let longs = long_bays(alloc, groups)?;
    let bays = drawn_bays(alloc, &longs, groups)?;
    Ok(bays.len() as u32)
}

/// The bays that are drawn, from fore to aft.
pub(crate) fn drawn_bays(
    alloc: Global,
    longs: &NumberList,
    groups: &[CellGroup],
) -> Result<NumberList, NoMemory>
    requires cells { All IsCell groups.now }
    requires named { longs.now ≡ long_bays groups.now }
    ensures value { IfOk result (λ bays. bays ≡ drawn_bays groups.now) }
    ensures few { IfOk result (λ bays. length bays ≤ 501) }
{
    evens_among(alloc, &homes(alloc, longs, groups)?)
}
