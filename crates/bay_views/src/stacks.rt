//! The tonnes of each stack.
ghost use Rattle.std.specs.Prelude.{◌≡◌, ◌<◌, ◌≤◌, ◌^◌, ◌++◌, ◌*◌, All, length, OnOk};
ghost use Rattle.stow_report.specs.Listings.{IsCell, AreListable, kilograms};
ghost use Rattle.bay_views.specs.Frames.{IsFrame, columns};
ghost use Rattle.bay_views.specs.Sheets.{IsSheet};
ghost use Rattle.bay_views.specs.Stacks.{is_side, is_in, kg_in, stack_kg, stack_base, stack_text, stack_at, stack_label, side_stacks, bay_stacks, stacks};

use crate::bays::home_of;
use crate::frames::{Frame, is_deck};
use crate::marks::{write_label, write_raw, write_tonnes};
use crate::sheets::Sheet;
use baplie::CellGroup;
use stow_data::{Bytes, NoMemory, NumberList};

/// A stack that is drawn: a row of a bay of 40 foot, on deck or in the hold.
#[derive(Clone, Copy)]
pub struct Stack {
    pub home: u32,
    pub row: u32,
    pub deck: bool,
}

fn is_side(deck: bool, tier: u32) -> bool
    ensures { result ≡ is_side deck tier }
{
    if deck { is_deck(tier) } else { !is_deck(tier) }
}

fn is_in(long_bays: &NumberList, stack: Stack, group: &CellGroup) -> bool
    requires { IsCell group.now }
    ensures { result ≡ is_in long_bays.now stack group.now }
{
    group.row == stack.row
        && is_side(stack.deck, group.tier)
        && home_of(long_bays, group.bay) == stack.home
}

/// The weight of a group's container, or 0.
fn kilograms(group: &CellGroup) -> u32
    ensures { result ≡ kilograms group.now }
{
    match &group.facts {
        Some(facts) => facts.kg,
        None => 0,
    }
}

fn kg_in(long_bays: &NumberList, stack: Stack, group: &CellGroup) -> u32
    requires { IsCell group.now }
    ensures { result ≡ kg_in long_bays.now stack group.now }
{
    if is_in(long_bays, stack, group) {
        kilograms(group)
    } else {
        0
    }
}

fn stack_kg(long_bays: &NumberList, stack: Stack, groups: &[CellGroup]) -> u64
    requires { AreListable groups.now }
    ensures { result ≡ stack_kg long_bays.now stack groups.now }
{
    let mut sum: u64 = 0;
    for group in groups {
        sum += u64::from(kg_in(long_bays, stack, group));
    }
    sum
}

fn stack_base(frame: &Frame, deck: bool) -> u32
    requires { IsFrame frame.now }
    ensures value { result ≡ stack_base frame.now deck }
    ensures small { result ≤ 2000 }
{
    if deck {
        49
    } else {
        frame.hold_begin() + frame.hold_height() + 13
    }
}

/// Appends a stack's tonnes, where something stands there.
#[tactic(auto, unfolding(crate::specs::Stacks::stack_text))]
fn write_stack_text(out: &mut Bytes, left: u64, base: u64, kg: u64) -> Result<(), NoMemory>
    ensures { OnOk result (out.new ≡ out.old ++ stack_text left base kg) }
{
    if kg == 0 {
        return Ok(());
    }
    write_label(out, left, base, b"s")?;
    write_tonnes(out, kg)?;
    write_raw(out, b"</text>\n")
}

/// The stack of a column of a drawn bay.
fn stack_at(sheet: &Sheet, i: usize, deck: bool, n: u32) -> Stack
    requires sheet { IsSheet sheet.now }
    requires bay { i < length sheet.now.bays }
    requires column { n < columns sheet.now.frame }
    ensures { result ≡ stack_at sheet.now i deck n }
{
    Stack {
        home: sheet.bays.as_slice()[i],
        row: sheet.frame.row_of(n),
        deck,
    }
}

fn write_stack(
    out: &mut Bytes,
    sheet: &Sheet,
    groups: &[CellGroup],
    i: usize,
    deck: bool,
    n: u32,
) -> Result<(), NoMemory>
    requires sheet { IsSheet sheet.now }
    requires groups { AreListable groups.now }
    requires bay { i < length sheet.now.bays }
    requires column { n < columns sheet.now.frame }
    ensures { OnOk result (out.new ≡ out.old ++ stack_label sheet.now groups.now i deck n) }
{
    sheet.frame.is_narrow();
    let kg = stack_kg(&sheet.long_bays, stack_at(sheet, i, deck, n), groups);
    let left = sheet.bay_left(i) + 62 + 56 * u64::from(n);
    let base = sheet.bay_top(i) + u64::from(stack_base(&sheet.frame, deck));
    write_stack_text(out, left, base, kg)
}

/// Appends the tonnes of a bay's stacks on deck, or of those in the hold.
#[tactic(auto, using(crate::proofs::Uptos::upto_more), unfolding(crate::specs::Stacks::side_stacks))]
fn write_side(
    out: &mut Bytes,
    sheet: &Sheet,
    groups: &[CellGroup],
    i: usize,
    deck: bool,
) -> Result<(), NoMemory>
    requires sheet { IsSheet sheet.now }
    requires groups { AreListable groups.now }
    requires bay { i < length sheet.now.bays }
    ensures { OnOk result (out.new ≡ out.old ++ side_stacks sheet.now groups.now i deck) }
{
    for n in 0..sheet.frame.columns() {
        write_stack(out, sheet, groups, i, deck, n)?;
    }
    Ok(())
}

fn write_bay_stacks(
    out: &mut Bytes,
    sheet: &Sheet,
    groups: &[CellGroup],
    i: usize,
) -> Result<(), NoMemory>
    requires sheet { IsSheet sheet.now }
    requires groups { AreListable groups.now }
    requires bay { i < length sheet.now.bays }
    ensures { OnOk result (out.new ≡ out.old ++ bay_stacks sheet.now groups.now i) }
{
    write_side(out, sheet, groups, i, true)?;
    write_side(out, sheet, groups, i, false)
}

/// Appends the tonnes of each stack in which something stands.
#[tactic(auto, using(crate::proofs::Uptos::upto_more))]
pub(crate) fn write_stacks(
    out: &mut Bytes,
    sheet: &Sheet,
    groups: &[CellGroup],
) -> Result<(), NoMemory>
    requires sheet { IsSheet sheet.now }
    requires groups { AreListable groups.now }
    ensures { OnOk result (out.new ≡ out.old ++ stacks sheet.now groups.now) }
{
    for i in 0..sheet.bays.len() {
        write_bay_stacks(out, sheet, groups, i)?;
    }
    Ok(())
}
