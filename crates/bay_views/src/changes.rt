//! What changed from the bay plan before, and what changes to the one behind.
ghost use Rattle.std.specs.Prelude.{◌≡◌, ◌<◌, ◌≤◌, ◌^◌, ◌++◌, All, codes, find, length, count_by, option_copied, option_map, IfSome, OnOk};
ghost use Rattle.stow_report.specs.Listings.{IsCell, AreListable};
ghost use Rattle.bay_views.specs.Ports.{same_text};
ghost use Rattle.bay_views.specs.Marks.{raw, when, label};
ghost use Rattle.bay_views.specs.Sheets.{IsSheet};
ghost use Rattle.bay_views.specs.Changes.{has_id, group_with, lacks, is_missing, same_cell, stands_apart, moves, is_moved, loaded, discharged, rehandled, change_line, changes_since, no_longer, elsewhere, came, goes, change_marks, all_changes};

use crate::cells::{Cell, cell_of};
use crate::marks::{put, write_label, write_raw};
use crate::sheets::Sheet;
use baplie::{CellGroup, Facts, GroupList};
use stow_data::{Bytes, Name, NoMemory};

fn same_id(a: &Name, b: &Name) -> bool
    ensures { result ≡ same_text a.now b.now }
{
    a.bytes() == b.bytes()
}

fn has_id(id: &Name, facts: &Option<Facts>) -> bool
    ensures { result ≡ has_id id.now facts.now }
{
    match facts {
        Some(facts) => same_id(&facts.id, id),
        None => false,
    }
}

/// The group that holds the container with this number.
fn group_with<'a>(groups: &'a [CellGroup], id: &Name) -> Option<&'a CellGroup>
    ensures { option_map (λ g. g.now) result ≡ group_with groups.now id.now }
{
    groups.iter().find(|group| has_id(id, &group.facts))
}

/// Whether a group holds a container that the other bay plan doesn't have.
fn is_missing(others: &[CellGroup], group: &CellGroup) -> bool
    ensures { result ≡ is_missing others.now group.now }
{
    match &group.facts {
        Some(facts) => group_with(others, &facts.id).is_none(),
        None => false,
    }
}

fn same_cell(a: &CellGroup, b: &CellGroup) -> bool
    ensures { result ≡ same_cell a.now b.now }
{
    a.bay == b.bay && a.row == b.row && a.tier == b.tier
}

fn stands_apart(group: &CellGroup, other: Option<&CellGroup>) -> bool
    ensures { result ≡ stands_apart group.now (option_copied other.entry) }
{
    match other {
        Some(other) => !same_cell(group, other),
        None => false,
    }
}

/// Whether a group's container stands in another cell in the other bay plan.
fn is_moved(others: &[CellGroup], group: &CellGroup) -> bool
    ensures { result ≡ is_moved others.now group.now }
{
    match &group.facts {
        Some(facts) => stands_apart(group, group_with(others, &facts.id)),
        None => false,
    }
}

fn missing_in(others: &[CellGroup], groups: &[CellGroup]) -> u64
    ensures { result ≡ count_by (is_missing others.now) groups.now }
{
    let mut count: u64 = 0;
    for group in groups {
        if is_missing(others, group) {
            count += 1;
        }
    }
    count
}

fn moved_in(others: &[CellGroup], groups: &[CellGroup]) -> u64
    ensures { result ≡ count_by (is_moved others.now) groups.now }
{
    let mut count: u64 = 0;
    for group in groups {
        if is_moved(others, group) {
            count += 1;
        }
    }
    count
}

#[tactic(auto, unfolding(crate::specs::Changes::change_line))]
fn write_change_line(
    out: &mut Bytes,
    loads: u64,
    discharges: u64,
    rehandles: u64,
) -> Result<(), NoMemory>
    ensures { OnOk result (out.new ≡ out.old ++ change_line loads discharges rehandles) }
{
    write_label(out, 640, 42, b"l")?;
    put(out, b"Since the bay plan before: &#9650; ", loads)?;
    put(out, b" loaded, &#9660; ", discharges)?;
    put(out, b" discharged, &#9670; ", rehandles)?;
    write_raw(out, b" rehandled</text>\n")
}

/// Appends how many containers were loaded, discharged and rehandled since the bay plan before.
#[tactic(auto, unfolding(crate::specs::Changes::changes_since))]
pub(crate) fn write_changes_since(
    out: &mut Bytes,
    before: Option<&GroupList>,
    now: &[CellGroup],
) -> Result<(), NoMemory>
    ensures { OnOk result (out.new ≡ out.old ++ changes_since (option_copied before.entry) now.now) }
{
    let Some(before) = before else {
        return Ok(());
    };
    let before = before.as_slice();
    let loads = missing_in(before, now);
    let discharges = missing_in(now, before);
    write_change_line(out, loads, discharges, moved_in(before, now))
}

fn no_longer(others: Option<&GroupList>, group: &CellGroup) -> bool
    ensures { result ≡ no_longer (option_copied others.entry) group.now }
{
    match others {
        Some(others) => is_missing(others.as_slice(), group),
        None => false,
    }
}

fn elsewhere(others: Option<&GroupList>, group: &CellGroup) -> bool
    ensures { result ≡ elsewhere (option_copied others.entry) group.now }
{
    match others {
        Some(others) => is_moved(others.as_slice(), group),
        None => false,
    }
}

fn write_change(out: &mut Bytes, on: bool, left: u64, base: u64) -> Result<(), NoMemory>
    ensures { OnOk result (out.new ≡ out.old ++ when on (label left base (codes "c") ++ raw (codes "&#9650;</text>\n"))) }
{
    if !on {
        return Ok(());
    }
    write_label(out, left, base, b"c")?;
    write_raw(out, b"&#9650;</text>\n")
}

fn write_rehandle(out: &mut Bytes, on: bool, left: u64, base: u64) -> Result<(), NoMemory>
    ensures { OnOk result (out.new ≡ out.old ++ when on (label left base (codes "c") ++ raw (codes "&#9670;</text>\n"))) }
{
    if !on {
        return Ok(());
    }
    write_label(out, left, base, b"c")?;
    write_raw(out, b"&#9670;</text>\n")
}

#[tactic(auto, unfolding(crate::specs::Changes::came))]
fn write_came(out: &mut Bytes, cell: &Cell, loads: bool, moves: bool) -> Result<(), NoMemory>
    requires left { cell.now.left < 2 ^ 33 }
    requires top { cell.now.top < 2 ^ 42 }
    ensures { OnOk result (out.new ≡ out.old ++ came cell.now loads moves) }
{
    write_change(out, loads, cell.left + 2, cell.top + 21)?;
    write_rehandle(out, moves, cell.left + 2, cell.top + 21)
}

#[tactic(auto, unfolding(crate::specs::Changes::goes))]
fn write_goes(out: &mut Bytes, cell: &Cell, leaves: bool) -> Result<(), NoMemory>
    requires left { cell.now.left < 2 ^ 33 }
    requires top { cell.now.top < 2 ^ 42 }
    requires width { cell.now.width ≤ 56 }
    requires some { 28 ≤ cell.now.width }
    ensures { OnOk result (out.new ≡ out.old ++ goes cell.now leaves) }
{
    if !leaves {
        return Ok(());
    }
    write_label(out, cell.left + cell.width - 2, cell.top + 21, b"o")?;
    write_raw(out, b"&#9660;</text>\n")
}

#[tactic(auto, unfolding(crate::specs::Changes::change_marks))]
fn write_change_marks(
    out: &mut Bytes,
    sheet: &Sheet,
    before: Option<&GroupList>,
    after: Option<&GroupList>,
    group: &CellGroup,
) -> Result<(), NoMemory>
    requires sheet { IsSheet sheet.now }
    requires cell { IsCell group.now }
    ensures { OnOk result (out.new ≡ out.old ++ change_marks sheet.now (option_copied before.entry) (option_copied after.entry) group.now) }
{
    let cell = cell_of(sheet, group);
    let loads = no_longer(before, group);
    let moves = elsewhere(before, group);
    write_came(out, &cell, loads, moves)?;
    write_goes(out, &cell, no_longer(after, group))
}

/// Appends the marks of the containers that were loaded or rehandled since the bay plan before, and of those
/// that are discharged before the one behind.
pub(crate) fn write_changes(
    out: &mut Bytes,
    sheet: &Sheet,
    before: Option<&GroupList>,
    after: Option<&GroupList>,
    groups: &[CellGroup],
) -> Result<(), NoMemory>
    requires sheet { IsSheet sheet.now }
    requires cells { All IsCell groups.now }
    ensures { OnOk result (out.new ≡ out.old ++ all_changes sheet.now (option_copied before.entry) (option_copied after.entry) groups.now) }
{
    for group in groups {
        write_change_marks(out, sheet, before, after, group)?;
    }
    Ok(())
}
