//! What a cell group tells.
ghost use Rattle.std.specs.Prelude.{◌≡◌, ◌<◌, IfOk, find, option_map};
ghost use Rattle.baplie.specs.Groups.{cell_group, cell_in, class_from, class_in, facts_at, facts_from, long_of_bay, name_of, text_in, weight_in};
ghost use Rattle.baplie.specs.Segments.{is_container};

use crate::roles::{Role, component, is_one};
use crate::{CellGroup, Facts, read_cell_text, read_weight};
use edifact_segments::{Segment, SegmentList};
use std::alloc::Global;
use stow_data::{Length, Name, NoMemory, length_of_type};

/// A cell group: its cell, its container and all its segments.
pub(crate) fn cell_group(alloc: Global, group: &[Segment]) -> Result<CellGroup, NoMemory>
    ensures { IfOk result (λ g. g ≡ cell_group group.now) }
{
    let (bay, row, tier) = cell(group);
    Ok(CellGroup {
        bay,
        row,
        tier,
        facts: facts(group),
        segments: copy_all(alloc, group)?,
    })
}

/// A copy of the segments.
pub(crate) fn copy_all(alloc: Global, segments: &[Segment]) -> Result<SegmentList, NoMemory>
    ensures { IfOk result (λ s. s ≡ segments.now) }
{
    let mut list = SegmentList::new(alloc);
    for segment in segments {
        list.push(segment.copy()?)?;
    }
    list.fit();
    Ok(list)
}

/// The cell of the group. Where its text isn't one, which is a fault of the group, it is 0.
fn cell(group: &[Segment]) -> (u32, u32, u32)
    ensures { result ≡ cell_in group.now }
{
    match group.first() {
        Some(segment) => read_cell_text(component(segment, 2, 1)).unwrap_or((0, 0, 0)),
        None => (0, 0, 0),
    }
}

/// The facts of the group's container.
fn facts(group: &[Segment]) -> Option<Facts>
    ensures { result ≡ facts_from group.now (find is_container group.now) }
{
    match Role::Container.first(group) {
        Some(segment) => Some(facts_at(group, segment)),
        None => None,
    }
}

/// The facts of the container that this segment names.
fn facts_at(group: &[Segment], segment: &Segment) -> Facts
    ensures { result ≡ facts_at group.now segment.now }
{
    Facts {
        id: name(component(segment, 2, 1)),
        iso: name(component(segment, 3, 1)),
        long: length_of_type(component(segment, 3, 1)).unwrap_or(length_of_bay(cell(group).0)),
        empty: is_one(segment, 6, b"4"),
        kg: weight(group),
        reefer: Role::Cooled.any(group),
        class: class(group),
        dest: name(text_in(Role::Port.first(group), 2, 1)),
    }
}

/// A component of a segment, both numbers from 1, or nothing.
fn text_in(segment: Option<&Segment>, n: usize, k: usize) -> &[u8]
    requires element { 0 < n }
    requires component { 0 < k }
    ensures { result.now ≡ text_in (option_map (λ s. s.now) segment.entry) n k }
{
    match segment {
        Some(segment) => component(segment, n, k),
        None => &[],
    }
}

/// A name. One that is too long, which is a fault of the group, is left out.
fn name(text: &[u8]) -> Name
    ensures { result ≡ name_of text.now }
{
    if text.len() > 35 {
        Name::of(b"")
    } else {
        Name::of(text)
    }
}

/// The length of a container in a bay with this number.
fn length_of_bay(bay: u32) -> Length
    ensures { result ≡ long_of_bay bay }
{
    if bay % 2 == 1 {
        Length::Twenty
    } else {
        Length::Forty
    }
}

/// The weight: the first verified gross mass, else the first other weight.
fn weight(group: &[Segment]) -> u32
    ensures { result ≡ weight_in group.now }
{
    let found = match Role::Verified.first(group) {
        Some(segment) => Some(segment),
        None => Role::Unverified.first(group),
    };
    read_weight(text_in(found, 3, 2)).unwrap_or(0)
}

/// The class of the first dangerous goods.
fn class(group: &[Segment]) -> Option<Name>
    ensures { result ≡ class_in group.now }
{
    let class = name(text_in(Role::Danger.first(group), 2, 1));
    if class.bytes().is_empty() {
        None
    } else {
        Some(class)
    }
}
