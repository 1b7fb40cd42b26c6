//! The cell groups of containers that stood aboard as the ship came in.
ghost use Rattle.std.specs.Prelude.{◌≡◌, ◌++◌, ◌∷◌, [], ◌<◌, IfOk, OnOk, length, map, drop, slice_index_or};
ghost use Rattle.plan_files.specs.DepartureFile.{moved, moved_segment, moved_segments};

use crate::departure_segments::compose;
use baplie::{CellGroup, Facts, cell_text};
use edifact_segments::{ElementBuffer, ElementList, Segment, SegmentList};
use std::alloc::Global;
use stow_data::{Name, NoMemory};

/// Appends an element of these components, and of those of an element of a list from one on.
fn push_element(
    elements: &mut ElementBuffer,
    first: &[&[u8]],
    list: &ElementList,
    element: usize,
    from: usize,
) -> Result<(), NoMemory>
    ensures { OnOk result (elements.new ≡ elements.old ++ (map (λ c. c.now) first.now ++ drop from (slice_index_or list.now element [])) ∷ []) }
{
    compose(elements, first)?;
    for component in from..list.components(element) {
        elements.add_component(list.component(element, component))?;
    }
    Ok(())
}

/// Appends the elements of a list from one on.
fn push_elements(
    elements: &mut ElementBuffer,
    list: &ElementList,
    from: usize,
) -> Result<(), NoMemory>
    ensures { OnOk result (elements.new ≡ elements.old ++ drop from list.now) }
{
    for element in from..list.len() {
        push_element(elements, &[], list, element, 0)?;
    }
    Ok(())
}

/// The LOC+147 of a group in another cell.
fn moved_segment(
    alloc: Global,
    bay: u32,
    row: u32,
    tier: u32,
    segment: &Segment,
) -> Result<Segment, NoMemory>
    ensures { IfOk result (λ s. s ≡ moved_segment (bay, row, tier) segment.now) }
{
    let cell = cell_text(bay, row, tier);
    let list = &segment.elements;
    let mut elements = ElementBuffer::new(alloc);
    elements.push(b"147")?;
    push_element(
        &mut elements,
        &[&cell, list.component(1, 1), b"5"],
        list,
        1,
        3,
    )?;
    push_elements(&mut elements, list, 2)?;
    Segment::of(alloc, *b"LOC", elements)
}

/// Appends segments, which are shared.
fn push_copies(list: &mut SegmentList, segments: &[Segment]) -> Result<(), NoMemory>
    ensures { OnOk result (list.new ≡ list.old ++ segments.now) }
{
    for segment in segments {
        list.push(segment.copy()?)?;
    }
    Ok(())
}

/// The segments of a group in another cell. All but the first are shared.
fn moved_segments(
    alloc: Global,
    bay: u32,
    row: u32,
    tier: u32,
    segments: &[Segment],
) -> Result<SegmentList, NoMemory>
    ensures { IfOk result (λ list. list ≡ moved_segments (bay, row, tier) segments.now) }
{
    let mut list = SegmentList::new(alloc);
    match segments.split_first() {
        None => Ok(list),
        Some((first, others)) => {
            list.push(moved_segment(alloc, bay, row, tier, first)?)?;
            push_copies(&mut list, others)?;
            Ok(list)
        }
    }
}

/// What a group tells of its container.
fn copied(facts: &Facts) -> Facts
    ensures { result ≡ facts.now }
{
    Facts {
        id: facts.id.copy(),
        iso: facts.iso.copy(),
        long: facts.long,
        empty: facts.empty,
        kg: facts.kg,
        reefer: facts.reefer,
        class: Name::copied(&facts.class),
        dest: facts.dest.copy(),
    }
}

/// A group in another cell.
pub fn moved(
    alloc: Global,
    bay: u32,
    row: u32,
    tier: u32,
    group: &CellGroup,
) -> Result<CellGroup, NoMemory>
    ensures { IfOk result (λ g. g ≡ moved (bay, row, tier) group.now) }
{
    let facts = match &group.facts {
        None => None,
        Some(facts) => Some(copied(facts)),
    };
    Ok(CellGroup {
        bay,
        row,
        tier,
        facts,
        segments: moved_segments(alloc, bay, row, tier, group.segments.as_slice())?,
    })
}
