//! Segments as they are written.
ghost use Rattle.std.specs.Prelude.{◌≡◌, ◌<◌, ◌+◌, [], ◌++◌, length, is_ok, IfOk, OnOk, if◌then◌else◌, slice_index_or};
ghost use Rattle.edifact_segments.specs.Canonical.{canonical, trimmed};
ghost use Rattle.edifact_segments.specs.declared.segments.Segment.{Segment};
ghost use Rattle.edifact_segments.specs.Written.{released, written, written_element};

use crate::elements::ElementList;
use crate::segments::Segment;
use std::alloc::Global;
use stow_data::{Bytes, NoMemory};

/// Appends the written form of a segment (ISO 9735): with the default service characters, in canonical
/// form, and with a line feed behind the terminator. Where memory is wanting, `out` stays as it was.
pub fn write_segment(alloc: Global, out: &mut Bytes, segment: &Segment) -> Result<(), NoMemory>
    ensures { out.new ≡ (if is_ok result then out.old ++ written segment.now else out.old) }
{
    let text = segment_text(alloc, segment)?;
    out.extend(text.as_slice())
}

/// The written form of a segment.
fn segment_text(alloc: Global, segment: &Segment) -> Result<Bytes, NoMemory>
    ensures { IfOk result (λ text. text ≡ written segment.now) }
{
    let mut text = Bytes::of(alloc, &segment.tag)?;
    for element in 0..kept_elements(&segment.elements) {
        text.push(b'+')?;
        write_element(&mut text, &segment.elements, element)?;
    }
    text.extend(b"'\n")?;
    Ok(text)
}

/// Appends an element: its components with `:` between them.
fn write_element(out: &mut Bytes, elements: &ElementList, element: usize) -> Result<(), NoMemory>
    ensures { OnOk result (out.new ≡ out.old ++ written_element (trimmed (slice_index_or elements.now element []))) }
{
    for component in 0..kept_components(elements, element) {
        if component > 0 {
            out.push(b':')?;
        }
        write_component(out, elements.component(element, component))?;
    }
    Ok(())
}

/// Appends a component, its service characters behind the release character.
fn write_component(out: &mut Bytes, text: &[u8]) -> Result<(), NoMemory>
    ensures { OnOk result (out.new ≡ out.old ++ released text.now) }
{
    for byte in text {
        if matches!(*byte, b':' | b'+' | b'?' | b'\'') {
            out.push(b'?')?;
        }
        out.push(*byte)?;
    }
    Ok(())
}

/// How many components of an element are left without the empty ones at its end.
fn kept_components(elements: &ElementList, element: usize) -> usize
    ensures { result ≡ length (trimmed (slice_index_or elements.now element [])) }
{
    let mut kept = 0;
    for component in 0..elements.components(element) {
        if !elements.component(element, component).is_empty() {
            kept = component + 1;
        }
    }
    kept
}

/// How many elements are left without the empty ones at the end.
fn kept_elements(elements: &ElementList) -> usize
    ensures { result ≡ length (canonical elements.now) }
{
    let mut kept = 0;
    for element in 0..elements.len() {
        if kept_components(elements, element) > 0 {
            kept = element + 1;
        }
    }
    kept
}

/// The written form of a segment determines its canonical form: the tag, and the elements with their
/// components, without the empty ones at the ends.
pub fn written_determines()
    ensures { (s t : Segment) → length s.tag ≡ 3 → length t.tag ≡ 3 → written s ≡ written t → (s.tag ≡ t.tag) × (canonical s.elements ≡ canonical t.elements) }
{}
