//! Messages as they are written.
ghost use Rattle.std.specs.Prelude.{◌≡◌, ℕ, ◌+◌, ◌<◌, ◌^◌, ◌++◌, ◌∷◌, [], List, codes, length, All, IfOk, OnOk};
ghost use Rattle.std.specs.Fmt.{decimal};
ghost use Rattle.std.specs.List.{flat_map};
ghost use Rattle.edifact_segments.specs.Grammar.{IsInterchange, unb};
ghost use Rattle.edifact_segments.specs.ReadBack.{IsWritable};
ghost use Rattle.edifact_segments.specs.Written.{written};
ghost use Rattle.edifact_segments.specs.declared.segments.Segment.{Segment};
ghost use Rattle.baplie.specs.Messages.{IsMessage};
ghost use Rattle.baplie.specs.Segments.{element};
ghost use Rattle.baplie.specs.Whole.{IsWhole, segments_of, trailer};

use crate::{GroupList, Message};
use edifact_segments::{ElementBuffer, Segment, SegmentList, write_segment};
use itoa::Buffer;
use std::alloc::Global;
use stow_data::{Bytes, NoMemory};

/// The text of a message (ISO 9735): the written forms of UNB, UNH, the head, the cell groups, UNT with
/// the number of segments and the reference of UNH, and UNZ with the reference of UNB. It reads back as
/// the message. The time is linear in the text.
pub fn write_baplie(alloc: Global, message: &Message) -> Result<Bytes, NoMemory>
    requires { IsWhole message.now }
    ensures text { IfOk result (λ text. text ≡ flat_map written (segments_of message.now)) }
    ensures interchange { IfOk result (λ text. IsInterchange text (segments_of message.now)) }
    ensures reads_back { IfOk result (λ text. (segments : List Segment) → IsInterchange text segments → IsMessage segments message.now) }
{
    let mut text = Bytes::new(alloc);
    write_segment(alloc, &mut text, &message.service)?;
    write_segment(alloc, &mut text, &message.title)?;
    write_all(alloc, &mut text, &message.head)?;
    write_groups(alloc, &mut text, &message.groups)?;
    let count = 2 + message.head.len() + count_segments(&message.groups);
    write_trailer(alloc, &mut text, *b"UNT", count, &message.title, 0)?;
    write_trailer(alloc, &mut text, *b"UNZ", 1, &message.service, 4)?;
    Ok(text)
}

/// Appends the written forms of segments.
fn write_all(alloc: Global, out: &mut Bytes, segments: &SegmentList) -> Result<(), NoMemory>
    ensures { OnOk result (out.new ≡ out.old ++ flat_map written segments.now) }
{
    for segment in segments.as_slice() {
        write_segment(alloc, out, segment)?;
    }
    Ok(())
}

/// Appends the written forms of the segments of cell groups.
fn write_groups(alloc: Global, out: &mut Bytes, groups: &GroupList) -> Result<(), NoMemory>
    ensures { OnOk result (out.new ≡ out.old ++ flat_map written (flat_map (λ g. g.segments) groups.now)) }
{
    for group in groups.as_slice() {
        write_all(alloc, out, &group.segments)?;
    }
    Ok(())
}

/// How many segments the groups have.
fn count_segments(groups: &GroupList) -> usize
    requires { length (flat_map (λ g. g.segments) groups.now) < 10 ^ 9 }
    ensures { result ≡ length (flat_map (λ g. g.segments) groups.now) }
{
    let mut count = 0;
    for group in groups.as_slice() {
        count += group.segments.len();
    }
    count
}

/// Appends the written form of UNT or UNZ: a count, and the reference in this element, from 0, of a segment.
fn write_trailer(
    alloc: Global,
    out: &mut Bytes,
    tag: [u8; 3],
    count: usize,
    referred: &Segment,
    n: usize,
) -> Result<(), NoMemory>
    ensures { OnOk result (out.new ≡ out.old ++ written (trailer tag count (element referred.now (n + 1)))) }
{
    let mut elements = ElementBuffer::new(alloc);
    elements.push(Buffer::new().format(count).as_bytes())?;
    elements.start_element()?;
    for k in 0..referred.elements.components(n) {
        elements.add_component(referred.elements.component(n, k))?;
    }
    let segment = Segment::of(alloc, tag, elements)?;
    write_segment(alloc, out, &segment)
}
