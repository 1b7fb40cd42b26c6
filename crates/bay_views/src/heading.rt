//! The head of a picture: vessel, voyage, port and call as the message tells them, and the totals.
ghost use Rattle.std.specs.Prelude.{◌≡◌, ◌<◌, ◌≤◌, ◌^◌, ◌++◌, ◌*◌, codes, find, length, count_by, option_copied, option_map, OnOk};
ghost use Rattle.std.specs.List.{sum_by};
ghost use Rattle.baplie.specs.Segments.{component, has_tag, is_coded, is_one, element, same_text, is_empty_text};
ghost use Rattle.bay_views.specs.Heads.{text_of, said, number_in, same_voyage, vessel, voyage, port, next_port, named, part, call_line, same_length, is_of, kg_of, containers_of, kilograms_of, amount, length_amount, total_line, heading};

use crate::character_sets::CharacterSet;
use crate::marks::{write_label, write_number, write_raw, write_short, write_tonnes, write_whole};
use baplie::{CellGroup, Facts, Message};
use edifact_segments::Segment;
use stow_data::{Bytes, Length, NoMemory};
use stow_report::{containers_in, kilograms_in};

/// So many bytes of a name stand in the head.
const MOST: usize = 24;

fn has_tag(segment: &Segment, tag: &[u8; 3]) -> bool
    ensures { result ≡ has_tag segment.now tag.now }
{
    segment.tag == *tag
}

fn is_coded(segment: &Segment, tag: &[u8; 3], code: &[u8]) -> bool
    ensures { result ≡ is_coded segment.now tag.now code.now }
{
    has_tag(segment, tag) && is_one(segment, code)
}

/// Whether the first element is this one text.
fn is_one(segment: &Segment, text: &[u8]) -> bool
    ensures { result ≡ is_one (element segment.now 1) text.now }
{
    segment.elements.components(0) == 1 && segment.elements.component(0, 0) == text
}

fn first_coded<'a>(head: &'a [Segment], tag: &[u8; 3], code: &[u8]) -> Option<&'a Segment>
    ensures { option_map (λ s. s.now) result ≡ find (λ s. is_coded s tag.now code.now) head.now }
{
    head.iter().find(|segment| is_coded(segment, tag, code))
}

fn first_tagged<'a>(head: &'a [Segment], tag: &[u8; 3]) -> Option<&'a Segment>
    ensures { option_map (λ s. s.now) result ≡ find (λ s. has_tag s tag.now) head.now }
{
    head.iter().find(|segment| has_tag(segment, tag))
}

fn text_of<'a>(segment: Option<&'a Segment>, n: usize, k: usize) -> &'a [u8]
    requires element { 0 < n }
    requires component { 0 < k }
    ensures { result.now ≡ text_of (option_copied segment.entry) n k }
{
    match segment {
        Some(segment) => segment.elements.component(n - 1, k - 1),
        None => &[],
    }
}

/// What the first segment with this tag and this code tells.
fn said<'a>(head: &'a [Segment], tag: &[u8; 3], code: &[u8], n: usize, k: usize) -> &'a [u8]
    requires element { 0 < n }
    requires component { 0 < k }
    ensures { result.now ≡ said head.now tag.now code.now n k }
{
    text_of(first_coded(head, tag, code), n, k)
}

fn number_in(head: &[Segment]) -> &[u8]
    ensures { result.now ≡ number_in head.now }
{
    text_of(first_tagged(head, b"BGM"), 2, 1)
}

/// The vessel's name, as the message has it.
fn vessel(head: &[Segment]) -> &[u8]
    ensures { result.now ≡ vessel head.now }
{
    said(head, b"TDT", b"20", 8, 4)
}

/// The voyage's number, as the message has it.
fn voyage(head: &[Segment]) -> &[u8]
    ensures { result.now ≡ voyage head.now }
{
    said(head, b"TDT", b"20", 2, 1)
}

fn port(head: &[Segment]) -> &[u8]
    ensures { result.now ≡ port head.now }
{
    said(head, b"LOC", b"5", 2, 1)
}

fn next_port(head: &[Segment]) -> &[u8]
    ensures { result.now ≡ next_port head.now }
{
    said(head, b"LOC", b"61", 2, 1)
}

fn same_text(a: &[u8], b: &[u8]) -> bool
    ensures { result ≡ same_text a.now b.now }
{
    a == b
}

/// Whether two messages are of one vessel and one voyage.
pub fn same_voyage(a: &Message, b: &Message) -> bool
    ensures { result ≡ same_voyage a.now b.now }
{
    let (a, b) = (a.head.as_slice(), b.head.as_slice());
    same_text(vessel(a), vessel(b)) && same_text(voyage(a), voyage(b))
}

/// Appends a word and what the message tells, where it tells it.
#[tactic(auto, unfolding(crate::specs::Heads::part))]
fn write_part(out: &mut Bytes, set: CharacterSet, word: &[u8], text: &[u8]) -> Result<(), NoMemory>
    ensures { OnOk result (out.new ≡ out.old ++ part set word.now text.now) }
{
    if text.is_empty() {
        return Ok(());
    }
    write_named(out, set, word, text)
}

/// Appends a word and a name.
#[tactic(auto, unfolding(crate::specs::Heads::named))]
fn write_named(out: &mut Bytes, set: CharacterSet, word: &[u8], text: &[u8]) -> Result<(), NoMemory>
    ensures { OnOk result (out.new ≡ out.old ++ named set word.now text.now) }
{
    write_raw(out, b"<tspan dx='10'>")?;
    write_whole(out, set, MOST, text)?;
    write_raw(out, word)?;
    write_short(out, set, MOST, text)?;
    write_raw(out, b"</tspan>")
}

fn write_call_line(out: &mut Bytes, set: CharacterSet, head: &[Segment]) -> Result<(), NoMemory>
    ensures { OnOk result (out.new ≡ out.old ++ call_line set head.now) }
{
    write_label(out, 4, 22, b"h")?;
    write_part(out, set, b"", vessel(head))?;
    write_part(out, set, b"Voyage ", voyage(head))?;
    write_part(out, set, b"From ", port(head))?;
    write_part(out, set, b"to ", next_port(head))?;
    write_part(out, set, b"Bay plan ", number_in(head))?;
    write_raw(out, b"</text>\n")
}

fn same_length(a: Length, b: Length) -> bool
    ensures { result ≡ same_length a b }
{
    match (a, b) {
        (Length::Twenty, Length::Twenty) | (Length::Forty, Length::Forty) => true,
        _ => false,
    }
}

fn is_of(long: Length, facts: &Option<Facts>) -> bool
    ensures { result ≡ is_of long facts.now }
{
    match facts {
        Some(facts) => same_length(facts.long, long),
        None => false,
    }
}

fn kg_of(long: Length, facts: &Option<Facts>) -> u32
    ensures { result ≡ kg_of long facts.now }
{
    match facts {
        Some(facts) if same_length(facts.long, long) => facts.kg,
        _ => 0,
    }
}

fn containers_of(long: Length, groups: &[CellGroup]) -> u64
    requires { length groups.now < 2 ^ 32 }
    ensures { result ≡ containers_of long groups.now }
{
    let mut count: u64 = 0;
    for group in groups {
        if is_of(long, &group.facts) {
            count += 1;
        }
    }
    count
}

fn kilograms_of(long: Length, groups: &[CellGroup]) -> u64
    requires { length groups.now < 2 ^ 32 }
    ensures { result ≡ kilograms_of long groups.now }
{
    let mut sum: u64 = 0;
    for group in groups {
        sum += u64::from(kg_of(long, &group.facts));
    }
    sum
}

#[tactic(auto, unfolding(crate::specs::Heads::amount))]
fn write_amount(out: &mut Bytes, containers: u64, kilograms: u64) -> Result<(), NoMemory>
    ensures { OnOk result (out.new ≡ out.old ++ amount containers kilograms) }
{
    write_number(out, containers)?;
    write_raw(out, b" containers, ")?;
    write_tonnes(out, kilograms)?;
    write_raw(out, b" t")
}

#[tactic(auto, unfolding(crate::specs::Heads::length_amount))]
fn write_length_amount(
    out: &mut Bytes,
    word: &[u8],
    long: Length,
    groups: &[CellGroup],
) -> Result<(), NoMemory>
    requires { length groups.now < 2 ^ 32 }
    ensures { OnOk result (out.new ≡ out.old ++ length_amount word.now long groups.now) }
{
    write_raw(out, word)?;
    write_amount(out, containers_of(long, groups), kilograms_of(long, groups))
}

fn write_total_line(out: &mut Bytes, groups: &[CellGroup]) -> Result<(), NoMemory>
    requires { length groups.now < 2 ^ 32 }
    ensures { OnOk result (out.new ≡ out.old ++ total_line groups.now) }
{
    write_label(out, 14, 42, b"l")?;
    write_amount(out, containers_in(groups), kilograms_in(groups))?;
    write_length_amount(out, b"; 20 foot: ", Length::Twenty, groups)?;
    write_length_amount(out, b"; 40 foot: ", Length::Forty, groups)?;
    write_raw(out, b"</text>\n")
}

/// Appends what the message tells of its voyage, and the totals.
#[tactic(auto, unfolding(crate::specs::Heads::heading))]
pub(crate) fn write_heading(
    out: &mut Bytes,
    set: CharacterSet,
    head: &[Segment],
    groups: &[CellGroup],
) -> Result<(), NoMemory>
    requires { length groups.now < 2 ^ 32 }
    ensures { OnOk result (out.new ≡ out.old ++ heading set head.now groups.now) }
{
    write_call_line(out, set, head)?;
    write_total_line(out, groups)
}
