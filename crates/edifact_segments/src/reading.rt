//! Interchanges as they are read.
ghost use Rattle.std.specs.Prelude.{◌≡◌, ◌≢◌, ◌⊎◌, ℕ, ◌+◌, ◌<◌, ◌≤◌, ◌^◌, ◌==◌, ◌||◌, true, false, List, [], ◌∷◌, ◌++◌, length, drop, slice_range, slice_index, IfErr, IfOk, IsTrue, MatchResult, OnOk};
ghost use Rattle.edifact_segments.specs.Characters.{Character, Plain};
ghost use Rattle.edifact_segments.specs.Gathered.{with_elements};
ghost use Rattle.edifact_segments.specs.Drafts.{Drafts, DraftsWith, Finds, Reads};
ghost use Rattle.edifact_segments.specs.Grammar.{HasFault, HasUna, IsHeaded, IsInterchange, Starts, unb, unz};
ghost use Rattle.edifact_segments.specs.ReadBack.{AreWritable, IsWritable};
ghost use Rattle.edifact_segments.specs.Written.{written};
ghost use Rattle.std.specs.List.{flat_map, list_all};
ghost use Rattle.edifact_segments.specs.Scanning.{IsTable, is_ordinary, skip};
ghost use Rattle.edifact_segments.specs.declared.faults.SegFault.{SegFault};
ghost use Rattle.edifact_segments.specs.declared.segments.Segment.{Segment};

use crate::draft::Draft;
use crate::faults::SegFault;
use crate::gathered::GatheredSegments;
use crate::segments::SegmentList;
use crate::service::{Scanner, Service, default_characters, is_control_byte, is_line_end};
use std::alloc::Global;
use stow_data::NoMemory;

/// Reads an interchange (ISO 9735): its segments from UNB to UNZ, each in canonical form, or its first
/// fault from the left.
pub fn read_interchange(alloc: Global, bytes: &[u8]) -> Result<SegmentList, SegFault>
    requires { length bytes.now ≤ 2 ^ 29 }
    ensures read { IfOk result (λ segments. IsInterchange bytes.now segments) }
    ensures fault { IfErr result (λ e. (e ≡ SegFault.NoMemory) ⊎ HasFault bytes.now e) }
{
    let mut segments = GatheredSegments::new(alloc);
    match read_into(alloc, &mut segments, bytes) {
        Ok(()) => finished(segments),
        Err(fault) => {
            drop(segments);
            Err(fault)
        }
    }
}

/// The list of the segments.
fn finished(segments: GatheredSegments) -> Result<SegmentList, SegFault>
    ensures { MatchResult result (λ list. list ≡ segments) (λ e. e ≡ SegFault.NoMemory) }
{
    match segments.finish() {
        Ok(list) => Ok(list),
        Err(NoMemory) => Err(SegFault::NoMemory),
    }
}

/// Reads the segments of an interchange into a list that has none.
fn read_into(alloc: Global, segments: &mut GatheredSegments, bytes: &[u8]) -> Result<(), SegFault>
    requires small { length bytes.now ≤ 2 ^ 29 }
    requires empty { segments.old ≡ [] }
    ensures read { OnOk result (IsInterchange bytes.now segments.new) }
    ensures fault { IfErr result (λ e. (e ≡ SegFault.NoMemory) ⊎ HasFault bytes.now e) }
{
    let mut draft = Draft::new(alloc);
    let read = read_by(&mut draft, segments, bytes);
    drop(draft);
    read
}

/// Reads the segments of an interchange into a list that has none, one after the other by the same draft.
fn read_by(draft: &mut Draft, segments: &mut GatheredSegments, bytes: &[u8]) -> Result<(), SegFault>
    requires small { length bytes.now ≤ 2 ^ 29 }
    requires empty { segments.old ≡ [] }
    ensures read { OnOk result (IsInterchange bytes.now segments.new) }
    ensures fault { IfErr result (λ e. (e ≡ SegFault.NoMemory) ⊎ HasFault bytes.now e) }
{
    let (scanner, start) = read_advice(bytes)?;
    read_segments(draft, segments, &scanner, bytes, start)
}

/// Reads the segments of a text that begins at a place.
fn read_segments(
    draft: &mut Draft,
    segments: &mut GatheredSegments,
    scanner: &Scanner,
    bytes: &[u8],
    start: usize,
) -> Result<(), SegFault>
    requires small { length bytes.now ≤ 2 ^ 29 }
    requires empty { segments.old ≡ [] }
    requires table { IsTable scanner.now.service scanner.now.ordinary }
    requires within { start ≤ length bytes.now }
    requires starts { Starts bytes.now scanner.now.service (drop start bytes.now) }
    ensures read { OnOk result (IsInterchange bytes.now segments.new) }
    ensures fault { IfErr result (λ e. (e ≡ SegFault.NoMemory) ⊎ HasFault bytes.now e) }
{
    let mut at = skip_gap(bytes, start);
    while at < bytes.len() {
        let number = segments.len() as u32 + 1;
        let (tag, next) = next_segment(draft, scanner, bytes, at, number)?;
        if !is_headed(number, tag) {
            return Err(SegFault::NoHeader);
        }
        segments.push(tag, &mut draft.elements)?;
        at = skip_gap(bytes, next);
        if is_trailer(tag) {
            if at < bytes.len() {
                return Err(SegFault::Trailing { at: at as u64 });
            }
            return Ok(());
        }
    }
    match segments.len() {
        0 => Err(SegFault::NoHeader),
        count => Err(SegFault::NoTrailer {
            segments: count as u32,
        }),
    }
}

/// Whether the first segment is UNB, once the one with this number, from 1, and tag is read.
fn is_headed(number: u32, tag: [u8; 3]) -> bool
    requires { 0 < number }
    ensures yes { IsTrue result → number ≡ 1 → tag ≡ unb }
    ensures no { result ≡ false → (number ≡ 1) × (tag ≢ unb) }
{
    number > 1 || tag == *b"UNB"
}

/// Whether a segment with this tag is UNZ.
fn is_trailer(tag: [u8; 3]) -> bool
    ensures yes { IsTrue result → tag ≡ unz }
    ensures no { result ≡ false → tag ≢ unz }
{
    tag == *b"UNZ"
}

/// The service characters, and where the text begins.
fn read_advice(bytes: &[u8]) -> Result<(Scanner, usize), SegFault>
    ensures starts { IfOk result (λ x. Starts bytes.now x.0.service (drop x.1 bytes.now)) }
    ensures table { IfOk result (λ x. IsTable x.0.service x.0.ordinary) }
    ensures within { IfOk result (λ x. x.1 ≤ length bytes.now) }
    ensures fault { IfErr result (λ e. HasFault bytes.now e) }
{
    if !has_una(bytes) {
        return Ok((Scanner::of(default_characters()), 0));
    }
    if bytes.len() < 9 {
        return Err(SegFault::BadUna);
    }
    let service = Service {
        component: bytes[3],
        element: bytes[4],
        release: bytes[6],
        terminator: bytes[8],
    };
    if !service.serves() {
        return Err(SegFault::BadUna);
    }
    Ok((Scanner::of(service), 9))
}

/// Whether the bytes begin with UNA.
fn has_una(bytes: &[u8]) -> bool
    ensures yes { IsTrue result → HasUna bytes.now }
    ensures no { result ≡ false → HasUna bytes.now → ⊥ }
{
    bytes.len() >= 3 && bytes[0] == b'U' && bytes[1] == b'N' && bytes[2] == b'A'
}

/// The tag of the segment that begins at a place, which has this number, and the place behind its
/// terminator. The draft has its elements.
fn next_segment(
    draft: &mut Draft,
    scanner: &Scanner,
    bytes: &[u8],
    from: usize,
    number: u32,
) -> Result<([u8; 3], usize), SegFault>
    requires table { IsTable scanner.now.service scanner.now.ordinary }
    requires within { from ≤ length bytes.now }
    requires small { length bytes.now ≤ 2 ^ 29 }
    ensures { Finds scanner.now.service bytes.now from number (with_elements draft.new.elements result) }
{
    let next = read_segment(draft, scanner, bytes, from)?;
    match draft.tag {
        Some(tag) => Ok((tag, next)),
        None => Err(SegFault::BadTag { segment: number }),
    }
}

/// Where the next byte other than CR and LF stands, or the end.
fn skip_gap(bytes: &[u8], from: usize) -> usize
    requires { from ≤ length bytes.now }
    ensures least { from ≤ result }
    ensures within { result ≤ length bytes.now }
    ensures skipped { drop result bytes.now ≡ skip (drop from bytes.now) }
{
    let mut at = from;
    while at < bytes.len() && is_line_end(bytes[at]) {
        at += 1;
    }
    at
}

/// Where the ordinary bytes from a place on end: at the first that is none, or with the text.
fn run_end(scanner: &Scanner, bytes: &[u8], from: usize) -> usize
    requires table { IsTable scanner.now.service scanner.now.ordinary }
    requires within { from ≤ length bytes.now }
    ensures least { from ≤ result }
    ensures within { result ≤ length bytes.now }
    ensures run { list_all (is_ordinary scanner.now.service) (slice_range bytes.now from result) ≡ true }
    ensures ends { result < length bytes.now → is_ordinary scanner.now.service (slice_index bytes.now result) ≡ false }
{
    let mut at = from;
    while at < bytes.len() && scanner.ordinary[bytes[at] as usize] {
        at += 1;
    }
    at
}

/// Reads the segment that begins at a place into the draft: the place behind its terminator.
fn read_segment(
    draft: &mut Draft,
    scanner: &Scanner,
    bytes: &[u8],
    from: usize,
) -> Result<usize, SegFault>
    requires table { IsTable scanner.now.service scanner.now.ordinary }
    requires within { from ≤ length bytes.now }
    requires small { length bytes.now ≤ 2 ^ 29 }
    ensures { Reads scanner.now.service bytes.now from draft.new result }
{
    let service = &scanner.service;
    draft.clear();
    let mut at = from;
    while at < bytes.len() {
        let end = run_end(scanner, bytes, at);
        if end == bytes.len() {
            return Err(SegFault::Unterminated { at: from as u64 });
        }
        let run = &bytes[at..end];
        let byte = bytes[end];
        if is_control_byte(byte) {
            return Err(SegFault::ControlByte { at: end as u64 });
        }
        if service.releases(byte) {
            if end + 1 == bytes.len() {
                return Err(SegFault::Unterminated { at: from as u64 });
            }
            let next = bytes[end + 1];
            if is_control_byte(next) {
                return Err(SegFault::ControlByte { at: end as u64 + 1 });
            }
            draft.release(run, next)?;
            at = end + 2;
        } else if byte == service.terminator {
            draft.end_element(run)?;
            return Ok(end + 1);
        } else {
            separate(draft, service, byte, run)?;
            at = end + 1;
        }
    }
    Err(SegFault::Unterminated { at: from as u64 })
}

/// A separator behind ordinary bytes.
fn separate(draft: &mut Draft, service: &Service, byte: u8, run: &[u8]) -> Result<(), NoMemory>
    requires separator { (byte == service.now.element || byte == service.now.component) ≡ true }
    requires element { draft.old.element < 2 ^ 63 }
    requires component { draft.old.component < 2 ^ 63 }
    ensures draft { (cs : List Character) → DraftsWith service.now draft.old cs run.now → OnOk result (Drafts service.now draft.new (cs ++ Plain byte ∷ [])) }
    ensures element { OnOk result (draft.new.element ≤ draft.old.element + 1) }
    ensures component { OnOk result (draft.new.component ≤ draft.old.component + 1) }
{
    if byte == service.element {
        draft.end_element(run)
    } else {
        draft.end_component(run)
    }
}

/// A text has one reading: one list of segments, or one fault.
pub fn one_reading()
    ensures segments { (bytes : List ℕ) (s t : List Segment) → IsInterchange bytes s → IsInterchange bytes t → s ≡ t }
    ensures fault { (bytes : List ℕ) (f g : SegFault) → HasFault bytes f → HasFault bytes g → f ≡ g }
    ensures apart { (bytes : List ℕ) (s : List Segment) (f : SegFault) → IsInterchange bytes s → HasFault bytes f → ⊥ }
{}

/// Each text has a reading: it is an interchange, or has a fault.
pub fn each_text()
    ensures { (bytes : List ℕ) → ((s : List Segment) × IsInterchange bytes s) ⊎ ((f : SegFault) × HasFault bytes f) }
{}

/// What is written reads back: segments in canonical form with tags and without control bytes, the first
/// UNB and the last alone UNZ.
pub fn reads_back()
    ensures { (before : List Segment) (last : Segment) → AreWritable before → IsWritable last → last.tag ≡ unz
        → IsHeaded (before ++ last ∷ []) → IsInterchange (flat_map written (before ++ last ∷ [])) (before ++ last ∷ []) }
{}
