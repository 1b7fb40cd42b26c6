//! The causes of faults behind the cell groups.
ghost use Rattle.std.specs.Prelude.{◌≡◌, ◌<◌, ◌≤◌, ◌+◌, ◌^◌, [], length};
ghost use Rattle.baplie.specs.Faults.{count_of, counted, referred, rest};
ghost use Rattle.baplie.specs.Finding.{count_cause, end_cause, least_of, scan};
ghost use Rattle.baplie.specs.Segments.{element, is_unt, is_unz, same_element};

use crate::roles::{component, is_unt, is_unz, same_element};
use crate::{Cause, read_count};
use edifact_segments::Segment;

/// The first fault of UNT, UNZ and what stands between.
pub(crate) fn end_fault(segments: &[Segment]) -> Option<(u32, Cause)>
    requires title { 2 ≤ length segments.now }
    requires few { length segments.now < 2 ^ 31 }
    ensures { result ≡ scan (end_cause segments.now) 3 [] (rest segments.now) }
{
    let mut after = false;
    let mut counted: u32 = 2;
    let rest = &segments[2..];
    for segment in rest {
        if let Some(cause) = least_cause(segments, after, counted, segment) {
            return Some((counted + 1, cause));
        }
        after = after || is_unt(segment);
        counted += 1;
    }
    None
}

/// The least cause at a segment, by whether UNT stands before it and how many segments it ends.
fn least_cause(segments: &[Segment], after: bool, ended: u32, segment: &Segment) -> Option<Cause>
    requires { 2 ≤ length segments.now }
    ensures { result ≡ least_of after (is_unz segment.now) (is_unt segment.now) (count_of (element segment.now 1)) (counted ended segment.now) (same_element (element segment.now 2) (referred segments.now segment.now)) }
{
    let last = is_unz(segment);
    if after != last {
        return Some(if after {
            Cause::ManyMessages
        } else {
            Cause::NoUnt
        });
    }
    if !last && !is_unt(segment) {
        return None;
    }
    let found = if last { 1 } else { ended };
    if let Some(cause) = count_fault(found, said_in(segment)) {
        return Some(cause);
    }
    if refers(segments, last, segment) {
        None
    } else {
        Some(Cause::ReferenceWrong)
    }
}

/// The count in element 1.
fn said_in(segment: &Segment) -> Option<u32>
    ensures { result ≡ count_of (element segment.now 1) }
{
    if segment.elements.components(0) == 1 {
        read_count(component(segment, 1, 1))
    } else {
        None
    }
}

/// What is wrong with a count.
fn count_fault(found: u32, said: Option<u32>) -> Option<Cause>
    ensures { result ≡ count_cause found said }
{
    match said {
        None => Some(Cause::BadCount),
        Some(said) if said == found => None,
        Some(said) => Some(Cause::CountWrong { said, found }),
    }
}

/// Whether element 2 repeats the reference of UNB, at UNZ, or that of UNH.
fn refers(segments: &[Segment], last: bool, segment: &Segment) -> bool
    requires title { 2 ≤ length segments.now }
    requires last { last ≡ is_unz segment.now }
    ensures { result ≡ same_element (element segment.now 2) (referred segments.now segment.now) }
{
    if last {
        same_element(segment, 2, &segments[0], 5)
    } else {
        same_element(segment, 2, &segments[1], 1)
    }
}
