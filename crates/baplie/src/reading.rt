//! Reading a message.
ghost use Rattle.std.specs.Prelude.{◌≡◌, ◌+◌, ◌<◌, ◌≤◌, ◌^◌, None, Some, length, map, slice_get, IfErr, IfOk, IsTrue};
ghost use Rattle.baplie.specs.Faults.{body, groups, head, is_titled};
ghost use Rattle.baplie.specs.Finding.{groups_fault};
ghost use Rattle.baplie.specs.Groups.{cell_group};
ghost use Rattle.baplie.specs.Messages.{IsMessage, IsMessageOf};
ghost use Rattle.baplie.specs.Reading.{IsBaplieFault, IsFaultOf, IsFound};

use crate::cell_groups::{cell_group, copy_all};
use crate::endings::end_fault;
use crate::faults::BaplieFault;
use crate::groups::group_fault;
use crate::roles::{Role, is_title};
use crate::{Cause, GroupList, Message};
use edifact_segments::{SegFault, Segment, read_interchange};
use std::alloc::Global;
use stow_data::NoMemory;

/// Reads a bay plan message (SMDG BAPLIE 2.2): the message of the text, or the fault of its interchange
/// (ISO 9735), or else the least fault of its segments. The time is linear in the text.
pub fn read_baplie(alloc: Global, bytes: &[u8]) -> Result<Message, BaplieFault>
    requires { length bytes.now ≤ 2 ^ 29 }
    ensures read { IfOk result (λ message. IsMessageOf bytes.now message) }
    ensures fault { IfErr result (λ e. IsBaplieFault bytes.now e) }
{
    let segments = match read_interchange(alloc, bytes) {
        Ok(segments) => segments,
        Err(SegFault::NoMemory) => return Err(BaplieFault::NoMemory),
        Err(fault) => return Err(BaplieFault::Seg(fault)),
    };
    read_message(alloc, segments.as_slice())
}

/// The message of the segments, or their least fault.
fn read_message(alloc: Global, segments: &[Segment]) -> Result<Message, BaplieFault>
    requires { length segments.now < 2 ^ 31 }
    ensures read { IfOk result (λ message. IsMessage segments.now message) }
    ensures fault { IfErr result (λ e. IsFaultOf segments.now e) }
{
    if !is_titled(segments) {
        return Err(BaplieFault::At {
            segment: 2,
            cause: Cause::NotBaplie,
        });
    }
    let body = body_of(segments);
    let first = head_length(body);
    let groups = read_groups(alloc, body, first)?;
    match end_fault(segments) {
        Some((segment, cause)) => Err(BaplieFault::At { segment, cause }),
        None => Ok(build(alloc, segments, &body[..first], groups)?),
    }
}

/// A message of these parts.
fn build(
    alloc: Global,
    segments: &[Segment],
    head: &[Segment],
    groups: GroupList,
) -> Result<Message, NoMemory>
    requires { 2 ≤ length segments.now }
    ensures service { IfOk result (λ m. slice_get segments.now 0 ≡ Some m.service) }
    ensures title { IfOk result (λ m. slice_get segments.now 1 ≡ Some m.title) }
    ensures head { IfOk result (λ m. m.head ≡ head.now) }
    ensures groups { IfOk result (λ m. m.groups ≡ groups) }
{
    Ok(Message {
        service: copy_at(alloc, segments, 0)?,
        title: copy_at(alloc, segments, 1)?,
        head: copy_all(alloc, head)?,
        groups,
    })
}

/// The segments behind UNH, up to UNT or UNZ.
fn body_of(segments: &[Segment]) -> &[Segment]
    requires { 2 ≤ length segments.now }
    ensures { result.now ≡ body segments.now }
{
    let rest = &segments[2..];
    let end = Role::Closing.place_from(rest, 0);
    &rest[..end]
}

/// How many segments stand before the first cell group.
fn head_length(body: &[Segment]) -> usize
    ensures length { result ≡ length (head body.now) }
    ensures within { result ≤ length body.now }
{
    Role::Opening.place_from(body, 0)
}

/// A copy of a segment.
fn copy_at(alloc: Global, segments: &[Segment], place: usize) -> Result<Segment, NoMemory>
    requires { place < length segments.now }
    ensures { IfOk result (λ s. slice_get segments.now place ≡ Some s) }
{
    segments[place].copy()
}

/// Whether segment 2 is the UNH of a bay plan.
fn is_titled(segments: &[Segment]) -> bool
    ensures titled { result ≡ is_titled (slice_get segments.now 1) }
    ensures long { IsTrue result → 2 ≤ length segments.now }
{
    match segments.get(1) {
        Some(segment) => is_title(segment),
        None => false,
    }
}

/// The cell groups, of which the first begins at this place, or their first fault.
fn read_groups(alloc: Global, body: &[Segment], first: usize) -> Result<GroupList, BaplieFault>
    requires first { first ≡ length (head body.now) }
    requires few { length body.now < 2 ^ 31 }
    ensures read { IfOk result (λ list. list ≡ map cell_group (groups body.now)) }
    ensures faultless { IfOk result (λ list. groups_fault (3 + first) (groups body.now) ≡ None) }
    ensures fault { IfErr result (λ e. IsFound (groups_fault (3 + first) (groups body.now)) e) }
{
    let mut list = GroupList::new(alloc);
    let mut at = first;
    while at < body.len() {
        let next = Role::Opening.place_from(body, at + 1);
        let group = &body[at..next];
        match group_fault(group, 3 + at as u32) {
            Some((segment, cause)) => return Err(BaplieFault::At { segment, cause }),
            None => list.push(cell_group(alloc, group)?)?,
        }
        at = next;
    }
    Ok(list)
}
