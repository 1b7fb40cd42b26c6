//! The causes of faults in a cell group.
ghost use Rattle.std.specs.Prelude.{◌≡◌, ◌<◌, ◌+◌, ◌^◌, [], ◌∷◌, ◌++◌, List, find, length};
ghost use Rattle.edifact_segments.specs.declared.segments.Segment.{Segment};
ghost use Rattle.baplie.specs.Finding.{group_cause, group_causes, scan};
ghost use Rattle.baplie.specs.Groups.{is_iso, is_long, is_odd_type, lacks, prior, shows};
ghost use Rattle.baplie.specs.Causes.{cause_as, cell_cause, container_cause, lack_cause, weight_cause};
ghost use Rattle.baplie.specs.Roles.{IsReadAs, as_container, as_danger, as_port};

use crate::roles::{Role, component, is_text};
use crate::{Cause, Prior, read_cell_text, read_weight};
use edifact_segments::Segment;
use stow_data::length_of_type;

/// The first fault of a group whose first segment has this number.
pub(crate) fn group_fault(group: &[Segment], first: u32) -> Option<(u32, Cause)>
    requires { first + length group.now < 2 ^ 32 }
    ensures { result ≡ scan (group_cause group.now) first [] group.now }
{
    let mut number = first;
    let mut known = Prior {
        opens: true,
        lacks: is_lacking(group),
        container: false,
        port: false,
        danger: false,
    };
    for segment in group {
        let role = Role::read(segment);
        if let Some(cause) = least_cause(known, segment, role) {
            return Some((number, cause));
        }
        number += 1;
        known = behind(known, segment, role);
    }
    None
}

/// Whether the group has a container and lacks a weight or a port of discharge.
fn is_lacking(group: &[Segment]) -> bool
    ensures { result ≡ lacks group.now }
{
    Role::Container.any(group) && !(Role::Weight.any(group) && Role::Port.any(group))
}

/// What is known behind one more segment, which is read as this.
fn behind(known: Prior, segment: &Segment, role: Option<Role>) -> Prior
    requires { IsReadAs segment.now role }
    ensures { (group before : List Segment) → known ≡ prior group before → result ≡ prior group (before ++ segment.now ∷ []) }
{
    Prior {
        opens: false,
        lacks: known.lacks,
        container: known.container || is_container(role),
        port: known.port || is_port(role),
        danger: known.danger || is_danger(role),
    }
}

fn is_container(role: Option<Role>) -> bool
    ensures { result ≡ as_container role }
{
    matches!(role, Some(Role::Container))
}

fn is_port(role: Option<Role>) -> bool
    ensures { result ≡ as_port role }
{
    matches!(role, Some(Role::Port))
}

fn is_danger(role: Option<Role>) -> bool
    ensures { result ≡ as_danger role }
{
    matches!(role, Some(Role::Danger))
}

/// The least cause at a segment of a group, which is read as this.
fn least_cause(known: Prior, segment: &Segment, role: Option<Role>) -> Option<Cause>
    requires { IsReadAs segment.now role }
    ensures { result ≡ find (shows known segment.now) group_causes }
{
    cell_cause(known, segment)
        .or(role_cause(known, segment, role))
        .or(lack_cause(known))
}

/// What is wrong with the cell of a group.
fn cell_cause(known: Prior, segment: &Segment) -> Option<Cause>
    ensures { result ≡ cell_cause known segment.now }
{
    if !known.opens {
        None
    } else if read_cell_text(component(segment, 2, 1)).is_none() {
        Some(Cause::BadCell)
    } else if !is_iso(component(segment, 2, 3)) {
        Some(Cause::AgencyLeftOut)
    } else {
        None
    }
}

/// What a group lacks is a cause where it opens.
fn lack_cause(known: Prior) -> Option<Cause>
    ensures { result ≡ lack_cause known }
{
    if known.opens && known.lacks {
        Some(Cause::NoWeightOrPort)
    } else {
        None
    }
}

/// The least cause at a segment for what it is read as.
fn role_cause(known: Prior, segment: &Segment, role: Option<Role>) -> Option<Cause>
    ensures { result ≡ cause_as role known segment.now }
{
    match role {
        Some(Role::Container) if known.container => Some(Cause::TwoContainers),
        Some(Role::Container) => container_cause(segment),
        Some(Role::Breakbulk) => Some(Cause::BreakbulkLeftOut),
        Some(Role::Port) if known.port => None,
        Some(Role::Danger) if known.danger => None,
        Some(Role::Port | Role::Danger) if is_long(component(segment, 2, 1)) => {
            Some(Cause::NameTooLong)
        }
        Some(Role::Weight) => weight_cause(segment),
        _ => None,
    }
}

/// The least cause at a first container.
fn container_cause(segment: &Segment) -> Option<Cause>
    ensures { result ≡ container_cause segment.now }
{
    let id = component(segment, 2, 1);
    let iso = component(segment, 3, 1);
    if id.is_empty() {
        Some(Cause::NoId)
    } else if is_long(id) || is_long(iso) {
        Some(Cause::NameTooLong)
    } else if is_odd_type(iso) {
        Some(Cause::LengthLeftOut)
    } else {
        None
    }
}

/// The least cause at a weight.
fn weight_cause(segment: &Segment) -> Option<Cause>
    ensures { result ≡ weight_cause segment.now }
{
    if !is_text(component(segment, 3, 1), b"KGM") {
        Some(Cause::UnitLeftOut)
    } else if read_weight(component(segment, 3, 2)).is_none() {
        Some(Cause::BadWeight)
    } else {
        None
    }
}

/// Whether the agency of a cell's numbering is that of ISO 9711.
fn is_iso(agency: &[u8]) -> bool
    ensures { result ≡ is_iso agency.now }
{
    agency.is_empty() || is_text(agency, b"5")
}

/// More bytes than a name has.
fn is_long(text: &[u8]) -> bool
    ensures { result ≡ is_long text.now }
{
    text.len() > 35
}

/// A type of neither 20 nor 40 foot.
fn is_odd_type(text: &[u8]) -> bool
    ensures { result ≡ is_odd_type text.now }
{
    !text.is_empty() && length_of_type(text).is_none()
}
