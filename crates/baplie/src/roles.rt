//! The segments that a message is read from (SMDG BAPLIE 2.2).
ghost use Rattle.std.specs.Prelude.{◌≡◌, ◌+◌, ◌<◌, ◌≤◌, true, codes, drop, find, length, option_map, None, Some, if◌then◌else◌};
ghost use Rattle.std.specs.List.{list_any, position_or_len};
ghost use Rattle.baplie.specs.Segments.{component, element, has_tag, is_coded, is_one, is_title, is_type, is_unt, is_unz, same_element, same_text};
ghost use Rattle.baplie.specs.Roles.{IsReadAs, has_role};

use edifact_segments::Segment;

/// What a segment may be read as.
#[derive(Clone, Copy)]
pub(crate) enum Role {
    /// LOC+147.
    Opening,

    /// UNT, or UNZ.
    Closing,

    /// EQD+CN.
    Container,

    /// EQD+BB.
    Breakbulk,

    /// LOC+11 with a port.
    Port,

    /// MEA+VGM.
    Verified,

    /// MEA+WT.
    Unverified,

    /// MEA+VGM or MEA+WT.
    Weight,

    /// TMP+2.
    Cooled,

    /// DGS.
    Danger,
}

/// A component of an element, both from 1.
pub(crate) fn component(segment: &Segment, n: usize, k: usize) -> &[u8]
    requires element { 0 < n }
    requires component { 0 < k }
    ensures { result.now ≡ component segment.now n k }
{
    segment.elements.component(n - 1, k - 1)
}

/// Whether two texts are equal.
pub(crate) fn is_text(text: &[u8], other: &[u8]) -> bool
    ensures { result ≡ same_text text.now other.now }
{
    text == other
}

/// Whether the segment has this tag.
fn has_tag(segment: &Segment, tag: &[u8; 3]) -> bool
    ensures { result ≡ has_tag segment.now tag.now }
{
    segment.tag == *tag
}

/// Whether a whole element, from 1, is this one text.
pub(crate) fn is_one(segment: &Segment, n: usize, text: &[u8]) -> bool
    requires { 0 < n }
    ensures { result ≡ is_one (element segment.now n) text.now }
{
    segment.elements.components(n - 1) == 1 && segment.elements.component(n - 1, 0) == text
}

/// Whether the segment has this tag and this code.
fn is_coded(segment: &Segment, tag: &[u8; 3], code: &[u8]) -> bool
    ensures { result ≡ is_coded segment.now tag.now code.now }
{
    has_tag(segment, tag) && is_one(segment, 1, code)
}

/// Whether it is UNT.
pub(crate) fn is_unt(segment: &Segment) -> bool
    ensures { result ≡ is_unt segment.now }
{
    has_tag(segment, b"UNT")
}

/// Whether it is UNZ.
pub(crate) fn is_unz(segment: &Segment) -> bool
    ensures { result ≡ is_unz segment.now }
{
    has_tag(segment, b"UNZ")
}

/// Whether it is the UNH of a bay plan.
pub(crate) fn is_title(segment: &Segment) -> bool
    ensures { result ≡ is_title segment.now }
{
    has_tag(segment, b"UNH") && is_type(segment)
}

/// Whether its element 2 is the message type.
fn is_type(segment: &Segment) -> bool
    ensures { result ≡ is_type (element segment.now 2) }
{
    segment.elements.components(1) == 5
        && is_text(component(segment, 2, 1), b"BAPLIE")
        && is_text(component(segment, 2, 2), b"D")
        && is_text(component(segment, 2, 3), b"95B")
        && is_text(component(segment, 2, 4), b"UN")
        && is_text(component(segment, 2, 5), b"SMDG22")
}

/// Whether an element of one segment is that of another, both from 1.
pub(crate) fn same_element(a: &Segment, n: usize, b: &Segment, m: usize) -> bool
    requires first { 0 < n }
    requires second { 0 < m }
    ensures { result ≡ same_element (element a.now n) (element b.now m) }
{
    let count = a.elements.components(n - 1);
    count == b.elements.components(m - 1)
        && (0..count).all(|k| a.elements.component(n - 1, k) == b.elements.component(m - 1, k))
}

/// Whether an EQD is of a container or of breakbulk.
fn equipment(segment: &Segment) -> Option<Role>
    requires { has_tag segment.now (codes "EQD") ≡ true }
    ensures { IsReadAs segment.now result }
{
    if Role::Container.has(segment) {
        Some(Role::Container)
    } else {
        Role::Breakbulk.if_had(segment)
    }
}

impl Role {
    /// Whether the segment has the role.
    pub(crate) fn has(self, segment: &Segment) -> bool
        ensures { result ≡ has_role self segment.now }
    {
        match self {
            Role::Opening => is_coded(segment, b"LOC", b"147"),
            Role::Closing => is_unt(segment) || is_unz(segment),
            Role::Container => is_coded(segment, b"EQD", b"CN"),
            Role::Breakbulk => is_coded(segment, b"EQD", b"BB"),
            Role::Port => {
                is_coded(segment, b"LOC", b"11") && !component(segment, 2, 1).is_empty()
            }
            Role::Verified => is_coded(segment, b"MEA", b"VGM"),
            Role::Unverified => is_coded(segment, b"MEA", b"WT"),
            Role::Weight => {
                is_coded(segment, b"MEA", b"VGM") || is_coded(segment, b"MEA", b"WT")
            }
            Role::Cooled => is_coded(segment, b"TMP", b"2"),
            Role::Danger => has_tag(segment, b"DGS"),
        }
    }

    /// Which one a segment of a cell group is of container, breakbulk, port, weight and dangerous goods: what
    /// may be a cause there. The tag is looked at first, since most segments are only kept.
    pub(crate) fn read(segment: &Segment) -> Option<Role>
        ensures { IsReadAs segment.now result }
    {
        if has_tag(segment, b"LOC") {
            Role::Port.if_had(segment)
        } else if has_tag(segment, b"MEA") {
            Role::Weight.if_had(segment)
        } else if has_tag(segment, b"EQD") {
            equipment(segment)
        } else if has_tag(segment, b"DGS") {
            Some(Role::Danger)
        } else {
            None
        }
    }

    /// The role, where the segment has it.
    fn if_had(self, segment: &Segment) -> Option<Role>
        ensures { result ≡ (if has_role self segment.now then Some self else None) }
    {
        if self.has(segment) { Some(self) } else { None }
    }

    /// The first segment with the role.
    pub(crate) fn first(self, segments: &[Segment]) -> Option<&Segment>
        ensures { option_map (λ s. s.now) result ≡ find (has_role self) segments.now }
    {
        segments.iter().find(|segment| self.has(segment))
    }

    /// Whether a segment has the role.
    pub(crate) fn any(self, segments: &[Segment]) -> bool
        ensures { result ≡ list_any (has_role self) segments.now }
    {
        segments.iter().any(|segment| self.has(segment))
    }

    /// Where the first segment with the role stands, from a place on, or the length.
    pub(crate) fn place_from(self, segments: &[Segment], from: usize) -> usize
        requires { from ≤ length segments.now }
        ensures place { result ≡ from + position_or_len (has_role self) (drop from segments.now) }
        ensures within { result ≤ length segments.now }
        ensures least { from ≤ result }
    {
        let mut at = from;
        while at < segments.len() && !self.has(&segments[at]) {
            at += 1;
        }
        at
    }
}
