//! The parts of a message.
use edifact_segments::{Segment, SegmentList};
use stow_data::{Length, Name, Seq};

/// What a cell group tells of its container.
#[derive(Drop)]
pub struct Facts {
    pub id: Name,

    /// The size and type code (ISO 6346). It may be empty.
    pub iso: Name,
    pub long: Length,
    pub empty: bool,

    /// The weight, rounded up to whole kilograms.
    pub kg: u32,
    pub reefer: bool,

    /// The class of dangerous goods.
    pub class: Option<Name>,

    /// The port of discharge.
    pub dest: Name,
}

/// A cell: its bay, row and tier number (ISO 9711), and what stands there.
#[derive(Drop)]
pub struct CellGroup {
    pub bay: u32,
    pub row: u32,
    pub tier: u32,

    /// None for an empty cell.
    pub facts: Option<Facts>,

    /// All segments of the group in their order. The first is LOC+147.
    pub segments: SegmentList,
}

/// A list of cell groups.
pub type GroupList = Seq<CellGroup>;

/// A bay plan message in its interchange.
#[derive(Drop)]
pub struct Message {
    /// UNB.
    pub service: Segment,

    /// UNH.
    pub title: Segment,

    /// The segments before the first cell group.
    pub head: SegmentList,
    pub groups: GroupList,
}

/// A list of messages.
pub type MessageList = Seq<Message>;
