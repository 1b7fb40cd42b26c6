//! Why segments are no bay plan message.

/// The cause of a fault, in the order in which causes at one segment are looked at.
#[derive(Clone, Copy)]
pub enum Cause {
    /// Segment 2 isn't UNH with the message type `BAPLIE:D:95B:UN:SMDG22`.
    NotBaplie,

    /// A segment between UNT and UNZ.
    ManyMessages,

    /// UNZ without an UNT before it.
    NoUnt,

    /// A cell that isn't six or seven digits.
    BadCell,

    /// A cell in a numbering other than ISO 9711 (agency 5).
    AgencyLeftOut,

    /// A second container in a cell group.
    TwoContainers,

    /// Breakbulk.
    BreakbulkLeftOut,

    /// A container without a number.
    NoId,

    /// A container's number or type, a class or a port of discharge of more than 35 bytes.
    NameTooLong,

    /// A type of neither 20 nor 40 foot.
    LengthLeftOut,

    /// A weight in another unit than kilograms.
    UnitLeftOut,

    /// A weight that isn't one to nine digits, perhaps with one to nine decimals, or is above 99,999.
    BadWeight,

    /// A container without a weight or without a port of discharge. It stands at the group's LOC+147.
    NoWeightOrPort,

    /// A control count that isn't one to nine digits.
    BadCount,

    /// A control count other than that of the segments from UNH to UNT, or at UNZ other than 1.
    CountWrong { said: u32, found: u32 },

    /// A reference at UNT other than that of UNH, or at UNZ other than that of UNB.
    ReferenceWrong,
}

/// What is known at a segment of a cell group, besides the segment.
#[derive(Clone, Copy)]
pub struct Prior {
    /// Whether it opens the group.
    pub opens: bool,

    /// Whether the group has a container and lacks a weight or a port of discharge.
    pub lacks: bool,

    /// Whether a container stands before it in the group.
    pub container: bool,

    /// Whether a port of discharge stands before it in the group.
    pub port: bool,

    /// Whether dangerous goods stand before it in the group.
    pub danger: bool,
}
