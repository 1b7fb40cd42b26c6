//! Why an event is refused.

/// Why the machine refuses an event. The causes of an event are looked at in the order in which they stand here.
#[derive(Clone, Copy, PartialEq, Eq)]
pub enum Refused {
    /// There is no such worker or victim.
    NoWorker,

    /// The hand holds a node, or a child isn't pushed yet.
    HandFull,

    /// The hand holds no node.
    HandEmpty,

    /// The deque to be taken from is empty.
    DequeEmpty,

    /// The node in hand has a ticket already.
    HasTicket,

    /// The node in hand has no ticket.
    NoTicket,

    /// The worker saw no value yet.
    NotSeen,

    /// The record names a row that the program hasn't, brings a multiplier out of its range, or has another end than the event needs.
    BadEntry,

    /// The box after the record's steps isn't full, or violates a base row.
    NotFull,

    /// The leaf doesn't close at the value seen: its dual value, and the least one that would close.
    Short { value: i128, needed: i128 },

    /// The branch's variable isn't free in the box after the record's steps.
    NotFree,

    /// No child waits to be pushed.
    NoChild,
}
