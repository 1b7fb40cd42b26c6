//! How the program ends.

/// How a run ended. The number of each is the exit status of the program.
#[derive(Clone, Copy, PartialEq, Eq)]
pub enum Status {
    /// All was done.
    Fine = 0,
    /// The words are not taken.
    Words = 2,
    /// A bay plan is refused.
    Input = 6,
    /// The folder's or the sink's count of faults rose.
    Fault = 7,
    /// Want of memory.
    Memory = 8,
}
