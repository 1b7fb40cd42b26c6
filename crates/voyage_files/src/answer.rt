//! What an order comes to before anything is written or printed.
use stow_data::Bytes;
use stow_io::Work;

/// The answer to an order.
#[derive(Drop)]
pub enum Answer {
    /// Files to be written, and a report to be printed after them.
    Work(Work),
    /// A written file or number is refused: the line that says so.
    No(Bytes),
    /// An input is refused: the line that says so.
    Input(Bytes),
    /// A limit is passed: the line that says so.
    Large(Bytes),
    /// The call that the words name is above that of the last departure.
    Call,
}
