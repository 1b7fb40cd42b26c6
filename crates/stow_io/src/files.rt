//! Files to be written, and a report.
use stow_data::{Bytes, Seq, Word};

/// A file to be written.
#[derive(Drop)]
pub struct NamedFile {
    pub name: Word,
    pub bytes: Bytes,
}

/// Files in the order in which they are written.
pub type FileList = Seq<NamedFile>;

/// What a run found, which its status tells once all is written and printed.
#[derive(Clone, Copy)]
pub enum Finding {
    /// All is as it was asked for.
    Fine,
    /// A plan that costs more than the bound; the node budget was spent.
    Gap,
    /// There is no legal voyage.
    NoPlan,
    /// No plan; the node budget was spent.
    Undecided,
}

/// The files to be written, in their order, and the report to be printed after them.
#[derive(Drop)]
pub struct Work {
    pub files: FileList,
    pub report: Bytes,
    pub finding: Finding,
}
