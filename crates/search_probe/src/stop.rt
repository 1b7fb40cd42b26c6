//! Why the probe ends before the last line.
use stow_data::NoMemory;
use stow_io::FolderNo;

/// Why the probe ends before the last line.
#[derive(Clone, Copy)]
pub enum Stop {
    NoMemory,
    /// A file can't be read, or a line can't be printed.
    Failed,
    /// A line or a file isn't one that the probe knows.
    Unclear,
}

impl From<NoMemory> for Stop {
    fn from(_: NoMemory) -> Self {
        Stop::NoMemory
    }
}

impl From<FolderNo> for Stop {
    fn from(no: FolderNo) -> Self {
        match no {
            FolderNo::Failed => Stop::Failed,
            FolderNo::NoMemory => Stop::NoMemory,
        }
    }
}
