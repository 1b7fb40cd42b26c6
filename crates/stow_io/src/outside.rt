//! The folder, the sink and the gate: what they mean, and when they may fail.
ghost use Rattle.std.specs.Prelude.{◌≡◌, ◌≤◌, ℕ, Bool, List, Option, length, is_ok, IfOk, IfSome, IsErrOf, IsFalse, IsSome, OnOk};
ghost use Rattle.stow_io.specs.Causes.{Rose, HasCause};
ghost use Rattle.stow_io.specs.Files.{Files, bytes_at, Writes, Appends};
ghost use Rattle.stow_io.specs.declared.outside.FolderNo.TheVariants.{NoMemory as WantOfMemory};

use stow_data::{Bytes, NoMemory};

/// The most bytes that a read gives.
pub const MOST_READ: usize = 536_870_912;

/// Why a file was not read or written: a fault, which was counted, or want of memory.
#[derive(Clone, Copy, PartialEq, Eq)]
pub enum FolderNo {
    Failed,
    NoMemory,
}

impl From<NoMemory> for FolderNo {
    ghost from_gives = { λ _ e. e ≡ WantOfMemory };

    fn from(_: NoMemory) -> Self {
        FolderNo::NoMemory
    }
}

/// A put that failed, which was counted.
#[derive(Clone, Copy, PartialEq, Eq)]
pub struct Failed;

/// Files by their names.
pub trait Folder {
    /// The bytes under each name, where they are told.
    ghost files: { Self → Option Files };

    /// How often a read or a write has failed.
    ghost faults: { Self → ℕ };

    /// Whether a name under which no file stands reads as an empty file. Otherwise such a read fails.
    ghost has_every_name: { Bool };

    /// The bytes under the name, at most `MOST_READ` of them. Where no file stands there, no bytes come from a folder that has every name, and a fault from any other.
    fn read(&mut self, name: &str) -> Result<Bytes, FolderNo>
        ensures gives { IfOk result (λ bytes. IfSome (files self.old) (λ m. bytes ≡ bytes_at m name.now)) }
        ensures stands { IsFalse has_every_name → OnOk result (IfSome (files self.old) (λ m. IsSome (m name.now))) }
        ensures small { IfOk result (λ bytes. length bytes ≤ 536870912) }
        ensures stays { files self.new ≡ files self.old }
        ensures later { faults self.old ≤ faults self.new }
        ensures failed { IsErrOf result FolderNo.Failed → Rose (faults self.old) (faults self.new) }
        ensures quiet { (IsErrOf result FolderNo.Failed → ⊥) → faults self.new ≡ faults self.old };

    /// Leaves the bytes under the name. A failed write leaves what was there or a prefix of them.
    fn write(&mut self, name: &str, bytes: &[u8]) -> Result<(), FolderNo>
        ensures writes { Writes name.now bytes.now result (files self.old) (files self.new) }
        ensures later { faults self.old ≤ faults self.new }
        ensures failed { IsErrOf result FolderNo.Failed → Rose (faults self.old) (faults self.new) }
        ensures quiet { (IsErrOf result FolderNo.Failed → ⊥) → faults self.new ≡ faults self.old };
}

/// What is printed goes here.
pub trait Sink {
    /// What was written, where it is told.
    ghost written: { Self → Option (List ℕ) };

    /// How often a put has failed.
    ghost faults: { Self → ℕ };

    /// Appends the bytes. A failed put appends a prefix of them.
    fn put(&mut self, bytes: &[u8]) -> Result<(), Failed>
        ensures appends { Appends bytes.now (is_ok result) (written self.old) (written self.new) }
        ensures cause { HasCause (faults self.old) (faults self.new) result };
}

/// A place that a worker passes before each turn.
pub trait Gate {
    /// Called before a worker handles a node. Workers count from 1, and so do a worker's turns.
    fn before(&self, worker: u32, turn: u64);
}

/// A gate that lets everyone pass at once.
pub struct NoGate;

impl Gate for NoGate {
    fn before(&self, _worker: u32, _turn: u64) {}
}
