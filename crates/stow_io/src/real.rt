//! The real folder and the real output: the trusted edge, which tells nothing of content.
ghost use Rattle.std.specs.Prelude.{false, ◌≡◌, ◌≤◌, length, None, IfOk, IsErrOf};
ghost use Rattle.stow_io.specs.Causes.{Rose};

use crate::outside::{Failed, Folder, FolderNo, MOST_READ, Sink};
use crate::streams::{read_whole, write_whole};
use crate::whole::write_file;
use std::alloc::Global;
use std::fs;
use std::io::{self, Print};
use std::marker::Model;
use std::rt::Files;
use stow_data::Bytes;

/// A file is read in pieces of this size.
const PIECE: usize = 65_536;

/// The files of the folder that the program runs in, by their paths. A file is written whole or not at all, as `write_file`
/// says, and it writes one at a time. Contracts see its count of faults.
#[derive(Drop)]
pub struct RealFolder<'a, R: Files> {
    rt: &'a R,
    alloc: Global,
    faults: u64,
}

impl<'a, R: Files> Model for RealFolder<'a, R> {
    ghost use Rattle.std.specs.Prelude.{ℕ};

    ghost Value = { ℕ };

    ghost view = { λ f. f.faults };
}

impl<'a, R: Files> RealFolder<'a, R> {
    /// The folder, without a fault so far.
    pub fn new(rt: &'a R, alloc: Global) -> Self
        ensures files { ⟦<RealFolder<'a, R> as Folder>⟧.files result ≡ None }
        ensures faults { ⟦<RealFolder<'a, R> as Folder>⟧.faults result ≡ 0 }
    {
        RealFolder {
            rt,
            alloc,
            faults: 0,
        }
    }

    /// Counts a fault, where the call ended with one.
    fn counted<T>(&mut self, end: Result<T, FolderNo>) -> Result<T, FolderNo>
        ensures same { result ≡ end }
        ensures later { self.old ≤ self.new }
        ensures failed { IsErrOf end FolderNo.Failed → Rose self.old self.new }
        ensures quiet { (IsErrOf end FolderNo.Failed → ⊥) → self.new ≡ self.old }
    {
        if let Err(FolderNo::Failed) = end {
            self.faults = self.faults.saturating_add(1);
        }
        end
    }
}

/// All bytes of a file, which has at most `most` of them. `FolderNo::NoMemory` where there is no memory for a piece or for
/// the bytes, and `FolderNo::Failed` where the file is missing, can't be read, or has more.
pub fn read_file<R: Files>(
    rt: &R,
    alloc: Global,
    name: &str,
    most: usize,
) -> Result<Bytes, FolderNo>
    ensures { IfOk result (λ bytes. length bytes ≤ most) }
{
    let Ok(mut piece) = vec![in alloc; 0u8; PIECE] else {
        return Err(FolderNo::NoMemory);
    };
    let mut file = fs::open(rt, name).map_err(|_| FolderNo::Failed)?;
    read_whole(alloc, &mut file, piece.as_mut_slice(), most)
}

#[tactic(auto, unfolding(crate::specs::Files::put))]
impl<'a, R: Files> Folder for RealFolder<'a, R> {
    ghost files = { λ _. None };

    ghost faults = { λ f. f };

    ghost has_every_name = { false };

    fn read(&mut self, name: &str) -> Result<Bytes, FolderNo> {
        let result = read_file(self.rt, self.alloc, name, MOST_READ);
        self.counted(result)
    }

    fn write(&mut self, name: &str, bytes: &[u8]) -> Result<(), FolderNo> {
        let result = write_file(self.rt, self.alloc, name, bytes);
        self.counted(result)
    }
}

/// Standard output. Contracts see its count of faults.
#[derive(Drop)]
pub struct RealOut<'a, R: Print> {
    rt: &'a R,
    faults: u64,
}

impl<'a, R: Print> Model for RealOut<'a, R> {
    ghost use Rattle.std.specs.Prelude.{ℕ};

    ghost Value = { ℕ };

    ghost view = { λ s. s.faults };
}

impl<'a, R: Print> RealOut<'a, R> {
    /// The output, without a fault so far.
    pub fn new(rt: &'a R) -> Self
        ensures written { ⟦<RealOut<'a, R> as Sink>⟧.written result ≡ None }
        ensures faults { ⟦<RealOut<'a, R> as Sink>⟧.faults result ≡ 0 }
    {
        RealOut { rt, faults: 0 }
    }
}

#[tactic(auto, unfolding(crate::specs::Files::append))]
impl<'a, R: Print> Sink for RealOut<'a, R> {
    ghost written = { λ _. None };

    ghost faults = { λ s. s };

    fn put(&mut self, bytes: &[u8]) -> Result<(), Failed> {
        let result = write_whole(&mut io::writer(self.rt), bytes);
        if result.is_err() {
            self.faults = self.faults.saturating_add(1);
        }
        result
    }
}
