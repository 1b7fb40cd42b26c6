//! Folders and a sink in memory.
ghost use Rattle.std.specs.Prelude.{true, false, ◌≡◌, ◌⊎◌, ◌≤◌, ◌<◌, ◌+◌, ◌-◌, ◌^◌, ◌↔◌, ◌++◌, [], IsTrue, length, min, Contains, Some, None, IfOk, IfErr, IfSome, IsOk, IsErrOf, OnOk, OnErr, is_ok, if◌then◌else◌};
ghost use Rattle.std.specs.Option.{option_copied};
ghost use Rattle.stow_io.specs.Causes.{Rose, HasCause};
ghost use Rattle.stow_io.specs.Files.{put, with_file, bytes_at, Writes, Appends};
ghost use Rattle.stow_io.specs.Memory.{held, NextFails, after_call, after_fault, IsUnreadable};
ghost use Rattle.stow_io.specs.Doubles.{files_in, calls_of, sure_files};

use crate::outside::{Failed, Folder, FolderNo, MOST_READ, Sink};
use std::alloc::Global;
use std::collections::BTreeMap;
use std::marker::Model;
use stow_data::{Bytes, NoMemory, NumberList};

fn lay_in(
    alloc: Global,
    files: &mut BTreeMap<String, Bytes>,
    name: &str,
    bytes: &[u8],
) -> Result<(), NoMemory>
    ensures ok { OnOk result (held files.new ≡ with_file name.now bytes.now (held files.old)) }
    ensures err { OnErr result (held files.new ≡ held files.old) }
{
    let key = String::from_str(alloc, name)?;
    let copy = Bytes::of(alloc, bytes)?;
    files.insert(key, copy)?;
    Ok(())
}

/// The numbers of the calls that are to fail, with a count of calls and a count of faults.
#[derive(Drop)]
struct Calls {
    failing: NumberList,
    made: u32,
    faults: u64,
}

impl Model for Calls {
    ghost use Rattle.stow_io.specs.Memory.{Calls as State};

    ghost Value = { State };

    ghost view = { λ c. record { failing = c.failing; made = c.made; faults = c.faults } };
}

impl Calls {
    fn new(failing: NumberList) -> Calls
        ensures { result ≡ record { failing = failing; made = 0; faults = 0 } }
    {
        Calls {
            failing,
            made: 0,
            faults: 0,
        }
    }

    /// Counts a call, and says whether it is to fail.
    fn next_fails(&mut self) -> bool
        ensures counted { self.new ≡ after_call self.old }
        ensures fails { IsTrue result ↔ NextFails self.old }
    {
        self.made = self.made.saturating_add(1);
        self.failing.contains(&self.made)
    }

    /// Counts a fault.
    fn count_fault(&mut self)
        ensures rose { Rose self.old.faults self.new.faults }
        ensures later { self.old.faults ≤ self.new.faults }
        ensures counted { self.new ≡ record self.old { faults = min (self.old.faults + 1) (2 ^ 64 - 1) } }
    {
        self.faults = self.faults.saturating_add(1);
    }
}

/// A folder in memory, some of whose calls fail.
#[derive(Drop)]
pub struct MemFolder {
    alloc: Global,
    files: BTreeMap<String, Bytes>,
    calls: Calls,
}

#[tactic(auto, unfolding(crate::specs::Files::put))]
impl MemFolder {
    /// A folder without files, whose calls with these numbers fail. Reads and writes are counted together, from 1.
    pub fn new(alloc: Global, failing: NumberList) -> MemFolder
        ensures files { ⟦<MemFolder as Folder>⟧.files result ≡ Some (λ _. None) }
        ensures calls { calls_of result ≡ record { failing = failing; made = 0; faults = 0 } }
    {
        MemFolder {
            alloc,
            files: BTreeMap::new(alloc),
            calls: Calls::new(failing),
        }
    }

    /// Leaves the bytes under the name. It is not counted.
    pub fn lay(&mut self, name: &str, bytes: &[u8]) -> Result<(), NoMemory>
        ensures ok { OnOk result (⟦<MemFolder as Folder>⟧.files self.new ≡ put name.now bytes.now (⟦<MemFolder as Folder>⟧.files self.old)) }
        ensures err { OnErr result (⟦<MemFolder as Folder>⟧.files self.new ≡ ⟦<MemFolder as Folder>⟧.files self.old) }
        ensures calls { calls_of self.new ≡ calls_of self.old }
    {
        lay_in(self.alloc, &mut self.files, name, bytes)
    }

    /// The bytes under the name, none where none stand there.
    pub fn file(&self, name: &str) -> Option<&Bytes>
        ensures { option_copied result ≡ files_in self.now name.now }
    {
        self.files.get(name)
    }
}

#[tactic(auto, unfolding(crate::specs::Files::put))]
impl Folder for MemFolder {
    ghost files = { λ f. Some (files_in f) };

    ghost faults = { λ f. (calls_of f).faults };

    ghost has_every_name = { false };

    /// Fails where its number is to fail, and where no file stands under the name.
    fn read(&mut self, name: &str) -> Result<Bytes, FolderNo>
        ensures gives { IfOk result (λ bytes. files_in self.old name.now ≡ Some bytes) }
        ensures small { IfOk result (λ bytes. length bytes ≤ 536870912) }
        ensures stays { files_in self.new ≡ files_in self.old }
        ensures later { (calls_of self.old).faults ≤ (calls_of self.new).faults }
        ensures failed { IsErrOf result FolderNo.Failed → Rose (calls_of self.old).faults (calls_of self.new).faults }
        ensures quiet { (IsErrOf result FolderNo.Failed → ⊥) → (calls_of self.new).faults ≡ (calls_of self.old).faults }
        ensures fails { IsErrOf result FolderNo.Failed ↔ (NextFails (calls_of self.old) ⊎ IsUnreadable (files_in self.old) name.now) }
        ensures fault { IsErrOf result FolderNo.Failed → calls_of self.new ≡ after_fault (calls_of self.old) }
        ensures counted { (IsErrOf result FolderNo.Failed → ⊥) → calls_of self.new ≡ after_call (calls_of self.old) }
    {
        if self.calls.next_fails() {
            self.calls.count_fault();
            return Err(FolderNo::Failed);
        }
        match self.files.get(name) {
            Some(bytes) if bytes.len() <= MOST_READ => Ok(bytes.copy(self.alloc)?),
            _ => {
                self.calls.count_fault();
                Err(FolderNo::Failed)
            }
        }
    }

    /// Fails where its number is to fail, and then changes nothing.
    fn write(&mut self, name: &str, bytes: &[u8]) -> Result<(), FolderNo>
        ensures writes { Writes name.now bytes.now result (Some (files_in self.old)) (Some (files_in self.new)) }
        ensures err { OnErr result (files_in self.new ≡ files_in self.old) }
        ensures later { (calls_of self.old).faults ≤ (calls_of self.new).faults }
        ensures failed { IsErrOf result FolderNo.Failed → Rose (calls_of self.old).faults (calls_of self.new).faults }
        ensures quiet { (IsErrOf result FolderNo.Failed → ⊥) → (calls_of self.new).faults ≡ (calls_of self.old).faults }
        ensures fails { IsErrOf result FolderNo.Failed ↔ NextFails (calls_of self.old) }
        ensures fault { IsErrOf result FolderNo.Failed → calls_of self.new ≡ after_fault (calls_of self.old) }
        ensures counted { (IsErrOf result FolderNo.Failed → ⊥) → calls_of self.new ≡ after_call (calls_of self.old) }
    {
        if self.calls.next_fails() {
            self.calls.count_fault();
            return Err(FolderNo::Failed);
        }
        Ok(lay_in(self.alloc, &mut self.files, name, bytes)?)
    }
}

/// A folder in memory that never fails.
#[derive(Drop)]
pub struct SureFolder {
    alloc: Global,
    files: BTreeMap<String, Bytes>,
}

#[tactic(auto, unfolding(crate::specs::Files::put))]
impl SureFolder {
    /// A folder without files.
    pub fn new(alloc: Global) -> SureFolder
        ensures { ⟦<SureFolder as Folder>⟧.files result ≡ Some (λ _. None) }
    {
        SureFolder {
            alloc,
            files: BTreeMap::new(alloc),
        }
    }

    /// Leaves the bytes under the name.
    pub fn lay(&mut self, name: &str, bytes: &[u8]) -> Result<(), NoMemory>
        ensures ok { OnOk result (⟦<SureFolder as Folder>⟧.files self.new ≡ put name.now bytes.now (⟦<SureFolder as Folder>⟧.files self.old)) }
        ensures err { OnErr result (⟦<SureFolder as Folder>⟧.files self.new ≡ ⟦<SureFolder as Folder>⟧.files self.old) }
    {
        lay_in(self.alloc, &mut self.files, name, bytes)
    }

    /// The bytes under the name, none where none stand there.
    pub fn file(&self, name: &str) -> Option<&Bytes>
        ensures { option_copied result ≡ sure_files self.now name.now }
    {
        self.files.get(name)
    }
}

#[tactic(auto, unfolding(crate::specs::Files::put))]
impl Folder for SureFolder {
    ghost files = { λ f. Some (sure_files f) };

    ghost faults = { λ _. 0 };

    ghost has_every_name = { true };

    /// A missing file reads as no bytes. A file that is too long is answered as want of memory.
    fn read(&mut self, name: &str) -> Result<Bytes, FolderNo>
        ensures gives { IfOk result (λ bytes. bytes ≡ bytes_at (sure_files self.old) name.now) }
        ensures small { IfOk result (λ bytes. length bytes ≤ 536870912) }
        ensures stays { sure_files self.new ≡ sure_files self.old }
        ensures never { IfErr result (λ no. no ≡ FolderNo.NoMemory) }
    {
        match self.files.get(name) {
            None => Ok(Bytes::new(self.alloc)),
            Some(bytes) if bytes.len() <= MOST_READ => Ok(bytes.copy(self.alloc)?),
            Some(_) => Err(FolderNo::NoMemory),
        }
    }

    /// Never a fault.
    fn write(&mut self, name: &str, bytes: &[u8]) -> Result<(), FolderNo>
        ensures writes { Writes name.now bytes.now result (Some (sure_files self.old)) (Some (sure_files self.new)) }
        ensures err { OnErr result (sure_files self.new ≡ sure_files self.old) }
        ensures never { IfErr result (λ no. no ≡ FolderNo.NoMemory) }
    {
        Ok(lay_in(self.alloc, &mut self.files, name, bytes)?)
    }
}

/// A sink in memory with room for so many bytes, some of whose puts fail.
#[derive(Drop)]
pub struct MemSink {
    text: Bytes,
    room: usize,
    calls: Calls,
}

impl Model for MemSink {
    ghost use Rattle.std.specs.Prelude.{◌≤◌, length};
    ghost use Rattle.stow_io.specs.Memory.{MemText};

    ghost Value = { MemText };

    ghost view = { λ s. record { text = s.text; room = s.room; calls = s.calls } };

    ghost invariant = { λ s. length s.text ≤ s.room };
}

impl MemSink {
    /// An empty sink with room for so many bytes, whose puts with these numbers fail, counted from 1.
    pub fn new(alloc: Global, room: usize, failing: NumberList) -> Result<MemSink, NoMemory>
        ensures { IfOk result (λ s. s ≡ record { text = []; room = room; calls = record { failing = failing; made = 0; faults = 0 } }) }
    {
        Ok(MemSink {
            text: Bytes::with_room(alloc, room)?,
            room,
            calls: Calls::new(failing),
        })
    }

    /// What is written.
    pub fn text(&self) -> &Bytes
        ensures value { result.now ≡ self.now.text }
        ensures within { length self.now.text ≤ self.now.room }
    {
        &self.text
    }
}

#[tactic(auto, unfolding(crate::specs::Files::append))]
impl Sink for MemSink {
    ghost written = { λ s. Some s.text };

    ghost faults = { λ s. s.calls.faults };

    /// Fails where its number is to fail or the bytes don't fit the room, and then appends nothing.
    fn put(&mut self, bytes: &[u8]) -> Result<(), Failed>
        ensures appends { Appends bytes.now (is_ok result) (Some self.old.text) (Some self.new.text) }
        ensures cause { HasCause self.old.calls.faults self.new.calls.faults result }
        ensures refused { OnErr result (self.new.text ≡ self.old.text) }
        ensures room { self.new.room ≡ self.old.room }
        ensures passes { IsOk result → (NextFails self.old.calls → ⊥) × (length self.old.text + length bytes.now ≤ self.old.room) }
        ensures counted { self.new.calls ≡ (if is_ok result then after_call self.old.calls else after_fault self.old.calls) }
    {
        if self.calls.next_fails() {
            self.calls.count_fault();
            return Err(Failed);
        }
        if bytes.len() > self.room - self.text.len() {
            self.calls.count_fault();
            return Err(Failed);
        }
        if self.text.extend(bytes).is_err() {
            self.calls.count_fault();
            return Err(Failed);
        }
        Ok(())
    }
}
