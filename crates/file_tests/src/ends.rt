//! Each call once over the doubles, the real files, and streams that give and take little at a time.
use std::alloc::Global;
use std::cell::Cell;
use std::fmt::Display;
use std::fs::{self, Permissions};
use std::io::{self, ErrorKind, Print, Read, Write};
use std::os::unix::fs::{PermissionsExt, symlink};
use std::process;
use std::test::Fail;
use stow_data::{Bytes, NoMemory, NumberList};
use stow_io::{
    Failed, Folder, FolderNo, Gate, MemFolder, MemSink, NoGate, RealFolder, RealOut, Sink,
    SureFolder, read_file, read_whole, write_whole,
};

fn numbers(alloc: Global, list: &[u32]) -> Result<NumberList, NoMemory> {
    let mut numbers = NumberList::new(alloc);
    for number in list {
        numbers.push(*number)?;
    }
    Ok(numbers)
}

#[test]
fn a_folder_some_of_whose_calls_fail(rt: HostRuntime) -> Result<(), Fail> {
    let alloc = rt.alloc();
    let mut folder = MemFolder::new(alloc, numbers(alloc, &[2, 5])?);
    folder.lay("a", b"first")?;
    assert!(rt;
        folder
            .read("a")
            .is_ok_and(|bytes| bytes.as_slice() == b"first".as_slice())
    );
    assert!(rt; folder.write("a", b"second") == Err(FolderNo::Failed));
    assert!(rt;
        folder
            .file("a")
            .is_some_and(|bytes| bytes.as_slice() == b"first".as_slice())
    );
    assert!(rt; folder.write("b", b"third") == Ok(()));
    assert!(rt; folder.read("c").is_err());
    assert!(rt; folder.read("b").is_err());
    assert!(rt;
        folder
            .read("b")
            .is_ok_and(|bytes| bytes.as_slice() == b"third".as_slice())
    );
    assert!(rt; folder.file("c").is_none());
    Ok(())
}

#[test]
fn a_folder_that_never_fails(rt: HostRuntime) -> Result<(), Fail> {
    let alloc = rt.alloc();
    let mut folder = SureFolder::new(alloc);
    folder.lay("a", b"first")?;
    assert!(rt; folder.read("none").is_ok_and(|bytes| bytes.is_empty()));
    assert!(rt; folder.write("a", b"second") == Ok(()));
    assert!(rt;
        folder
            .read("a")
            .is_ok_and(|bytes| bytes.as_slice() == b"second".as_slice())
    );
    assert!(rt; folder.file("a").is_some_and(|bytes| bytes.len() == 6));
    assert!(rt; folder.file("none").is_none());
    NoGate.before(1, 1);
    Ok(())
}

#[test]
fn a_sink_with_little_room(rt: HostRuntime) -> Result<(), Fail> {
    let alloc = rt.alloc();
    let mut sink = MemSink::new(alloc, 6, numbers(alloc, &[2])?)?;
    assert!(rt; sink.put(b"abc") == Ok(()));
    assert!(rt; sink.put(b"d") == Err(Failed));
    assert!(rt; sink.put(b"defg") == Err(Failed));
    assert!(rt; sink.put(b"def") == Ok(()));
    assert!(rt; sink.put(b"") == Ok(()));
    assert_eq!(rt; sink.text().as_slice(), b"abcdef".as_slice());
    Ok(())
}

/// A stream that gives and takes a few bytes at a time, and fails at one of its turns, counted from 1.
#[derive(Drop)]
struct Narrow<'a> {
    given: &'a [u8],
    taken: Bytes,
    each: usize,
    turn: u32,
    fails: u32,
}

impl<'a> Narrow<'a> {
    fn new(alloc: Global, given: &'a [u8], each: usize, fails: u32) -> Narrow<'a> {
        Narrow {
            given,
            taken: Bytes::new(alloc),
            each,
            turn: 0,
            fails,
        }
    }

    fn next_turn(&mut self) -> io::Result<()> {
        self.turn = self.turn.saturating_add(1);
        if self.turn == self.fails {
            return Err(io::Error::from(ErrorKind::Other));
        }
        Ok(())
    }
}

impl<'a> Read for Narrow<'a> {
    fn read(&mut self, buf: &mut [u8]) -> io::Result<usize> {
        self.next_turn()?;
        let count = self.each.min(buf.len()).min(self.given.len());
        buf[..count].copy_from_slice(&self.given[..count]);
        self.given = &self.given[count..];
        Ok(count)
    }
}

impl<'a> Write for Narrow<'a> {
    fn write(&mut self, buf: &[u8]) -> io::Result<usize> {
        self.next_turn()?;
        let count = self.each.min(buf.len());
        if self.taken.extend(&buf[..count]).is_err() {
            return Ok(0);
        }
        Ok(count)
    }

    fn flush(&mut self) -> io::Result<()> {
        Ok(())
    }
}

/// What is read of ten bytes, two at a time, with this limit, where this turn fails.
fn ten_read(alloc: Global, most: usize, fails: u32) -> Result<Bytes, FolderNo> {
    let mut stream = Narrow::new(alloc, b"0123456789", 2, fails);
    read_whole(alloc, &mut stream, &mut [0; 4], most)
}

#[test]
fn short_reads(rt: HostRuntime) -> Result<(), Fail> {
    let alloc = rt.alloc();
    assert!(rt;
        ten_read(alloc, 10, 0).is_ok_and(|bytes| bytes.as_slice() == b"0123456789".as_slice())
    );
    assert!(rt; ten_read(alloc, 9, 0).is_err_and(|no| no == FolderNo::Failed));
    assert!(rt; ten_read(alloc, 10, 3).is_err_and(|no| no == FolderNo::Failed));
    Ok(())
}

#[test]
fn short_writes(rt: HostRuntime) -> Result<(), Fail> {
    let alloc = rt.alloc();
    let mut stream = Narrow::new(alloc, b"", 3, 0);
    assert!(rt; write_whole(&mut stream, b"01234567") == Ok(()));
    assert!(rt; stream.taken.as_slice() == b"01234567".as_slice());
    let mut stream = Narrow::new(alloc, b"", 3, 2);
    assert!(rt; write_whole(&mut stream, b"01234567") == Err(Failed));
    assert!(rt; stream.taken.as_slice() == b"012".as_slice());
    let mut stream = Narrow::new(alloc, b"", 0, 0);
    assert!(rt; write_whole(&mut stream, b"0") == Err(Failed));
    Ok(())
}

/// An output that takes a byte at a time, and fails when its turns are used up.
#[derive(Drop)]
struct Shy {
    turns: Cell<u32>,
}

impl Print for Shy {
    fn print<D: Display + Drop>(&self, _value: D) -> io::Result<()> {
        Err(io::Error::from(ErrorKind::Unsupported))
    }

    fn println<D: Display + Drop>(&self, _value: D) -> io::Result<()> {
        Err(io::Error::from(ErrorKind::Unsupported))
    }

    fn write_all(&self, _bytes: &[u8]) -> io::Result<()> {
        Err(io::Error::from(ErrorKind::Unsupported))
    }

    fn write_some(&self, bytes: &[u8]) -> io::Result<usize> {
        let turns = self.turns.get();
        if turns == 0 {
            return Err(io::Error::from(ErrorKind::Other));
        }
        self.turns.set(turns - 1);
        Ok(bytes.len().min(1))
    }
}

/// All bytes come out where each turn takes one, and a turn that fails in the middle is told.
#[test]
fn a_shy_output(rt: HostRuntime) -> Result<(), Fail> {
    let shy = Shy {
        turns: Cell::new(5),
    };
    let mut out = RealOut::new(&shy);
    assert!(rt; out.put(b"abc") == Ok(()));
    assert!(rt; shy.turns.get() == 2);
    assert!(rt; out.put(b"def") == Err(Failed));
    Ok(())
}

const FILE: &str = "stow_io_test.bin";

/// A file of more than one piece, and of no multiple of it, is read as it was written.
#[test]
fn a_long_file(rt: HostRuntime) -> Result<(), Fail> {
    let alloc = rt.alloc();
    let mut text = vec![in alloc; 7u8; 200_001]?;
    text[200_000] = 9;
    let mut folder = RealFolder::new(&rt, alloc);
    assert!(rt; folder.write(FILE, text.as_slice()) == Ok(()));
    let found = folder.read(FILE);
    assert!(rt; found.is_ok_and(|bytes| bytes.as_slice() == text.as_slice()));
    fs::remove_file(&rt, FILE)?;
    Ok(())
}

const SHORTER: &str = "stow_io_shorter.bin";

/// Of a longer file that stood under the name nothing is left.
#[test]
fn a_shorter_file(rt: HostRuntime) -> Result<(), Fail> {
    let alloc = rt.alloc();
    let text = vec![in alloc; 7u8; 200_001]?;
    let mut folder = RealFolder::new(&rt, alloc);
    assert!(rt; folder.write(SHORTER, text.as_slice()) == Ok(()));
    assert!(rt; folder.write(SHORTER, b"abc") == Ok(()));
    let found = folder.read(SHORTER);
    fs::remove_file(&rt, SHORTER)?;
    assert!(rt; found.is_ok_and(|bytes| bytes.as_slice() == b"abc".as_slice()));
    Ok(())
}

/// A disk without room is told. A device takes the bytes as they come.
#[test]
fn a_full_disk(rt: HostRuntime) -> Result<(), Fail> {
    let mut folder = RealFolder::new(&rt, rt.alloc());
    assert!(rt; folder.write("/dev/full", b"x") == Err(FolderNo::Failed));
    assert!(rt; folder.write("/dev/null", b"x") == Ok(()));
    Ok(())
}

/// Whether a file that a run of this process began stands in the folder.
fn is_littered(rt: &HostRuntime) -> io::Result<bool> {
    let own = format!(in rt.alloc(); ".stow-{}-", process::id(rt.process()))?;
    for entry in fs::read_dir(rt, ".")? {
        if entry?.file_name().starts_with(own.as_str()) {
            return Ok(true);
        }
    }
    Ok(false)
}

/// A write that fails once its file is begun takes that away again: here no plain file can take the name's place.
#[test]
fn nothing_is_left_of_a_fault(rt: HostRuntime) -> Result<(), Fail> {
    let mut folder = RealFolder::new(&rt, rt.alloc());
    assert!(rt; folder.write("stow_io_folder/", b"x") == Err(FolderNo::Failed));
    assert!(rt; !is_littered(&rt)?);
    assert!(rt; folder.write("stow_io_whole.bin", b"x") == Ok(()));
    assert!(rt; !is_littered(&rt)?);
    fs::remove_file(&rt, "stow_io_whole.bin")?;
    Ok(())
}

/// What a run began that was killed is taken away, and what one that goes on has begun stays.
#[test]
fn what_killed_runs_began(rt: HostRuntime) -> Result<(), Fail> {
    let (gone, alive) = (".stow-99999999-1.part", ".stow-1-1.part");
    fs::write(&rt, gone, "half")?;
    fs::write(&rt, alive, "half")?;
    let mut folder = RealFolder::new(&rt, rt.alloc());
    let written = folder.write("stow_io_swept.bin", b"x");
    let found = (fs::exists(&rt, gone)?, fs::exists(&rt, alive)?);
    fs::remove_file(&rt, alive)?;
    fs::remove_file(&rt, "stow_io_swept.bin")?;
    assert!(rt; written == Ok(()));
    assert!(rt; found == (false, true));
    Ok(())
}

/// A symbolic link stays, and the file that it leads to is replaced, or made. A replaced file keeps its rights.
#[test]
fn links_and_rights(rt: HostRuntime) -> Result<(), Fail> {
    let (link, target) = ("stow_io_link.bin", "stow_io_target.bin");
    symlink(&rt, target, link)?;
    let mut folder = RealFolder::new(&rt, rt.alloc());
    let first = folder.write(link, b"made");
    fs::set_permissions(&rt, target, Permissions::from_mode(0o640))?;
    let second = folder.write(link, b"replaced");
    let found = folder.read(target);
    let is_link = fs::symlink_metadata(&rt, link)?.is_symlink();
    let mode = fs::metadata(&rt, target)?.permissions().mode();
    fs::remove_file(&rt, link)?;
    fs::remove_file(&rt, target)?;
    assert!(rt; first == Ok(()));
    assert!(rt; second == Ok(()));
    assert!(rt; found.is_ok_and(|bytes| bytes.as_slice() == b"replaced".as_slice()));
    assert!(rt; is_link);
    assert!(rt; mode & 0o777 == 0o640);
    Ok(())
}

/// A file that can't be read or written is told as that, and not as want of memory.
#[test]
fn real_ends(rt: HostRuntime) -> Result<(), Fail> {
    let alloc = rt.alloc();
    let mut folder = RealFolder::new(&rt, alloc);
    let missing = folder.read("stow_io_missing.bin");
    assert!(rt; missing.is_err_and(|no| no == FolderNo::Failed));
    assert!(rt; folder.write("stow_io_missing/file.bin", b"x") == Err(FolderNo::Failed));
    let mut out = RealOut::new(&rt);
    assert!(rt; out.put(b"") == Ok(()));
    Ok(())
}

/// A file past the limit is refused and not cut, and one at the limit is read.
#[test]
fn the_limit_of_a_file(rt: HostRuntime) -> Result<(), Fail> {
    let alloc = rt.alloc();
    let name = "stow_io_limit.bin";
    let mut folder = RealFolder::new(&rt, alloc);
    assert!(rt; folder.write(name, b"0123456789") == Ok(()));
    let past = read_file(&rt, alloc, name, 9);
    let at = read_file(&rt, alloc, name, 10);
    fs::remove_file(&rt, name)?;
    assert!(rt; past.is_err_and(|no| no == FolderNo::Failed));
    assert!(rt; at.is_ok_and(|bytes| bytes.len() == 10));
    Ok(())
}
