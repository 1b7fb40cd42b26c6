//! A file that is written whole or not at all: beside its target, under a name that no other run has, from which it takes
//! the target's place.
use crate::outside::FolderNo;
use crate::streams::write_whole;
use std::alloc::Global;
use std::fs::{self, File, OpenFile, OpenOptions, Permissions};
use std::io::{self, ErrorKind, Read, Write};
use std::path::{Path, PathBuf};
use std::rt::Files;

/// How many symbolic links a name is followed through at most, as by Linux.
const MOST_LINKS: u32 = 40;

fn cause(error: io::Error) -> FolderNo {
    match error.kind() {
        ErrorKind::OutOfMemory => FolderNo::NoMemory,
        _ => FolderNo::Failed,
    }
}

/// The name that symbolic links lead to from this one, whether or not a file stands there.
fn end_of_links<R: Files>(rt: &R, alloc: Global, name: &str) -> Result<PathBuf<Global>, FolderNo> {
    let mut path = PathBuf::from_str(alloc, name).map_err(|_| FolderNo::NoMemory)?;
    for _ in 0..MOST_LINKS {
        match rt.read_link(alloc, path.as_str()) {
            Ok(next) => {
                path.pop();
                path.push(next.as_str()).map_err(|_| FolderNo::NoMemory)?;
            }
            Err(error) if error.kind() == ErrorKind::OutOfMemory => return Err(FolderNo::NoMemory),
            Err(_) => return Ok(path),
        }
    }
    Err(FolderNo::Failed)
}

fn folder_of(path: &PathBuf<Global>) -> Path<'_> {
    match path.parent() {
        Some(folder) if !folder.as_str().is_empty() => folder,
        _ => Path::new("."),
    }
}

/// The process in the name of a file that a run began, where it is one.
fn process_in(name: &str) -> Option<&str> {
    let (process, _) = name
        .strip_prefix(".stow-")?
        .strip_suffix(".part")?
        .split_once('-')?;
    Some(process)
}

/// Whether no process has the number any more.
fn is_gone<R: Files>(rt: &R, alloc: Global, process: &str) -> bool {
    let Ok(path) = format!(in alloc; "/proc/{process}") else {
        return false;
    };
    match fs::symlink_metadata(rt, path.as_str()) {
        Ok(_) => false,
        Err(error) => error.kind() == ErrorKind::NotFound,
    }
}

/// Takes away what killed runs began in the folder, those that had this run's own number among them: it has begun nothing
/// yet. What can't be listed or taken away stays.
fn sweep<R: Files>(rt: &R, alloc: Global, folder: Path<'_>, own: &str) {
    let Ok(entries) = fs::read_dir(&(rt, alloc), folder) else {
        return;
    };
    for entry in entries {
        let Ok(entry) = entry else {
            continue;
        };
        let Some(process) = process_in(entry.file_name()) else {
            continue;
        };
        if process == own || is_gone(rt, alloc, process) {
            // (the next run tries again)
            let _ = fs::remove_file(rt, entry.path());
        }
    }
}

/// A number by chance: names differ by it where runs on two machines, whose processes may have one number, write in one folder.
fn drawn<R: Files>(rt: &R) -> u64 {
    let mut bytes = [0; 8];
    if let Ok(mut file) = fs::open(rt, "/dev/urandom") {
        let _ = file.read(&mut bytes);
    }
    u64::from_le_bytes(bytes)
}

/// A name beside the target that no other run has, once what killed runs left there is taken away.
fn part_beside<R: Files>(
    rt: &R,
    alloc: Global,
    target: &PathBuf<Global>,
) -> Result<PathBuf<Global>, FolderNo> {
    let folder = folder_of(target);
    let number = drawn(rt);
    let name = match rt.read_link(alloc, "/proc/self") {
        Ok(own) => {
            sweep(rt, alloc, folder, own.as_str());
            format!(in alloc; ".stow-{}-{number}.part", own.as_str())
        }
        Err(_) => format!(in alloc; ".stow-0-{number}.part"),
    };
    let name = name.map_err(|_| FolderNo::NoMemory)?;
    folder
        .join(alloc, name.as_str())
        .map_err(|_| FolderNo::NoMemory)
}

/// Writes the bytes to a new file and on to the disk. It gets its rights first, so that nobody else reads what it will hold.
fn fill<F: Write + OpenFile>(
    file: &mut F,
    rights: Option<Permissions>,
    bytes: &[u8],
) -> Result<(), FolderNo> {
    if let Some(rights) = rights {
        // (some disks have no rights)
        let _ = file.set_permissions(rights);
    }
    write_whole(file, bytes).map_err(|_| FolderNo::Failed)?;
    file.sync_data().map_err(cause)
}

/// Leaves the bytes under the name at once, or what was there. The new file gets these rights, or those of any new file.
fn replace<R: Files>(
    rt: &R,
    alloc: Global,
    name: &str,
    rights: Option<Permissions>,
    bytes: &[u8],
) -> Result<(), FolderNo> {
    let target = end_of_links(rt, alloc, name)?;
    let part = part_beside(rt, alloc, &target)?;
    let mut file = File::create_new(rt, part.as_path()).map_err(cause)?;
    let filled = fill(&mut file, rights, bytes);
    let replaced = match filled {
        Ok(()) => fs::rename(rt, part.as_path(), target.as_path()).map_err(cause),
        Err(no) => Err(no),
    };
    if replaced.is_err() {
        // (the next run tries again)
        let _ = fs::remove_file(rt, part.as_path());
    }
    replaced
}

/// Writes a file whole or not at all. What isn't a plain file, a device or a pipe, takes the bytes as they come.
/// `FolderNo::NoMemory` where there is no memory for a name, and `FolderNo::Failed` where the file may not be written, or
/// nothing can be made beside it, or the disk is full.
pub fn write_file<R: Files>(
    rt: &R,
    alloc: Global,
    name: &str,
    bytes: &[u8],
) -> Result<(), FolderNo> {
    match OpenOptions::new().write(true).open(rt, name) {
        Ok(mut file) => {
            let found = file.metadata().map_err(cause)?;
            if found.is_file() {
                replace(rt, alloc, name, Some(found.permissions()), bytes)
            } else {
                write_whole(&mut file, bytes).map_err(|_| FolderNo::Failed)
            }
        }
        Err(error) if error.kind() == ErrorKind::NotFound => replace(rt, alloc, name, None, bytes),
        Err(error) => Err(cause(error)),
    }
}
