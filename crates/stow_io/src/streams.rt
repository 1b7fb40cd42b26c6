//! All bytes of a reader within a limit, and all bytes to a writer, however few each turn takes.
ghost use Rattle.std.specs.Prelude.{◌≡◌, ◌≤◌, ◌<◌, ℕ, length, take, IfOk, IfSome, OnOk};
ghost use Rattle.std.specs.Io.KnownBytes.{Appends};

use crate::outside::{Failed, FolderNo};
use std::alloc::Global;
use std::io::{Read, Write};
use stow_data::Bytes;

/// All that a reader still gives, read by pieces; `piece` has at least one byte. `FolderNo::NoMemory` where there is no
/// memory for the bytes, and `FolderNo::Failed` where the reader fails or has more than `most`: nothing is ever cut.
pub fn read_whole<F: Read>(
    alloc: Global,
    file: &mut F,
    piece: &mut [u8],
    most: usize,
) -> Result<Bytes, FolderNo>
    requires { 0 < length piece.old }
    ensures within { IfOk result (λ bytes. length bytes ≤ most) }
    ensures whole { IfOk result (λ bytes. IfSome (F.remaining file.old) (λ rest. bytes ≡ rest)) }
{
    let mut bytes = Bytes::new(alloc);
    for _ in 0..=most {
        let Ok(count) = file.read(piece) else {
            return Err(FolderNo::Failed);
        };
        if count == 0 {
            return Ok(bytes);
        }
        if count > most - bytes.len() {
            return Err(FolderNo::Failed);
        }
        bytes.extend(&piece[..count])?;
    }
    Err(FolderNo::Failed)
}

/// Writes all the bytes. Where a turn fails or takes none, those before stay written.
pub fn write_whole<W: Write>(file: &mut W, bytes: &[u8]) -> Result<(), Failed>
    ensures whole { OnOk result (Appends (W.contents file.old) (W.contents file.new) bytes.now) }
    ensures part { (j : ℕ) × Appends (W.contents file.old) (W.contents file.new) (take j bytes.now) }
{
    let mut rest = bytes;
    while !rest.is_empty() {
        match file.write(rest) {
            Ok(count) if count > 0 => rest = &rest[count..],
            _ => return Err(Failed),
        }
    }
    Ok(())
}
