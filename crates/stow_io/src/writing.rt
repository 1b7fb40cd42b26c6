//! Files, written one after the other.
ghost use Rattle.std.specs.Prelude.{◌≡◌, ◌≤◌, ◌<◌, length, IfErr};
ghost use Rattle.stow_io.specs.Causes.{Rose};
ghost use Rattle.stow_io.specs.declared.outside.FolderNo.TheVariants.{Failed};
ghost use Rattle.stow_io.specs.Writing.{Written, IsWriteQuiet};

use crate::files::FileList;
use crate::outside::{Folder, FolderNo};

/// The first file that was not written whole, and why.
#[derive(Clone, Copy)]
pub struct WriteStop {
    pub index: usize,
    pub no: FolderNo,
}

/// Writes the files in their order, up to the first that isn't written whole.
#[tactic(auto, using(crate::proofs::Steps::steps))]
pub fn write_files<F: Folder>(folder: &mut F, files: &FileList) -> Result<(), WriteStop>
    ensures written { Written files.now result (F.files folder.old) (F.files folder.new) }
    ensures within { IfErr result (λ stop. stop.index < length files.now) }
    ensures later { F.faults folder.old ≤ F.faults folder.new }
    ensures quiet { IsWriteQuiet result (F.faults folder.old) (F.faults folder.new) }
    ensures failed { IfErr result (λ stop. stop.no ≡ Failed → Rose (F.faults folder.old) (F.faults folder.new)) }
{
    for (index, file) in files.as_slice().iter().enumerate() {
        if let Err(no) = folder.write(file.name.as_str(), file.bytes.as_slice()) {
            return Err(WriteStop { index, no });
        }
    }
    Ok(())
}
