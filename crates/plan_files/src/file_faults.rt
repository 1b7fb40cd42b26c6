//! Why a departure file shows no plan.
ghost use Rattle.std.specs.Prelude.{◌≡◌};
ghost use Rattle.plan_files.specs.declared.file_faults.FileNo.TheVariants.{NoMemory as WantOfMemory};

use stow_data::{Name, NoMemory};

/// Why a departure file shows no plan of its call. The first group at fault is told of, by the first of these that
/// holds of it; a missing container comes last.
#[derive(Drop)]
pub enum FileNo {
    /// The ship has no place of this bay, row and tier number. `group` counts from 1 among all groups of the message,
    /// those of empty cells included.
    NoSuchCell { group: u32 },
    /// No container of the cargo has the id.
    Unknown { id: Name },
    /// An earlier group has the id.
    Twice { id: Name },
    /// The place doesn't take containers of the container's length.
    WrongLength { id: Name },
    /// An earlier group's container stands in a half-cell of the place.
    CellTaken { id: Name },
    /// The port isn't the container's port of discharge.
    DischargeDiffers { id: Name },
    /// The container isn't aboard after the call.
    NotAboard { id: Name },
    /// The first container of the cargo that is aboard after the call, and in no group.
    MissingContainer { id: Name },
    /// Memory ran out.
    NoMemory,
}

impl From<NoMemory> for FileNo {
    ghost from_gives = { λ _ e. e ≡ WantOfMemory };

    fn from(_: NoMemory) -> Self {
        FileNo::NoMemory
    }
}
