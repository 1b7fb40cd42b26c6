//! Why a text is no bay plan message.
use crate::Cause;
use edifact_segments::SegFault;
use stow_data::NoMemory;

/// The fault of a text that is read as a bay plan message (SMDG BAPLIE 2.2).
#[derive(Clone, Copy)]
pub enum BaplieFault {
    /// It is no interchange (ISO 9735).
    Seg(SegFault),

    /// The least fault of its segments, by the segment's number and then the cause's. Segments count from 1.
    At { segment: u32, cause: Cause },

    /// Memory was wanting. It is no fault of the text.
    NoMemory,
}

impl From<NoMemory> for BaplieFault {
    ghost use Rattle.std.specs.Prelude.{◌≡◌};
    ghost use Rattle.baplie.specs.declared.faults.BaplieFault.TheVariants.{NoMemory};

    ghost from_gives = { λ _ e. e ≡ NoMemory };

    fn from(_: NoMemory) -> Self {
        BaplieFault::NoMemory
    }
}
