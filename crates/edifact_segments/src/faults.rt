//! Why bytes are no interchange.

use std::alloc::{AllocError, AllocFailed};
use stow_data::NoMemory;

/// The first fault of an interchange (ISO 9735). Byte places count from 0, segments from 1, and UNA is no
/// segment.
#[derive(Clone, Copy)]
pub enum SegFault {
    /// Nothing but CR and LF stands after UNA or in the whole text, or the first segment isn't UNB.
    NoHeader,

    /// UNA without six characters behind it, or with characters that can't serve.
    BadUna,

    /// The text ends before the terminator of the segment that begins at `at`.
    Unterminated { at: u64 },

    /// A byte below 0x20, or 0x7F, inside a segment.
    ControlByte { at: u64 },

    /// A segment without a tag of three capital letters.
    BadTag { segment: u32 },

    /// The text ends after so many segments, of which none is UNZ.
    NoTrailer { segments: u32 },

    /// A byte other than CR and LF after UNZ.
    Trailing { at: u64 },

    /// Memory was wanting. It is no fault of the text.
    NoMemory,
}

impl From<AllocError> for SegFault {
    ghost use Rattle.std.specs.Prelude.{◌≡◌};
    ghost use Rattle.edifact_segments.specs.declared.faults.SegFault.TheVariants.{NoMemory};

    ghost from_gives = { λ _ e. e ≡ NoMemory };

    fn from(_: AllocError) -> Self {
        SegFault::NoMemory
    }
}

impl<T: Drop> From<AllocFailed<T>> for SegFault {
    ghost use Rattle.std.specs.Prelude.{◌≡◌};
    ghost use Rattle.edifact_segments.specs.declared.faults.SegFault.TheVariants.{NoMemory};

    ghost from_gives = { λ _ e. e ≡ NoMemory };

    fn from(_: AllocFailed<T>) -> Self {
        SegFault::NoMemory
    }
}

impl From<NoMemory> for SegFault {
    ghost use Rattle.std.specs.Prelude.{◌≡◌};
    ghost use Rattle.edifact_segments.specs.declared.faults.SegFault.TheVariants.{NoMemory};

    ghost from_gives = { λ _ e. e ≡ NoMemory };

    fn from(_: NoMemory) -> Self {
        SegFault::NoMemory
    }
}
