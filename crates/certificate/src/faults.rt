//! Why a text is no certificate.
use stow_data::NoMemory;

/// The first fault of a text that is no certificate. Lines count from 1.
#[derive(Clone, Copy)]
pub enum CertFault {
    /// The first line differs.
    NotCert,
    /// This line of the head, 2 to 5, is missing or isn't as it should be.
    BadHead { line: u32 },
    /// This line behind the head isn't in the grammar at its place, stands behind the line `end`, or lacks its line feed.
    BadLine { line: u32 },
    /// The text ends before the line `end`.
    NoEnd,
    /// Memory is wanting.
    NoMemory,
}

impl From<NoMemory> for CertFault {
    ghost use Rattle.std.specs.Prelude.{◌≡◌};
    ghost use Rattle.certificate.specs.declared.faults.CertFault.TheVariants.{NoMemory};

    ghost from_gives = { λ _ e. e ≡ NoMemory };

    fn from(_: NoMemory) -> Self {
        CertFault::NoMemory
    }
}
