//! Why a model isn't built.
use stow_data::{Limit, NoMemory};

/// Why a model isn't built.
#[derive(Clone, Copy)]
pub enum ModelNo {
    /// More variables than 200,000, or else more rows than 2,000,000: which limit, and the number that passes it.
    TooLarge { limit: Limit, value: u64 },
    NoMemory,
}

impl From<NoMemory> for ModelNo {
    ghost use Rattle.std.specs.Prelude.{◌≡◌};
    ghost use Rattle.zero_one_model.specs.declared.refusals.ModelNo.TheVariants.{NoMemory};

    ghost from_gives = { λ _ e. e ≡ NoMemory };

    fn from(_: NoMemory) -> Self {
        ModelNo::NoMemory
    }
}
