//! Why a text is no profile.
ghost use Rattle.std.specs.Prelude.{◌≡◌};
ghost use Rattle.ship_profile.specs.Keys.{spelling};
ghost use Rattle.ship_profile.specs.declared.faults.ProfileFault.TheVariants.{NoMemory as WantOfMemory};

use stow_data::{Limit, NoMemory, StackNo};

/// A key of a profile.
#[derive(Clone, Copy)]
pub enum ProfileKey {
    Name,
    WeightStep,
    Stack,
    Bay,
    Row,
    Tiers,
    Lengths,
    LimitKg,
    Plugs,
    Cover,
    Under,
    On,
    Separate,
    A,
    B,
    Level,
}

impl ProfileKey {
    /// The key as it is spelled in the file.
    pub fn spelling(self) -> &'static str
        ensures { result.now ≡ spelling self }
    {
        match self {
            ProfileKey::Name => "name",
            ProfileKey::WeightStep => "weight_step",
            ProfileKey::Stack => "stack",
            ProfileKey::Bay => "bay",
            ProfileKey::Row => "row",
            ProfileKey::Tiers => "tiers",
            ProfileKey::Lengths => "lengths",
            ProfileKey::LimitKg => "limit_kg",
            ProfileKey::Plugs => "plugs",
            ProfileKey::Cover => "cover",
            ProfileKey::Under => "under",
            ProfileKey::On => "on",
            ProfileKey::Separate => "separate",
            ProfileKey::A => "a",
            ProfileKey::B => "b",
            ProfileKey::Level => "level",
        }
    }
}

/// Why a text is no profile: the first fault, in the order of the keys and, within an array of tables, of its entries.
/// `index` counts the entries of `stack`, `cover` or `separate` from 1, and is 0 at the top level.
#[derive(Clone, Copy)]
pub enum ProfileFault {
    /// The text is no TOML document.
    NotToml,
    /// A key is missing.
    Missing { key: ProfileKey, index: u32 },
    /// A key has a value of a wrong type, or one out of its range.
    BadValue { key: ProfileKey, index: u32 },
    /// The tiers of a stack don't rise by 2 each.
    GapInStack { index: u32 },
    /// A stack shares a cell with an earlier one: the lowest odd bay in which it does, its row and its lowest tier.
    DuplicateCell { bay: u32, row: u32, tier: u32 },
    /// A cover names a bay and row at which no stack stands, in the hold under it or on deck on it.
    CoverUnknownStack { index: u32 },
    /// A stack is named a second time by the covers.
    CoverTwice { stack: StackNo },
    /// A separation lacks a class or the level, has a bad one, or is of a pair of classes that stood before.
    BadSeparation { index: u32 },
    /// The ship passes a limit, with this value.
    TooLarge { limit: Limit, value: u64 },
    /// Memory ran out.
    NoMemory,
}

impl From<NoMemory> for ProfileFault {
    ghost from_gives = { λ _ e. e ≡ WantOfMemory };

    fn from(_: NoMemory) -> Self {
        ProfileFault::NoMemory
    }
}
