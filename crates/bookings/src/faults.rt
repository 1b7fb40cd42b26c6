//! Why bookings are refused.
ghost use Rattle.std.specs.Prelude.{◌≡◌};
ghost use Rattle.bookings.specs.declared.faults.BookingFault.TheVariants.{NoMemory as WantOfMemory};

use crate::booking_keys::BookingKey;
use stow_data::{Limit, NoMemory};

/// Why bookings are refused. `index` is that of a container's entry, from 1, and 0 for the keys of the top table.
#[derive(Clone, Copy)]
pub enum BookingFault {
    /// The bytes aren't UTF-8, or the text isn't TOML.
    NotToml,
    /// The key is wanted and isn't there.
    Missing { key: BookingKey, index: u32 },
    /// The value is of another type, or out of its range or form.
    BadValue { key: BookingKey, index: u32 },
    /// The container isn't discharged at a later call than that at which it loads.
    CallOrder { index: u32 },
    /// The size and type code is neither that of a 20-foot nor that of a 40-foot container.
    LengthUnknown { index: u32 },
    /// An earlier entry has the id.
    DuplicateId { index: u32 },
    /// There are more calls or more containers than the limit.
    TooLarge { limit: Limit, value: u64 },
    /// Memory ran out.
    NoMemory,
}

impl From<NoMemory> for BookingFault {
    ghost from_gives = { λ _ e. e ≡ WantOfMemory };

    fn from(_: NoMemory) -> Self {
        BookingFault::NoMemory
    }
}
