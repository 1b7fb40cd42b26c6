//! The keys of bookings.
ghost use Rattle.std.specs.Prelude.{◌≡◌};
ghost use Rattle.bookings.specs.Spelling.{spelling};

/// A key of bookings, in the order in which keys are looked at.
#[derive(Clone, Copy)]
pub enum BookingKey {
    /// A name: 1 to 35 bytes of capital letters, digits, space, comma, dash, dot and slash.
    Vessel,
    /// A name.
    Voyage,
    /// A name; may be missing, then `STOW`.
    Sender,
    /// A name; may be missing, then `STOW`.
    Recipient,
    /// Ten digits, YYMMDDHHMM.
    Date,
    /// At least two ports of 1 to 35 capital letters and digits.
    Rotation,
    /// The prices of a rehandle: a list of one number from 0 to 1,000 for each call but the last; may be missing, then all are 1.
    Tariff,
    /// An array of tables; may be missing, then there are none. The keys below are those of its entries.
    Container,
    /// 1 to 17 capital letters and digits.
    Id,
    /// The call at which it loads: 1 to the number of calls.
    From,
    /// The call at which it is discharged: 1 to the number of calls.
    To,
    /// The key `type`: the size and type code (ISO 6346), 1 to 10 capital letters and digits.
    IsoType,
    /// 0 to 99,999 kilograms.
    Kg,
    /// A truth value; may be missing, then false.
    Vgm,
    /// A truth value; may be missing, then false.
    Empty,
    /// -99 to 99 degrees Celsius; may be missing.
    Temperature,
    /// 1 to 8 capital letters, digits and dots; may be missing.
    Class,
    /// 0 to 9,999; may be missing, then 0.
    Unno,
}

impl BookingKey {
    /// The key as the text spells it.
    pub fn spelling(self) -> &'static str
        ensures { result.now ≡ spelling self }
    {
        match self {
            BookingKey::Vessel => "vessel",
            BookingKey::Voyage => "voyage",
            BookingKey::Sender => "sender",
            BookingKey::Recipient => "recipient",
            BookingKey::Date => "date",
            BookingKey::Rotation => "rotation",
            BookingKey::Tariff => "tariff",
            BookingKey::Container => "container",
            BookingKey::Id => "id",
            BookingKey::From => "from",
            BookingKey::To => "to",
            BookingKey::IsoType => "type",
            BookingKey::Kg => "kg",
            BookingKey::Vgm => "vgm",
            BookingKey::Empty => "empty",
            BookingKey::Temperature => "temperature",
            BookingKey::Class => "class",
            BookingKey::Unno => "unno",
        }
    }
}
