//! Bookings and their containers.
use stow_data::{CallNo, Length, Name, NameList, NumberList, Seq};

/// The booking of a container.
#[derive(Drop)]
pub struct Booking {
    /// 1 to 17 capital letters and digits.
    pub id: Name,
    /// The call at which it loads, from 1.
    pub load: CallNo,
    /// The call at which it is discharged, after `load`.
    pub dest: CallNo,
    /// The size and type code (ISO 6346).
    pub iso: Name,
    /// The length that the code's first character says.
    pub long: Length,
    /// Its weight in kilograms, at most 99,999.
    pub kg: u32,
    /// Whether the weight is a verified gross mass.
    pub vgm: bool,
    /// Whether it is empty.
    pub empty: bool,
    /// The temperature in degrees Celsius that it is kept at, -99 to 99, where it is a reefer.
    pub temperature: Option<i32>,
    /// The class of its dangerous goods, if there are any.
    pub class: Option<Name>,
    /// The number of its dangerous goods (UNNO), at most 9,999; 0 where none is given.
    pub unno: u32,
}

/// A list of bookings.
pub type BookingList = Seq<Booking>;

/// The bookings of a voyage.
#[derive(Drop)]
pub struct Bookings {
    pub vessel: Name,
    pub voyage: Name,
    /// Who sends the messages of the voyage; `STOW` where the text doesn't say.
    pub sender: Name,
    /// Who gets them; `STOW` where the text doesn't say.
    pub recipient: Name,
    /// Ten digits, YYMMDDHHMM.
    pub date: Name,
    /// The ports of the calls, from call 1: 2 to 12, of which one may stand twice.
    pub rotation: NameList,
    /// The price of a rehandle at each call but the last, from call 1, at most 1,000; all 1 where the text doesn't say.
    pub tariff: NumberList,
    /// The booked containers, in the order of the text.
    pub containers: BookingList,
}
