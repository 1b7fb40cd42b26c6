//! The names of the inputs.

/// The names behind `plan` and `check`.
#[derive(Clone, Copy)]
pub struct Inputs<'a> {
    pub profile: &'a str,
    pub bookings: &'a str,
    /// The front of the names of the departure files and of the certificate.
    pub base: &'a str,
    /// The bay plan of the ship as it comes in.
    pub arrival: Option<&'a str>,
}
