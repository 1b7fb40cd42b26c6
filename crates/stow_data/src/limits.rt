//! The limits of an input.

/// What is limited, and its greatest value.
#[derive(Clone, Copy)]
pub enum Limit {
    /// 12 calls.
    Calls = 1,
    /// 2,000 containers, arrived and booked.
    Containers = 2,
    /// 3,000 places.
    Places = 3,
    /// 200,000 variables.
    Variables = 4,
    /// 2,000,000 rows.
    Rows = 5,
    /// 536,870,912 bytes of the certificate.
    Certificate = 6,
}
