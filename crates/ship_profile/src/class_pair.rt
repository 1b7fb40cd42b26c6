//! A key of the look-up of separations.
use stow_data::Name;

/// Two classes of dangerous goods, in this order.
#[derive(Drop, PartialEq, Eq, PartialOrd, Ord)]
pub struct ClassPair {
    pub a: Name,
    pub b: Name,
}
