//! Multipliers of a program's rows, the dual value of a box, and how multipliers are raised (weak duality with whole multipliers).
#![tactic(auto)]

mod changing;
mod costs;
mod finding;
mod gauge;
mod multipliers;
mod offers;
mod plain_value;
mod raising;
mod rising;
mod sizes;
mod table;
mod terms;

pub use costs::Costs;
pub use gauge::Gauge;
pub use multipliers::{AddNo, Multipliers};
pub use plain_value::value;
pub use raising::{Raised, raise, raise_by};
pub use row_matrix::Term;
pub use table::RowTable;
pub use terms::{Listed, list_row, terms_of};
