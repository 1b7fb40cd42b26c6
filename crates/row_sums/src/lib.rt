//! The base rows of the 0-1 program as signed sums of variables, and the sums that the rows of a voyage share, by number.
//!
//! A search touches rows by number millions of times. Each base row is one or two sums, with a sign each, and the two share no variable: where a sum's least and greatest value are kept, a row's greatest value is at hand. The variables of each sum and the sums of each variable lie one after the other in one array.
#![tactic(auto)]

mod classes;
mod families;
mod finding;
mod laws;
mod listing;
mod lists;
mod matrix;
mod numbering;
mod row_laws;
mod rows;
mod sums;
mod transposed;

pub use laws::numbers_tell_sums;
pub use lists::FlatLists;
pub use matrix::SumMatrix;
pub use numbering::Numbering;
pub use row_laws::{a_fix_changes_one_side, rows_are_sums};
pub use rows::RowSums;
pub use sums::{ClassNo, Part, Parts, Sign, Sum};
