//! The base rows of a program by number, and boxes that keep by how much each of them is met.
//!
//! A search fixes a variable and asks which rows lose greatest value by it, and it looks at the terms of a row that may force something. Many rows share one sum, so both are kept sum by sum: the variables of each sum, the sums of each variable, and the rows of each sum by its sign. Reading goes through one more list so, which costs time at each step of a search; where all rows together have few terms, they are written out too.
#![tactic(auto)]

mod base_rows;
mod building;
mod counting;
mod entries;
mod following;
mod laws;
mod loose;
mod margins;
mod matrix;
mod reading;
mod signed;
mod slack;
mod slacks;
mod written;

pub use base_rows::base_row;
pub use entries::{Entry, Loss, Share, Term};
pub use following::{lift_by, lower_by};
pub use loose::LooseBox;
pub use matrix::{BaseMatrix, Losses};
pub use slack::{slack_among, slack_of};
pub use slacks::Slacks;
