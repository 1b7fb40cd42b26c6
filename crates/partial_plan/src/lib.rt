//! Partial plans: boxes that are tightened by base rows until none forces anything, and taken back.
//!
//! Functions over a plain box look at a row, or at all base rows in turn. The box of a search is kept from node to node: what it fixes can be taken back, and tightening looks only at rows that may force something.
#![tactic(auto)]

mod forcing;
mod full;
mod kept;
mod looking;
mod packing;
mod state;
mod tightening;
mod trail;

pub use forcing::{force, tighten_by, violates};
pub use full::{breaks_none, cost_of};
pub use kept::KeptBox;
pub use row_matrix::BaseMatrix;
pub use tightening::{Tightened, tighten};
pub use trail::{UndoList, undo};
