//! Tests of the pictures of bay plans and of runs over folders in memory. They stand in a crate of their own
//! since a crate with tests is proved twice.
#![tactic(auto)]

#[cfg(test)]
mod runs;
#[cfg(test)]
mod views;
