//! Tests of a search: chains and the order of rows, lists, the machine and its seats, the board that workers share, the tree of their journals, the records that nodes share, and workers to whom memory is wanting. They stand in a crate of their own since a crate with tests is proved twice.
#![tactic(auto)]

#[cfg(test)]
mod boards;
#[cfg(test)]
mod chains;
#[cfg(test)]
mod ledgers;
#[cfg(test)]
mod lists;
#[cfg(test)]
mod machine;
#[cfg(test)]
mod rows;
#[cfg(test)]
mod seats;
#[cfg(test)]
mod trails;
#[cfg(test)]
mod workers;
