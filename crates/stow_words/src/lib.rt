//! The words of the command line, read by `clap`.
#![tactic(auto)]

mod commands;
mod numbers;
mod order;
mod reading;

pub use order::{Order, WordsNo};
pub use reading::read_words;
