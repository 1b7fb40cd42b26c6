//! What the program reads and writes: a folder of files, a sink for what is printed, and a gate before each piece of work, with doubles in memory and the real ones; and the ends of a program: the words that it is given, the files that it writes, and the text that it prints.
#![tactic(auto)]

mod ending;
mod files;
mod given;
mod memory;
mod outside;
mod real;
mod streams;
mod whole;
mod writing;

pub use ending::{Ended, finish, say, say_name};
pub use files::{FileList, Finding, NamedFile, Work};
pub use given::{NoWords, given_words};
pub use memory::{MemFolder, MemSink, SureFolder};
pub use outside::{Failed, Folder, FolderNo, Gate, MOST_READ, NoGate, Sink};
pub use real::{RealFolder, RealOut, read_file};
pub use streams::{read_whole, write_whole};
