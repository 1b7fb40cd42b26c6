//! Segments of an EDIFACT interchange (ISO 9735): what they are, how they are written and read.
#![tactic(auto)]

mod buffer;
mod draft;
mod elements;
mod faults;
mod gathered;
mod reading;
mod segments;
mod service;
mod writing;

pub use buffer::ElementBuffer;
pub use elements::ElementList;
pub use faults::SegFault;
pub use reading::{each_text, one_reading, read_interchange, reads_back};
pub use segments::{Segment, SegmentList};
pub use writing::{write_segment, written_determines};
