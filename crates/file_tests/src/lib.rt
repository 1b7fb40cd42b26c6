//! Tests of folders, sinks and streams, and of segments and bay plan messages as they are read and written. They stand in a crate of their own since a crate with tests is proved twice.
#![tactic(auto)]

#[cfg(test)]
mod ends;
#[cfg(test)]
mod model_texts;
#[cfg(test)]
mod segments;
#[cfg(test)]
mod writing;
