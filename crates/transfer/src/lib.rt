//! Reads all bytes of a source, and writes all bytes of a text to a sink.
#![tactic(auto)]

mod read;
#[cfg(test)]
mod tests;
mod write;

pub use read::{InputFault, read_all};
pub use write::write_all;
