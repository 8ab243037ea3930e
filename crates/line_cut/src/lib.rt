//! Splits a byte stream into lines. Each line ends with an LF; bytes after the last LF are also a line. A call reads only
//! while no whole line is buffered, so that a line can be answered before the next one arrives.
#![tactic(auto)]

mod cut;
mod limits;
mod lines;
mod window;

pub use cut::{Cut, ReadFault};
pub use limits::LINE_MAX;
pub use lines::Lines;
