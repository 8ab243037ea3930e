//! The amount and delay of each hop of a path, from the last hop backward: fees by BOLT 7, and the sum of the delays
//! from each hop to the end.
#![tactic(auto)]

mod hop;

pub use hop::{Hop, hops};
