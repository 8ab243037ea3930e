//! The rules of rounds: what a round's problem is, what is wrong with its parts, and which round follows. A run of rounds
//! has few rounds, and if it ends in parts, they keep every limit.
#![tactic(auto)]

mod laws;
mod round;
mod run;

pub use laws::{parts_keep_limits, rounds_are_few};
pub use round::{Cap, Fault, Round, Route};
pub use run::{Outcome, Run};
