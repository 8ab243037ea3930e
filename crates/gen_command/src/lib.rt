//! The command `askrened gen`: makes a workload from one number, serves it in memory, and writes one line with the totals of
//! the replies.
#![tactic(auto)]

mod command;
mod end;
mod replies;
mod size;

pub use command::generate;
pub use end::GenEnd;
pub use size::Size;
