//! The history of a value that commands change one at a time, and the replies to the callers.
//! A journal keeps the entries and the value after them. A machine also keeps each reply until its caller takes it.
#![tactic(auto)]

mod entry;
mod journal;
mod machine;
mod object;
mod steps;

pub use entry::{Entry, Told};
pub use journal::{JOURNAL_MAX, Journal, JournalRefusal};
pub use machine::{Machine, MachineRefusal};
pub use object::Object;
pub use steps::{Outcome, Step, play, take_step};
