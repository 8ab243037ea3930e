//! The command `askrened check`: reads the text of a certificate and writes one line that says what it shows.
#![tactic(auto)]

mod command;
mod end;
mod finding;

pub use command::{TEXT_MAX, check};
pub use end::CheckEnd;
pub use finding::Finding;
