//! The commands that change or read the state, and the replies and refusals that they get.
#![tactic(auto)]

mod command;
mod reply;

pub use command::{Command, Inform, PATH_MAX};
pub use reply::{EventReply, Listed, Refusal};
