//! A desk at which many callers, in threads of their own, commit to one history, one at a time and in the order in which they
//! asked for their turns.
#![tactic(auto)]

mod bells;
mod closing;
mod desk;
mod limits;
mod pass;
mod refusal;
mod steps;
mod turn;
mod view;

pub use closing::Unclosed;
pub use desk::Desk;
pub use limits::{PASSES_MAX, TURNS_MAX};
pub use pass::{Note, Pass};
pub use refusal::DeskRefusal;
pub use view::{Kept, View};
