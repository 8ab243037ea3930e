//! Serves the lines of one connection: each line is read, committed as one entry if it is a command, and answered.
#![tactic(auto)]

mod alone;
mod among;
mod answerer;
mod caller;
mod ended;
mod gated;
mod limits;
mod line;
mod lines;
mod link;
mod machine;
mod reply;
mod serve;
mod turn;
mod wire;

pub use alone::ask_loop;
pub use answerer::{Answerer, RouteAnswers};
pub use caller::Caller;
pub use ended::Ended;
pub use limits::LINES_MAX;
pub use lines::serve_lines;
pub use machine::answer_of;
pub use serve::serve_link;
pub use wire::{Pair, Wire};
