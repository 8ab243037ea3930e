//! Generates a map and requests for routes from one number, and adds up the replies. The same number gives the same
//! workload on every machine.
#![tactic(auto)]

mod ask;
mod channel;
mod draws;
mod law;
mod limits;
mod map;
mod members;
mod node;
mod payment;
mod sink;
mod summary;
mod totals;

pub use ask::ask_lines;
pub use law::{ends_differ, limit_values};
pub use limits::{ASKS_MAX, CHANNELS_MAX, NODES_MAX, NODES_MIN};
pub use map::map_text;
pub use sink::GrowingSink;
pub use summary::summary_line;
pub use totals::{Totals, count_replies};
