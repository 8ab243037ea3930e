//! The changes that a caller can make to one layer, and when each is refused.
//! A direction has at most one update and at most one bias, and a node is disabled at most once.
#![tactic(auto)]

mod changes;
mod refusal;

pub use changes::{age, bias, create_channel, disable, inform, update};
pub use refusal::LayerRefusal;
