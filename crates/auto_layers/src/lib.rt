//! The automatic layers of an ask: the layer of the payer's own channels, and the layers of an ask in its order.
#![tactic(auto)]

mod expanded;
mod local;

pub use expanded::{Expanded, expand};
pub use local::local_layer;
