//! The residual network of an instance: the room that a flow leaves on each arc, forward and backward, the steps out of
//! each node, and pushes along steps.
#![tactic(auto)]

mod residual;
mod rows;

pub use residual::Residual;
