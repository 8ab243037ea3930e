//! Solvers of cheapest flows. Each sends units along one cheapest path after another until the demand is met, and
//! returns a flow with potentials that show it cheapest, or a side that shows that no flow is feasible.
#![tactic(auto)]

mod advance;
mod correcting;
mod flow_net;
mod heads;
mod keeping;
mod labels;
mod lanes;
mod lift;
mod meeting;
mod node_labels;
mod node_potentials;
mod queue;
mod side;
mod steps;
mod successive;
#[cfg(test)]
mod tests;

pub use correcting::Correcting;
pub use keeping::Keeping;
