//! The problem of a cheapest flow through a network: what an instance is, which flows are feasible and cheapest, and
//! what shows it. Two laws hold for every network: potentials show that a flow is cheapest, and a side that cuts the
//! source off shows that no flow is feasible.
#![tactic(auto)]

mod flow;
mod instance;
mod laws;
mod limits;
mod side;
mod solve;

pub use flow::{Flow, cost, fill};
pub use instance::{Arc, Instance};
pub use laws::{cut_has_no_flow, first_arcs_first, limit_values, shown_is_cheapest};
pub use limits::{ARCS_MAX, COST_MAX, NODES_MAX, POTENTIAL_MAX};
pub use side::{AsArc, cuts, leaving_room};
pub use solve::{Solve, Solved};
