//! Plans a payment by rounds: each round solves a problem of a cheapest flow, splits the flow into parts, and tries them
//! against every limit; the first limit that they break decides what the next round changes.
#![tactic(auto)]

mod caps;
mod chance;
mod fault;
mod instance;
mod loads;
mod next;
mod routes;
mod run;
mod summary;
mod units;

pub use fault::round_fault;
pub use instance::round_instance;
pub use next::next_round;
pub use round_rules::{Cap, Fault, Outcome, Round, Route, Run};
pub use run::plan;
pub use summary::round_routes;
