//! Splits a cheapest flow into parts, paths from the source to the destination with the units that each sends, so that
//! every unit of the flow is on some part: since each arc costs at least 1 per unit, a cheapest flow sends no units
//! round a cycle.
#![tactic(auto)]

mod edge;
mod part;
mod parts;
mod paths;
mod walk;

pub use part::Part;
pub use parts::split;
