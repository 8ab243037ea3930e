//! The view of a payer: the directions that an ask may use, as the layers and the reservations leave them.
#![tactic(auto)]

mod affected;
mod built;
mod channels;
mod disabled;
mod fault;
mod given;
mod known;
mod nodes;
mod numbered;
mod open;
mod table;
mod view;

pub use built::build;
pub use fault::ViewFault;
pub use view::{DIRECTIONS_MAX, View, ViewDir};
