//! The cost of sending a unit over a channel: the known liquidity is cut into pieces, each with a room and a slope of
//! uncertainty (after Pickhardt and Richter 2021, in this project's own whole numbers), weighed against the fee.
#![tactic(auto)]

mod room;
mod scale;
mod unit;

pub use room::pieces;
pub use scale::PIECES;
pub use unit::{Terms, unit_cost};
