//! Reservations: amounts that callers set aside on directions, so that two payments do not rely on the same liquidity.
#![tactic(auto)]

mod free;
mod list;
mod one;
mod refusal;
mod sum;

pub use list::{RESERVATIONS_MAX, Reservations};
pub use refusal::{NotReserved, ReserveRefusal};
pub use sum::reserved;
