//! Layers of knowledge about channels, and their names.
//! A layer holds what callers report: created channels, changed fields, liquidity bounds, biases and disabled nodes.
//! Contracts see a layer as five lists of good entries.
#![tactic(auto)]

mod ask;
mod indexed;
mod law;
mod layer;
mod lists;
mod name;
mod places;
mod records;
mod shared;
mod snapshot;

pub use ask::{ASKED_MAX, Ask, Asked, Auto, PARTS_MAX};
pub use law::snapshots_on_threads;
pub use layer::Layer;
pub use name::{NAME_MAX, Name, NameFault};
pub use records::{BIAS_MAX, BIAS_MIN, Bias, Bound, Constraint, Created, ENTRIES_MAX, Update};
pub use snapshot::Snapshot;
