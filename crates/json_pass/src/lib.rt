//! Reads a JSON text token by token, with the meaning of `serde_json`'s reading, and keeps only what is asked for.
//!
//! No tree of the text is built. Each call takes one value from a `json::Reader`; it fails if and only if `serde_json`
//! reads no value there.
#![tactic(auto)]

mod leaf;
mod members;
mod number;
mod pass;

pub use leaf::Leaf;
pub use members::{read_object, read_object_after};
pub use pass::{is_array, is_object, pass_after, pass_value};
