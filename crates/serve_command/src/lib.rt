//! Serves many connections over one desk: workers in threads of their own serve the lines of each, and all commands stand in one
//! history.
#![tactic(auto)]

mod line_server;
mod served;

pub use served::{Served, serve_all};
