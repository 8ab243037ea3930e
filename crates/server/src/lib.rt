//! Serves many connections at once: workers, in threads of their own, accept connections and serve each on a pass of its own.
#![tactic(auto)]

mod bind;
mod counter;
mod gathering;
mod limits;
mod mem_bind;
mod place;
mod preparing;
mod serve;
mod unix_bind;
mod worker;
mod workers;

pub use bind::{Bind, Unbound};
pub use limits::{CONNECTIONS_MAX, SERVING_TURNS, WORKERS_MAX};
pub use mem_bind::MemBind;
pub use serve::Serve;
pub use unix_bind::UnixBind;
pub use worker::{Session, Unworked, WorkFault, Worked, Worker};
pub use workers::work;
