//! Reads requests and writes replies of JSON-RPC 2.0, one per line.
#![tactic(auto)]

mod read;
mod reply;
mod request;

pub use read::read_request;
pub use reply::{Body, Reply, write_reply};
pub use request::{Id, Request, RpcFault};
pub use serde_json::Value;
