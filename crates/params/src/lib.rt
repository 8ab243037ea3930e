//! Reads commands from requests, and writes commands as the parameters of requests.
#![tactic(auto)]

mod command;
mod fault;
mod given;
mod kind;
mod layers_kind;
mod named;
mod names;
mod number_kinds;
mod path_kind;
mod readers;
mod text_kinds;
mod writers;
mod written;

pub use command::{CommandFault, command_of};
pub use names::{GET_ROUTES, name_values};
pub use written::{method_of, params_of};
