//! The state of the service: its layers of knowledge, by name, and its reservations.
//! Each command is one step of the state, which `specs/Step.antt` defines. A refused command changes nothing.
#![tactic(auto)]

mod change;
mod law;
mod layers;
mod listing;
mod reserving;
mod routing;
mod state;

pub use askrene_command::{Command, EventReply, Inform, Listed, Refusal};
pub use law::{layers_on_threads, only_asks_get_routes, refused_commands_change_nothing};
pub use layers::LAYERS_MAX;
pub use state::State;
