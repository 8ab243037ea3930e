//! Builds the bodies of replies: results, refusals and errors.
#![tactic(auto)]

mod ask;
mod certified;
mod errors;
mod event;
mod in_view;
mod law;
mod outcome;
mod printed;
mod records;
mod routes;

pub use ask::answer;
pub use errors::{
    invalid_params, invalid_request, journal_full, line_too_long, method_not_found, out_of_memory,
    out_of_memory_at, parse_error,
};
pub use event::event_body;
pub use law::certificates_pass;
