//! Tests of the desk that many callers share, and of the workers that serve connections.
#![tactic(auto)]

#[cfg(test)]
mod desks;
#[cfg(test)]
mod servers;
