//! Tests of the public calls of libraries whose proofs are long: a crate with tests of its own is proved twice.
#![tactic(auto)]

#[cfg(test)]
mod connections;
#[cfg(test)]
mod messages;
#[cfg(test)]
mod replies;
#[cfg(test)]
mod sessions;
#[cfg(test)]
mod steps;
