//! Tests of the reading and the writing of commands, which are long to prove.
#![tactic(auto)]

#[cfg(test)]
mod requests;
#[cfg(test)]
mod written;
