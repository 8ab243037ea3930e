//! Tests of the values that all crates share, of streams, lines and of the one history.
#![tactic(auto)]

#[cfg(test)]
mod histories;
#[cfg(test)]
mod lines;
#[cfg(test)]
mod ports;
#[cfg(test)]
mod values;
