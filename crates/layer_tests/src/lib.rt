//! Tests of layers, of what changes them, and of reservations.
#![tactic(auto)]

#[cfg(test)]
mod changes;
#[cfg(test)]
mod layers;
#[cfg(test)]
mod reserved;
