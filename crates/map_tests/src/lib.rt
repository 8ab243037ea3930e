//! Tests of what is read of a JSON object, and of maps.
#![tactic(auto)]

#[cfg(test)]
mod maps;
#[cfg(test)]
mod objects;
