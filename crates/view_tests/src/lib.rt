//! Tests of views: whole examples, from a map, layers and reservations to the directions that an ask may use.
#![tactic(auto)]

#[cfg(test)]
mod asks;
#[cfg(test)]
mod rows;
