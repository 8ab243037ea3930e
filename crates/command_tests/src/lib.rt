//! Tests of the commands `check`, `gen` and `serve`, and of workloads.
#![tactic(auto)]

#[cfg(test)]
mod checks;
#[cfg(test)]
mod generated;
#[cfg(test)]
mod served;
#[cfg(test)]
mod workloads;
