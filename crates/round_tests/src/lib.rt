//! Tests of plans: worked examples, whose every round is compared, by both solvers.
#![tactic(auto)]

#[cfg(test)]
mod expected;
#[cfg(test)]
mod rows;
#[cfg(test)]
mod tests;
#[cfg(test)]
mod views;
