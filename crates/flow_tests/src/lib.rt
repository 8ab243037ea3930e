//! Tests of flow problems, of their certificates, and of the steps from a payment to its parts.
#![tactic(auto)]

#[cfg(test)]
mod certificates;
#[cfg(test)]
mod hops;
#[cfg(test)]
mod instances;
#[cfg(test)]
mod parts;
#[cfg(test)]
mod pieces;
#[cfg(test)]
mod residuals;
