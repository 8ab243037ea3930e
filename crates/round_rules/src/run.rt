use crate::{Round, Route};
use flow_model::{Flow, Instance};
use plan_base::Items;

/// How a run of rounds ends.
#[derive(Debug, Drop)]
pub enum Outcome {
    /// The parts of the last round, which keep all limits.
    Parts {
        routes: Items<Route>,
        /// The sum of the routes' fees, in msat.
        fee: u128,
        /// How likely it is that all directions hold what is carried over them, in millionths.
        ppm: u64,
        /// The problem of the last round.
        instance: Instance,
        /// The flow that the parts make.
        flow: Flow,
        /// A potential for each node; they show that the flow is cheapest.
        potentials: Items<i128>,
    },
    /// No flow is feasible in the last round's problem.
    NoFlow {
        instance: Instance,
        /// For each node whether it is on the side of the source. The side shows that no flow is feasible.
        side: Items<bool>,
    },
    /// The sum of fees in msat is above the greatest fee, even at the highest fee level.
    OverFee {
        fee: u128,
    },
    /// A part's delay in blocks is above the greatest delay, even at the highest delay level.
    OverDelay {
        part: u32,
        delay: u64,
    },
}

/// The rounds that were tried, and how they end.
#[derive(Debug, Drop)]
pub struct Run {
    /// At least one.
    pub rounds: Items<Round>,
    pub outcome: Outcome,
}
