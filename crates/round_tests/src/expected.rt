use path_split::Part;
use round_rules::{Cap, Fault, Outcome, Round, Route, Run};

/// What a round is to be.
pub(crate) struct ExpectedRound {
    pub unit: u64,
    pub levels: (u8, u8),
    pub size: u64,
    pub caps: &'static [Cap],
    pub parts: &'static [(&'static [u32], u64)],
    pub fault: ExpectedFault,
}

pub(crate) enum ExpectedFault {
    None,
    TooManyParts,
    Directions(&'static [u32]),
    Htlc(&'static [u32]),
    Fee(u128),
    Delay(u32, u64),
    NoFlow,
}

pub(crate) enum ExpectedOutcome {
    /// What each route delivers, the sum of fees, and the probability.
    Parts(&'static [u64], u128, u64),
    /// The side of the source.
    NoFlow(&'static [bool]),
    OverFee(u128),
    OverDelay(u32, u64),
}

/// A direction whose known minimum and bias are 0.
#[derive(Clone, Copy)]
pub(crate) struct Channel {
    pub from: u32,
    pub to: u32,
    pub max: u64,
    pub htlc_min: u64,
    pub htlc_max: u64,
    pub base: u32,
    pub ppm: u32,
    pub delay: u16,
}

/// A view from node 0 to the last node, an ask, and its run.
pub(crate) struct Row {
    pub nodes: usize,
    pub channels: &'static [Channel],
    pub maxparts: u8,
    pub amount: u64,
    pub maxfee: u64,
    pub maxdelay: u16,
    pub rounds: &'static [ExpectedRound],
    pub outcome: ExpectedOutcome,
}

/// Whether the run is the expected one.
pub(crate) fn is_expected(run: &Run, row: &Row) -> bool {
    let rounds = run.rounds.as_slice();
    if rounds.len() != row.rounds.len() {
        return false;
    }
    for i in 0..rounds.len() {
        if !is_round(&rounds[i], &row.rounds[i]) {
            return false;
        }
    }
    is_outcome(&run.outcome, &row.outcome)
}

fn is_round(round: &Round, expected: &ExpectedRound) -> bool {
    round.unit == expected.unit
        && round.fee_level == expected.levels.0
        && round.delay_level == expected.levels.1
        && round.size == expected.size
        && round.caps.as_slice() == expected.caps
        && are_parts(round.parts.as_slice(), expected.parts)
        && is_fault(&round.fault, &expected.fault)
}

fn are_parts(parts: &[Part], expected: &[(&[u32], u64)]) -> bool {
    if parts.len() != expected.len() {
        return false;
    }
    for i in 0..parts.len() {
        if parts[i].path.as_slice() != expected[i].0 || parts[i].units != expected[i].1 {
            return false;
        }
    }
    true
}

fn is_fault(fault: &Fault, expected: &ExpectedFault) -> bool {
    match (fault, expected) {
        (Fault::None, ExpectedFault::None) => true,
        (Fault::TooManyParts, ExpectedFault::TooManyParts) => true,
        (Fault::Directions(dirs), ExpectedFault::Directions(other)) => dirs.as_slice() == *other,
        (Fault::Htlc(dirs), ExpectedFault::Htlc(other)) => dirs.as_slice() == *other,
        (Fault::Fee { fee }, ExpectedFault::Fee(other)) => *fee == *other,
        (Fault::Delay { part, delay }, ExpectedFault::Delay(first, blocks)) => {
            *part == *first && *delay == *blocks
        }
        (Fault::NoFlow, ExpectedFault::NoFlow) => true,
        _ => false,
    }
}

fn is_outcome(outcome: &Outcome, expected: &ExpectedOutcome) -> bool {
    match (outcome, expected) {
        (
            Outcome::Parts {
                routes,
                fee,
                ppm,
                ..
            },
            ExpectedOutcome::Parts(delivered, fees, chance),
        ) => { deliver(routes.as_slice(), delivered) && *fee == *fees && *ppm == *chance }
        (Outcome::NoFlow { side, .. }, ExpectedOutcome::NoFlow(other)) => side.as_slice() == *other,
        (Outcome::OverFee { fee }, ExpectedOutcome::OverFee(other)) => *fee == *other,
        (Outcome::OverDelay { part, delay }, ExpectedOutcome::OverDelay(first, blocks)) => {
            *part == *first && *delay == *blocks
        }
        _ => false,
    }
}

fn deliver(routes: &[Route], delivered: &[u64]) -> bool {
    if routes.len() != delivered.len() {
        return false;
    }
    for i in 0..routes.len() {
        if routes[i].delivered != delivered[i] {
            return false;
        }
    }
    true
}
