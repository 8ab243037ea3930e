use crate::expected::{Channel, ExpectedFault, ExpectedOutcome, ExpectedRound, Row};
use plan_base::MAX;
use round_rules::Cap;

const CHAIN: &[Channel] = &[
    Channel {
        from: 0,
        to: 1,
        max: 1000000,
        htlc_min: 0,
        htlc_max: 1000000,
        base: 1000,
        ppm: 1000,
        delay: 6,
    },
    Channel {
        from: 1,
        to: 2,
        max: 1000000,
        htlc_min: 0,
        htlc_max: 1000000,
        base: 0,
        ppm: 1000,
        delay: 6,
    },
];

const ONE: &[Channel] = &[Channel {
    from: 0,
    to: 1,
    max: 1000000,
    htlc_min: 0,
    htlc_max: 1000000,
    base: 0,
    ppm: 0,
    delay: 6,
}];

const TWO: &[Channel] = &[
    Channel {
        from: 0,
        to: 1,
        max: 600000,
        htlc_min: 0,
        htlc_max: 600000,
        base: 0,
        ppm: 0,
        delay: 6,
    },
    Channel {
        from: 0,
        to: 1,
        max: 400000,
        htlc_min: 0,
        htlc_max: 400000,
        base: 0,
        ppm: 0,
        delay: 6,
    },
];

const THREE: &[Channel] = &[
    Channel {
        from: 0,
        to: 1,
        max: 400,
        htlc_min: 0,
        htlc_max: 400,
        base: 0,
        ppm: 0,
        delay: 6,
    },
    Channel {
        from: 0,
        to: 1,
        max: 600,
        htlc_min: 0,
        htlc_max: 600,
        base: 0,
        ppm: 10,
        delay: 6,
    },
    Channel {
        from: 0,
        to: 1,
        max: 1000,
        htlc_min: 0,
        htlc_max: 1000,
        base: 0,
        ppm: 20,
        delay: 6,
    },
];

const FORK: &[Channel] = &[
    Channel {
        from: 0,
        to: 1,
        max: 1000498,
        htlc_min: 0,
        htlc_max: 1000498,
        base: 0,
        ppm: 1000,
        delay: 6,
    },
    Channel {
        from: 0,
        to: 1,
        max: 1000000,
        htlc_min: 0,
        htlc_max: 1000000,
        base: 0,
        ppm: 5000,
        delay: 6,
    },
    Channel {
        from: 1,
        to: 2,
        max: 1000000,
        htlc_min: 0,
        htlc_max: 1000000,
        base: 0,
        ppm: 1000,
        delay: 6,
    },
];

const DEAR: &[Channel] = &[
    Channel {
        from: 0,
        to: 1,
        max: MAX,
        htlc_min: 0,
        htlc_max: MAX,
        base: 0,
        ppm: 4294967295,
        delay: 6,
    },
    Channel {
        from: 1,
        to: 2,
        max: MAX,
        htlc_min: 0,
        htlc_max: MAX,
        base: 0,
        ppm: 4294967295,
        delay: 6,
    },
];

const LEAST_ELEVEN: &[Channel] = &[Channel {
    from: 0,
    to: 1,
    max: 1000000,
    htlc_min: 11,
    htlc_max: 1000000,
    base: 0,
    ppm: 0,
    delay: 6,
}];

const ORDINARY: &[Channel] = &[
    Channel {
        from: 0,
        to: 1,
        max: 5000000000,
        htlc_min: 0,
        htlc_max: 5000000000,
        base: 0,
        ppm: 0,
        delay: 0,
    },
    Channel {
        from: 1,
        to: 2,
        max: 3000000000,
        htlc_min: 0,
        htlc_max: 3000000000,
        base: 1000,
        ppm: 250,
        delay: 34,
    },
];

const SMALL_HTLC: &[Channel] = &[Channel {
    from: 0,
    to: 1,
    max: 1000000,
    htlc_min: 0,
    htlc_max: 400000,
    base: 0,
    ppm: 0,
    delay: 6,
}];

const TINY_HTLC: &[Channel] = &[
    Channel {
        from: 0,
        to: 1,
        max: 1000000,
        htlc_min: 0,
        htlc_max: 1000000,
        base: 0,
        ppm: 10,
        delay: 6,
    },
    Channel {
        from: 0,
        to: 1,
        max: 1000000,
        htlc_min: 0,
        htlc_max: 5,
        base: 0,
        ppm: 0,
        delay: 6,
    },
];

// two hops
const ROUNDS_0: &[ExpectedRound] = &[ExpectedRound {
    unit: 1,
    levels: (0, 0),
    size: 100000,
    caps: &[],
    parts: &[(&[0, 1], 100000)],
    fault: ExpectedFault::None,
}];

// the whole channel
const ROUNDS_1: &[ExpectedRound] = &[ExpectedRound {
    unit: 1,
    levels: (0, 0),
    size: 1000000,
    caps: &[],
    parts: &[(&[0], 1000000)],
    fault: ExpectedFault::None,
}];

// one msat too much
const ROUNDS_2: &[ExpectedRound] = &[ExpectedRound {
    unit: 1,
    levels: (0, 0),
    size: 1000001,
    caps: &[],
    parts: &[],
    fault: ExpectedFault::NoFlow,
}];

// two channels
const ROUNDS_3: &[ExpectedRound] = &[ExpectedRound {
    unit: 1,
    levels: (0, 0),
    size: 1000000,
    caps: &[],
    parts: &[(&[0], 600000), (&[1], 400000)],
    fault: ExpectedFault::None,
}];

// one part
const ROUNDS_4: &[ExpectedRound] = &[
    ExpectedRound {
        unit: 1,
        levels: (0, 0),
        size: 1000000,
        caps: &[],
        parts: &[(&[0], 600000), (&[1], 400000)],
        fault: ExpectedFault::TooManyParts,
    },
    ExpectedRound {
        unit: 1000000,
        levels: (0, 0),
        size: 1,
        caps: &[],
        parts: &[],
        fault: ExpectedFault::NoFlow,
    },
];

// two parts
const ROUNDS_5: &[ExpectedRound] = &[
    ExpectedRound {
        unit: 1,
        levels: (0, 0),
        size: 1001,
        caps: &[],
        parts: &[(&[0], 400), (&[1], 600), (&[2], 1)],
        fault: ExpectedFault::TooManyParts,
    },
    ExpectedRound {
        unit: 501,
        levels: (0, 0),
        size: 2,
        caps: &[],
        parts: &[(&[1], 1), (&[2], 1)],
        fault: ExpectedFault::None,
    },
];

// over the limit by the fee
const ROUNDS_6: &[ExpectedRound] = &[
    ExpectedRound {
        unit: 1,
        levels: (0, 0),
        size: 999500,
        caps: &[],
        parts: &[(&[0, 2], 999500)],
        fault: ExpectedFault::Directions(&[0]),
    },
    ExpectedRound {
        unit: 1,
        levels: (0, 0),
        size: 999500,
        caps: &[Cap {
            dir: 0,
            cap: 999499,
            times: 1,
        }],
        parts: &[(&[0, 2], 999499), (&[1, 2], 1)],
        fault: ExpectedFault::None,
    },
];

// no fee
const ROUNDS_7: &[ExpectedRound] = &[
    ExpectedRound {
        unit: 1,
        levels: (0, 0),
        size: 100000,
        caps: &[],
        parts: &[(&[0, 1], 100000)],
        fault: ExpectedFault::Fee(1200),
    },
    ExpectedRound {
        unit: 1,
        levels: (1, 0),
        size: 100000,
        caps: &[],
        parts: &[(&[0, 1], 100000)],
        fault: ExpectedFault::Fee(1200),
    },
    ExpectedRound {
        unit: 1,
        levels: (2, 0),
        size: 100000,
        caps: &[],
        parts: &[(&[0, 1], 100000)],
        fault: ExpectedFault::Fee(1200),
    },
    ExpectedRound {
        unit: 1,
        levels: (3, 0),
        size: 100000,
        caps: &[],
        parts: &[(&[0, 1], 100000)],
        fault: ExpectedFault::Fee(1200),
    },
    ExpectedRound {
        unit: 1,
        levels: (4, 0),
        size: 100000,
        caps: &[],
        parts: &[(&[0, 1], 100000)],
        fault: ExpectedFault::Fee(1200),
    },
    ExpectedRound {
        unit: 1,
        levels: (5, 0),
        size: 100000,
        caps: &[],
        parts: &[(&[0, 1], 100000)],
        fault: ExpectedFault::Fee(1200),
    },
    ExpectedRound {
        unit: 1,
        levels: (6, 0),
        size: 100000,
        caps: &[],
        parts: &[(&[0, 1], 100000)],
        fault: ExpectedFault::Fee(1200),
    },
    ExpectedRound {
        unit: 1,
        levels: (7, 0),
        size: 100000,
        caps: &[],
        parts: &[(&[0, 1], 100000)],
        fault: ExpectedFault::Fee(1200),
    },
    ExpectedRound {
        unit: 1,
        levels: (8, 0),
        size: 100000,
        caps: &[],
        parts: &[(&[0, 1], 100000)],
        fault: ExpectedFault::Fee(1200),
    },
];

// little delay
const ROUNDS_8: &[ExpectedRound] = &[
    ExpectedRound {
        unit: 1,
        levels: (0, 0),
        size: 100000,
        caps: &[],
        parts: &[(&[0, 1], 100000)],
        fault: ExpectedFault::Delay(0, 30),
    },
    ExpectedRound {
        unit: 1,
        levels: (0, 1),
        size: 100000,
        caps: &[],
        parts: &[(&[0, 1], 100000)],
        fault: ExpectedFault::Delay(0, 30),
    },
    ExpectedRound {
        unit: 1,
        levels: (0, 2),
        size: 100000,
        caps: &[],
        parts: &[(&[0, 1], 100000)],
        fault: ExpectedFault::Delay(0, 30),
    },
    ExpectedRound {
        unit: 1,
        levels: (0, 3),
        size: 100000,
        caps: &[],
        parts: &[(&[0, 1], 100000)],
        fault: ExpectedFault::Delay(0, 30),
    },
    ExpectedRound {
        unit: 1,
        levels: (0, 4),
        size: 100000,
        caps: &[],
        parts: &[(&[0, 1], 100000)],
        fault: ExpectedFault::Delay(0, 30),
    },
    ExpectedRound {
        unit: 1,
        levels: (0, 5),
        size: 100000,
        caps: &[],
        parts: &[(&[0, 1], 100000)],
        fault: ExpectedFault::Delay(0, 30),
    },
];

// fees above all amounts
const ROUNDS_9: &[ExpectedRound] = &[
    ExpectedRound {
        unit: 1,
        levels: (0, 0),
        size: MAX,
        caps: &[],
        parts: &[(&[0, 1], MAX)],
        fault: ExpectedFault::Directions(&[0]),
    },
    ExpectedRound {
        unit: 1,
        levels: (0, 0),
        size: MAX,
        caps: &[Cap {
            dir: 0,
            cap: MAX - 1,
            times: 1,
        }],
        parts: &[],
        fault: ExpectedFault::NoFlow,
    },
];

// below the HTLC minimum
const ROUNDS_10: &[ExpectedRound] = &[
    ExpectedRound {
        unit: 1,
        levels: (0, 0),
        size: 10,
        caps: &[],
        parts: &[(&[0], 10)],
        fault: ExpectedFault::Directions(&[0]),
    },
    ExpectedRound {
        unit: 1,
        levels: (0, 0),
        size: 10,
        caps: &[Cap {
            dir: 0,
            cap: 0,
            times: 1,
        }],
        parts: &[],
        fault: ExpectedFault::NoFlow,
    },
];

// at the HTLC minimum
const ROUNDS_11: &[ExpectedRound] = &[ExpectedRound {
    unit: 1,
    levels: (0, 0),
    size: 11,
    caps: &[],
    parts: &[(&[0], 11)],
    fault: ExpectedFault::None,
}];

// an ordinary payment
const ROUNDS_12: &[ExpectedRound] = &[ExpectedRound {
    unit: 1,
    levels: (0, 0),
    size: 50000000,
    caps: &[],
    parts: &[(&[0, 1], 50000000)],
    fault: ExpectedFault::None,
}];

// halved
const ROUNDS_13: &[ExpectedRound] = &[
    ExpectedRound {
        unit: 1,
        levels: (0, 0),
        size: 600000,
        caps: &[],
        parts: &[(&[0], 600000)],
        fault: ExpectedFault::Htlc(&[0]),
    },
    ExpectedRound {
        unit: 1,
        levels: (0, 0),
        size: 300000,
        caps: &[],
        parts: &[(&[0], 300000), (&[0], 300000)],
        fault: ExpectedFault::None,
    },
];

// closed
const ROUNDS_14: &[ExpectedRound] = &[
    ExpectedRound {
        unit: 1,
        levels: (0, 0),
        size: 600000,
        caps: &[],
        parts: &[(&[1], 600000)],
        fault: ExpectedFault::Htlc(&[1]),
    },
    ExpectedRound {
        unit: 1,
        levels: (0, 0),
        size: 600000,
        caps: &[Cap {
            dir: 1,
            cap: 0,
            times: 1,
        }],
        parts: &[(&[0], 600000)],
        fault: ExpectedFault::None,
    },
];

// halved not for one part
const ROUNDS_15: &[ExpectedRound] = &[
    ExpectedRound {
        unit: 1,
        levels: (0, 0),
        size: 600000,
        caps: &[],
        parts: &[(&[0], 600000)],
        fault: ExpectedFault::Htlc(&[0]),
    },
    ExpectedRound {
        unit: 1,
        levels: (0, 0),
        size: 600000,
        caps: &[Cap {
            dir: 0,
            cap: 0,
            times: 1,
        }],
        parts: &[],
        fault: ExpectedFault::NoFlow,
    },
];

pub(crate) const ROWS: &[Row] = &[
    Row {
        nodes: 3,
        channels: CHAIN,
        maxparts: 100,
        amount: 100000,
        maxfee: 5000,
        maxdelay: 2016,
        rounds: ROUNDS_0,
        outcome: ExpectedOutcome::Parts(&[100_000], 1200, 809_910),
    },
    Row {
        nodes: 2,
        channels: ONE,
        maxparts: 100,
        amount: 1000000,
        maxfee: 0,
        maxdelay: 2016,
        rounds: ROUNDS_1,
        outcome: ExpectedOutcome::Parts(&[1_000_000], 0, 0),
    },
    Row {
        nodes: 2,
        channels: ONE,
        maxparts: 100,
        amount: 1000001,
        maxfee: 0,
        maxdelay: 2016,
        rounds: ROUNDS_2,
        outcome: ExpectedOutcome::NoFlow(&[true, false]),
    },
    Row {
        nodes: 2,
        channels: TWO,
        maxparts: 100,
        amount: 1000000,
        maxfee: 0,
        maxdelay: 2016,
        rounds: ROUNDS_3,
        outcome: ExpectedOutcome::Parts(&[600_000, 400_000], 0, 0),
    },
    Row {
        nodes: 2,
        channels: TWO,
        maxparts: 1,
        amount: 1000000,
        maxfee: 0,
        maxdelay: 2016,
        rounds: ROUNDS_4,
        outcome: ExpectedOutcome::NoFlow(&[true, false]),
    },
    Row {
        nodes: 2,
        channels: THREE,
        maxparts: 2,
        amount: 1001,
        maxfee: 0,
        maxdelay: 2016,
        rounds: ROUNDS_5,
        outcome: ExpectedOutcome::Parts(&[501, 500], 0, 83_277),
    },
    Row {
        nodes: 3,
        channels: FORK,
        maxparts: 100,
        amount: 999500,
        maxfee: 5000,
        maxdelay: 2016,
        rounds: ROUNDS_6,
        outcome: ExpectedOutcome::Parts(&[999_499, 1], 1999, 0),
    },
    Row {
        nodes: 3,
        channels: CHAIN,
        maxparts: 100,
        amount: 100000,
        maxfee: 0,
        maxdelay: 2016,
        rounds: ROUNDS_7,
        outcome: ExpectedOutcome::OverFee(1200),
    },
    Row {
        nodes: 3,
        channels: CHAIN,
        maxparts: 100,
        amount: 100000,
        maxfee: 5000,
        maxdelay: 10,
        rounds: ROUNDS_8,
        outcome: ExpectedOutcome::OverDelay(0, 30),
    },
    Row {
        nodes: 3,
        channels: DEAR,
        maxparts: 100,
        amount: MAX,
        maxfee: MAX,
        maxdelay: 2016,
        rounds: ROUNDS_9,
        outcome: ExpectedOutcome::NoFlow(&[true, false, false]),
    },
    Row {
        nodes: 2,
        channels: LEAST_ELEVEN,
        maxparts: 100,
        amount: 10,
        maxfee: 0,
        maxdelay: 2016,
        rounds: ROUNDS_10,
        outcome: ExpectedOutcome::NoFlow(&[true, false]),
    },
    Row {
        nodes: 2,
        channels: LEAST_ELEVEN,
        maxparts: 100,
        amount: 11,
        maxfee: 0,
        maxdelay: 2016,
        rounds: ROUNDS_11,
        outcome: ExpectedOutcome::Parts(&[11], 0, 999_989),
    },
    Row {
        nodes: 3,
        channels: ORDINARY,
        maxparts: 100,
        amount: 50000000,
        maxfee: 250000,
        maxdelay: 2016,
        rounds: ROUNDS_12,
        outcome: ExpectedOutcome::Parts(&[50_000_000], 13_500, 973_497),
    },
    Row {
        nodes: 2,
        channels: SMALL_HTLC,
        maxparts: 100,
        amount: 600000,
        maxfee: 0,
        maxdelay: 2016,
        rounds: ROUNDS_13,
        outcome: ExpectedOutcome::Parts(&[300_000, 300_000], 0, 400_000),
    },
    Row {
        nodes: 2,
        channels: TINY_HTLC,
        maxparts: 100,
        amount: 600000,
        maxfee: 10,
        maxdelay: 2016,
        rounds: ROUNDS_14,
        outcome: ExpectedOutcome::Parts(&[600_000], 6, 400_000),
    },
    Row {
        nodes: 2,
        channels: SMALL_HTLC,
        maxparts: 1,
        amount: 600000,
        maxfee: 0,
        maxdelay: 2016,
        rounds: ROUNDS_15,
        outcome: ExpectedOutcome::NoFlow(&[true, false]),
    },
];
