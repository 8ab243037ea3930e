use cost_pieces::{Terms, pieces, unit_cost};

/// Bounds 0 and 5000000000 msat, fee 1000 msat and 100 ppm, delay 80, no bias, asked amount 50000000 msat.
const ORDINARY: Terms = Terms {
    lo: 0,
    hi: 5_000_000_000,
    base: 1000,
    ppm: 100,
    delay: 80,
    bias: 0,
    amount: 50_000_000,
};

#[test]
fn cut_points_are_cut_to_the_cap(rt: HostRuntime) {
    assert!(rt; pieces(0, 1_000_000, 1, 100_000) == [0, 100_000, 0, 0, 0, 0, 0, 0]);
    assert!(rt;
        pieces(0, 600_000, 1, 1_000_000)
            == [0, 180_000, 120_000, 90_000, 90_000, 60_000, 30_000, 30_000]
    );
}

#[test]
fn the_fee_level_weighs_the_fee(rt: HostRuntime) {
    assert!(rt; unit_cost(1, &ORDINARY, 0, 0) == 60_600_001);
    assert!(rt; unit_cost(1, &ORDINARY, 8, 0) == 3_072_001);
}
