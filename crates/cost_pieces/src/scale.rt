ghost use Rattle.std.specs.Prelude.{◌≡◌, ◌<◌, ◌≤◌};
ghost use Rattle.cost_pieces.specs.Scale.{slope_of, delay_factor};

/// How many pieces a direction's liquidity is cut into.
pub const PIECES: usize = 8;

/// The slope of a piece's uncertainty.
pub(crate) fn slope(piece: u8) -> u64
    requires { piece < PIECES }
    ensures value { result ≡ slope_of piece }
    ensures most { result ≤ 20000 }
{
    match piece {
        0 => 0,
        1 => 1188,
        2 => 1682,
        3 => 2377,
        4 => 3730,
        5 => 6931,
        6 => 13862,
        _ => 20000,
    }
}

/// The weight of a block of delay at a delay level.
pub(crate) fn delay_weight(level: u8) -> u64
    requires { level ≤ 5 }
    ensures value { result ≡ delay_factor level }
    ensures most { result ≤ 100000 }
{
    match level {
        0 => 0,
        1 => 10,
        2 => 100,
        3 => 1000,
        4 => 10000,
        _ => 100_000,
    }
}
