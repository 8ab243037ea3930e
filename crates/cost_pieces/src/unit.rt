ghost use Rattle.std.specs.Prelude.{ℕ, ◌≡◌, ◌+◌, ◌*◌, ◌^◌, ◌<◌, ◌≤◌, ◌≤ℤ◌, pos, negsuc};
ghost use Rattle.plan_base.specs.declared.amount.TheConstants.{MAX};
ghost use Rattle.flow_model.specs.declared.limits.TheConstants.{COST_MAX};
ghost use Rattle.cost_pieces.specs.Scale.{delay_factor};
ghost use Rattle.cost_pieces.specs.UnitCost.{biased, fee_weight_of, uncertainty_of, unit_cost_of};

use crate::scale::{PIECES, delay_weight, slope};

/// What the cost of a direction depends on: known bounds in msat, base fee in msat and proportional fee in ppm, delay in
/// blocks, bias from -100 to 100, and the asked amount in msat.
#[derive(Clone, Copy, Debug, PartialEq, Eq)]
pub struct Terms {
    pub lo: u64,
    pub hi: u64,
    pub base: u32,
    pub ppm: u32,
    pub delay: u16,
    pub bias: i8,
    pub amount: u64,
}

/// The cost of one unit over a piece, at a fee level from 0 to 8 and a delay level from 0 to 5. It is from 1 to
/// `COST_MAX`, and never falls from piece to piece. No memory is taken.
pub fn unit_cost(piece: u8, terms: &Terms, fee_level: u8, delay_level: u8) -> u64
    requires piece { piece < PIECES }
    requires order { terms.now.lo ≤ terms.now.hi }
    requires most { terms.now.hi ≤ MAX }
    requires low { negsuc 99 ≤ℤ terms.now.bias }
    requires high { terms.now.bias ≤ℤ pos 100 }
    requires amount { 1 ≤ terms.now.amount }
    requires fee_level { fee_level ≤ 8 }
    requires delay_level { delay_level ≤ 5 }
    ensures value { result ≡ unit_cost_of piece terms.now fee_level delay_level }
    ensures least { 1 ≤ result }
    ensures most { result ≤ COST_MAX }
    ensures rises { (later : ℕ) → piece ≤ later → later < PIECES → unit_cost_of piece terms.now fee_level delay_level ≤ unit_cost_of later terms.now fee_level delay_level }
{
    let weight = fee_weight(fee_level);
    let uncertain = uncertainty(piece, terms.lo, terms.hi) * (256 - weight);
    let fee = fee(terms.base, terms.ppm, terms.amount) * weight;
    let delay = delay_cost(terms.delay, delay_level);
    (uncertain + fee + delay) * hundredths(terms.bias) / 100 + 1
}

/// The weight of the fee at a fee level, of 256.
fn fee_weight(level: u8) -> u64
    requires { level ≤ 8 }
    ensures value { result ≡ 2 ^ level }
    ensures most { result ≤ 256 }
{
    match level {
        0 => 1,
        1 => 2,
        2 => 4,
        3 => 8,
        4 => 16,
        5 => 32,
        6 => 64,
        7 => 128,
        _ => 256,
    }
}

/// The uncertainty of a piece.
fn uncertainty(piece: u8, lo: u64, hi: u64) -> u64
    requires piece { piece < PIECES }
    requires order { lo ≤ hi }
    ensures value { result ≡ uncertainty_of piece lo hi }
    ensures most { result ≤ 10 ^ 9 }
{
    let width = (hi - lo).max(1);
    (slope(piece) * 1_000_000_000_000 / width).min(1_000_000_000)
}

/// The weight of the fee.
fn fee(base: u32, ppm: u32, amount: u64) -> u64
    requires { 1 ≤ amount }
    ensures value { result ≡ fee_weight_of base ppm amount }
    ensures most { result ≤ 10 ^ 9 }
{
    (100 * u64::from(ppm) + u64::from(base) * 100_000_000 / amount).min(1_000_000_000)
}

/// The weight of the delay.
fn delay_cost(delay: u16, level: u8) -> u64
    requires { level ≤ 5 }
    ensures value { result ≡ delay * delay_factor level }
    ensures most { result ≤ 65535 * 100000 }
{
    u64::from(delay) * delay_weight(level)
}

/// How many hundredths a bias leaves of a cost.
fn hundredths(bias: i8) -> u64
    requires low { negsuc 99 ≤ℤ bias }
    requires high { bias ≤ℤ pos 100 }
    ensures value { result ≡ biased bias }
    ensures most { result ≤ 200 }
{
    (100 - i16::from(bias)) as u64
}
