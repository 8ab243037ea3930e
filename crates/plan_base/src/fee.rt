ghost use Rattle.std.specs.Prelude.{◌≡◌, ◌+◌};
ghost use Rattle.plan_base.specs.Fee.{fee_on};

/// What a channel charges for forwarding: a base fee in msat, a fee in millionths of the amount, and a delay in blocks.
#[derive(Clone, Copy, Debug, PartialEq, Eq)]
pub struct Toll {
    pub base: u32,
    pub ppm: u32,
    pub delay: u16,
}

/// The sum of an amount in msat and the fee for forwarding it, `base + floor(carried * ppm / 1000000)` (BOLT 7).
pub fn add_fee(carried: u64, base: u32, ppm: u32) -> u128
    ensures { result ≡ carried + fee_on carried base ppm }
{
    let part = u128::from(carried) * u128::from(ppm) / 1_000_000;
    u128::from(carried) + (u128::from(base) + part)
}
