ghost use Rattle.std.specs.Prelude.{◌≡◌, ◌+◌, ◌<◌, ◌≤◌, ◌^◌, IfOk, length};
ghost use Rattle.plan_base.specs.declared.amount.TheConstants.{MAX};
ghost use Rattle.fee_backward.specs.Hop.{amounts_of, hop_of};

use plan_base::{MAX, NoMemory, Toll, add_fee};
use std::alloc::Global;

/// A hop: the amount that it carries and the amount that it asks for, in msat, and its delay in blocks.
#[derive(Clone, Copy, Debug, PartialEq, Eq)]
pub struct Hop {
    pub carried: u64,
    pub amount: u64,
    pub delay: u64,
}

/// The hops of a path over channels with these tolls. The last hop carries what is delivered, and each earlier hop
/// carries what the next one asks for. A hop asks for what it carries and its own channel's fee, cut to `MAX` + 1 msat.
/// Its delay is `final_cltv` and the sum of the delays of it and of all later hops (BOLT 7).
pub fn hops(
    alloc: Global,
    tolls: &[Toll],
    delivered: u64,
    final_cltv: u16,
) -> Result<Vec<Hop>, NoMemory>
    requires few { length tolls.now < 2 ^ 32 }
    requires delivered { delivered ≤ MAX }
    ensures { IfOk result (λ hops. hops.items ≡ amounts_of tolls.now delivered final_cltv) }
{
    let mut hops = Vec::with_capacity(alloc, tolls.len())?;
    let mut carried = delivered;
    let mut delay = u64::from(final_cltv);
    for i in 0..tolls.len() {
        let toll = tolls[tolls.len() - 1 - i];
        let hop = hop_over(toll, carried, delay);
        hops.push(hop)?;
        carried = hop.amount;
        delay = hop.delay;
    }
    hops.reverse();
    Ok(hops)
}

/// The hop that carries this amount and comes before hops of this delay.
fn hop_over(toll: Toll, carried: u64, delay: u64) -> Hop
    requires { delay < 2 ^ 63 }
    ensures hop { result ≡ hop_of toll carried delay }
    ensures more { result.delay ≤ delay + 65535 }
{
    let most = u128::from(MAX) + 1;
    Hop {
        carried,
        amount: add_fee(carried, toll.base, toll.ppm).min(most) as u64,
        delay: delay + u64::from(toll.delay),
    }
}
