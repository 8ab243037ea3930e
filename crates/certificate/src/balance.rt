ghost use Rattle.std.specs.Prelude.{◌≡◌, ◌<◌, ◌≤◌, ◌+ℤ◌, ◌-ℤ◌, ◌≤ℤ◌, ◌^◌, IfOk, length, All, pos, slice_index_or, slice_set};
ghost use Rattle.certificate.specs.Cert.{Tallies};

use crate::cert::Load;
use crate::limits::CERT_ARCS_MAX;
use plan_base::NoMemory;
use std::alloc::Global;

/// For each node, the units that leave it less the units that enter it.
pub(crate) fn balances(alloc: Global, nodes: usize, loads: &[Load]) -> Result<Vec<i128>, NoMemory>
    requires froms { All (λ l. l.0.from < nodes) loads.now }
    requires tos { All (λ l. l.0.to < nodes) loads.now }
    requires few { length loads.now ≤ CERT_ARCS_MAX }
    ensures { IfOk result (λ b. Tallies nodes b.items loads.now) }
{
    let mut balances = vec![in alloc; 0; nodes]?;
    tally(balances.as_mut_slice(), loads);
    Ok(balances)
}

/// Adds the units of each arc to the node that it leaves, and subtracts them from the node that it enters.
fn tally(balances: &mut [i128], loads: &[Load])
    requires froms { All (λ l. l.0.from < length balances.old) loads.now }
    requires tos { All (λ l. l.0.to < length balances.old) loads.now }
    requires few { length loads.now ≤ CERT_ARCS_MAX }
    requires zeros { All (λ z. z ≡ pos 0) balances.old }
    ensures { Tallies (length balances.old) balances.new loads.now }
{
    for i in 0..loads.len() {
        let load = loads[i];
        raise(balances, load.from, load.units);
        lower(balances, load.to, load.units);
    }
}

/// Adds units to a node's balance.
fn raise(balances: &mut [i128], node: u32, units: u64)
    requires node { node < length balances.old }
    requires fits { slice_index_or balances.old node (pos 0) ≤ℤ pos (2 ^ 100) }
    ensures sum { balances.new ≡ slice_set balances.old node (slice_index_or balances.old node (pos 0) +ℤ pos units) }
    ensures units { units < 2 ^ 64 }
{
    balances[node as usize] += i128::from(units);
}

/// Subtracts units from a node's balance.
fn lower(balances: &mut [i128], node: u32, units: u64)
    requires node { node < length balances.old }
    requires fits { pos 0 ≤ℤ (slice_index_or balances.old node (pos 0) +ℤ pos (2 ^ 100)) }
    ensures { balances.new ≡ slice_set balances.old node (slice_index_or balances.old node (pos 0) -ℤ pos units) }
{
    balances[node as usize] -= i128::from(units);
}
