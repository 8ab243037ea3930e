ghost use Rattle.std.specs.Prelude.{◌≡◌, ◌<◌, ◌≤◌, ◌+◌, ◌-◌, ◌^◌, ◌+ℤ◌, ◌≤ℤ◌, ℕ, pos, OnOk, length, slice_index_or};
ghost use Rattle.flow_model.specs.declared.limits.TheConstants.{NODES_MAX};
ghost use Rattle.flow_solver.specs.declared.labels.TheConstants.{UNREACHED};
ghost use Rattle.flow_solver.specs.Search.{IsFlowShown};
ghost use Rattle.flow_solver.specs.Meeting.{IsCarriedOn, IsLifted, IsMet, lift as lift_of};
ghost use Rattle.flow_solver.specs.TwoSided.{IsTwoSided};

use crate::flow_net::FlowNet;
use crate::labels::UNREACHED;
use crate::meeting::Found;
use crate::node_labels::NodeLabels;
use crate::node_potentials::NodePotentials;
use crate::side::{Side, lower_end};
use crate::steps::head_of;
use plan_base::NoMemory;

/// Carries labels on from the node where both searches meet along the steps that lead to the destination, so that the
/// source's tree reaches it by the shortest path.
pub(crate) fn carry(
    residual: &FlowNet,
    _potentials: &NodePotentials,
    source: &mut Side,
    destination: &Side,
    found: Found,
    end: u32,
    nodes: u32,
) -> Result<(), NoMemory>
    requires end { end ≡ residual.now.net.destination }
    requires nodes { nodes ≡ residual.now.net.nodes }
    requires shown { IsFlowShown residual.now _potentials.now }
    requires two { IsTwoSided residual.now _potentials.now source.old destination.now found.best found.node }
    requires met { IsMet residual.now _potentials.now source.old.labels destination.now.labels found.radius (found.best - found.radius) found.best }
    requires reached { found.best < UNREACHED }
    requires radius { found.radius ≤ found.best }
    ensures parents { OnOk result (length source.new.parents.items ≡ length source.old.parents.items) }
    ensures carried { OnOk result (IsCarriedOn residual.now _potentials.now source.new.labels source.new.parents.items destination.now.labels found.radius found.best) }
{
    let arcs = residual.arcs();
    let mut node = found.node;
    for taken in 0..nodes {
        if node == end {
            return Ok(());
        }
        let step = destination.parents[node as usize];
        let next = head_of(arcs[step.0 as usize], step.1);
        let label = found.best - destination.labels.get(next);
        let _lower = lower_end(source, next, label, step, UNREACHED)?;
        node = next;
    }
    Ok(())
}

/// A potential lifted by the labels of its node from the source and to the destination, as far as they are within the
/// radii of the two searches.
fn lifted(potential: i128, label: u128, other: u128, radius: u128, rest: u128) -> i128
    requires radius { radius ≤ UNREACHED }
    requires rest { rest ≤ UNREACHED }
    requires potential { potential ≤ℤ pos (2 ^ 100) }
    ensures { result ≡ potential +ℤ lift_of radius rest label other +ℤ pos rest }
{
    let lift = label.min(radius) + (rest - other.min(rest));
    potential + lift as i128
}

/// Lifts each potential by the labels of its node.
pub(crate) fn lift_all(
    potentials: &mut [i128],
    labels: &NodeLabels,
    others: &NodeLabels,
    radius: u128,
    rest: u128,
)
    requires few { length potentials.old ≤ NODES_MAX }
    requires long { length labels.now ≡ length potentials.old }
    requires as_long { length others.now ≡ length potentials.old }
    requires radius { radius ≤ UNREACHED }
    requires rest { rest ≤ UNREACHED }
    requires small { (v : ℕ) → slice_index_or potentials.old v (pos 0) ≤ℤ pos (2 ^ 100) }
    ensures { IsLifted potentials.old potentials.new labels.now others.now radius rest }
{
    for v in 0..potentials.len() as u32 {
        let (label, other) = (labels.get(v), others.get(v));
        potentials[v as usize] = lifted(potentials[v as usize], label, other, radius, rest);
    }
}
