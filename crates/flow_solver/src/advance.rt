ghost use Rattle.std.specs.Prelude.{◌≡◌, ◌<◌, ◌≤◌, ◌+◌, ◌^◌, ◌+ℤ◌, ◌≤ℤ◌, ℕ, pos, min, All, IfOk, length, slice_index, slice_index_or};
ghost use Rattle.residual_net.specs.Residual.{HasRoomFor};
ghost use Rattle.flow_solver.specs.declared.labels.TheConstants.{UNREACHED};
ghost use Rattle.flow_solver.specs.Search.{HasDepth, IsPartialSolution, IsRaised, IsReachedNode, IsSearchResult, parent_path};

use crate::flow_net::FlowNet;
use crate::steps::tail_of;
use flow_model::Instance;
use plan_base::NoMemory;
use std::alloc::Global;

/// A potential raised by a label or by the bound, whichever is less.
fn raised(potential: i128, label: u128, bound: u128) -> i128
    requires bound { bound ≤ UNREACHED }
    requires potential { potential ≤ℤ pos (2 ^ 100) }
    ensures { result ≡ potential +ℤ pos (min label bound) }
{
    let lift = label.min(bound) as i128;
    potential + lift
}

/// Raises each potential by its node's label or by the bound, whichever is less.
fn raise(potentials: &mut [i128], labels: &[u128], bound: u128)
    requires long { length labels.now ≡ length potentials.old }
    requires bound { bound ≤ UNREACHED }
    requires small { (v : ℕ) → slice_index_or potentials.old v (pos 0) ≤ℤ pos (2 ^ 100) }
    ensures { IsRaised potentials.old potentials.new labels.now bound }
{
    for v in 0..labels.len() {
        potentials[v] = raised(potentials[v], labels[v], bound);
    }
}

/// The parent steps from the source to the destination, the last one first.
pub(crate) fn walk(
    alloc: Global,
    residual: &FlowNet,
    parents: &[(u32, bool)],
    source: u32,
    destination: u32,
) -> Result<Vec<(u32, bool)>, NoMemory>
    requires source { source ≡ residual.now.net.source }
    requires long { length parents.now ≡ residual.now.net.nodes }
    requires reached { (k : ℕ) × (k < residual.now.net.nodes) × IsReachedNode residual.now parents.now k destination }
    ensures chain { IfOk result (λ path. HasDepth residual.now.net.arcs parents.now source (length path.items) destination) }
    ensures path { IfOk result (λ path. path.items ≡ parent_path residual.now.net.arcs parents.now (length path.items) destination) }
{
    let arcs = residual.arcs();
    let mut path = Vec::new(alloc);
    let mut node = destination;
    while node != source {
        let step = parents[node as usize];
        path.push(step)?;
        node = tail_of(arcs[step.0 as usize], step.1);
    }
    Ok(path)
}

/// The most units that all steps have room for, but no more than `most`.
pub(crate) fn least_room(residual: &FlowNet, path: &[(u32, bool)], most: u64) -> u64
    requires most { 0 < most }
    requires rooms { All (HasRoomFor residual.now.net.arcs residual.now.flow 1) path.now }
    ensures most { result ≤ most }
    ensures some { 0 < result }
    ensures rooms { All (HasRoomFor residual.now.net.arcs residual.now.flow result) path.now }
{
    let mut amount = most;
    for step in path {
        amount = amount.min(residual.room(step.0, step.1));
    }
    amount
}

/// Sends more units along the path that a search found, and raises the potentials so that they show the new flow; how
/// many units are sent then.
pub(crate) fn advance(
    alloc: Global,
    instance: &Instance,
    residual: &mut FlowNet,
    potentials: &mut [i128],
    labels: &[u128],
    parents: &[(u32, bool)],
    sent: u64,
) -> Result<u64, NoMemory>
    requires net { residual.old.net ≡ instance.now }
    requires less { sent < instance.now.demand }
    requires partial { IsPartialSolution residual.old potentials.old sent }
    requires found { IsSearchResult residual.old potentials.old labels.now parents.now }
    requires reached { slice_index labels.now instance.now.destination < UNREACHED }
    ensures more { IfOk result (λ n. sent < n) }
    ensures most { IfOk result (λ n. n ≤ instance.now.demand) }
    ensures partial { IfOk result (λ n. IsPartialSolution residual.new potentials.new n) }
    ensures net { IfOk result (λ n. residual.new.net ≡ residual.old.net) }
{
    let source = instance.source();
    let destination = instance.destination();
    let path = walk(alloc, residual, parents, source, destination)?;
    let amount = least_room(residual, &path, instance.demand() - sent);
    raise(potentials, labels, labels[destination as usize]);
    residual.push_path(&path, amount);
    Ok(sent + amount)
}
