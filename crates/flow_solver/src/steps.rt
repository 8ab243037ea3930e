ghost use Rattle.std.specs.Prelude.{◌≡◌, ◌<◌, ◌≤◌, ◌+◌, ◌^◌, ◌≤ℤ◌, pos, min, ℕ, All, cond, not, IsFalse, IsTrue, length, set, slice_index};
ghost use Rattle.flow_model.specs.Potentials.{IsSmall};
ghost use Rattle.flow_model.specs.Instance.{arc_at};
ghost use Rattle.flow_solver.specs.Search as words;
ghost use Rattle.flow_solver.specs.Search.{HasBoundedPotentials, IsFlowShown, IsLowered, IsNextBackward, IsNextForward, IsNextOfDirection, IsRelaxedTo, IsSearchTree, step_cost, sum_of_labels};

use crate::flow_net::FlowNet;
use flow_model::Arc;

/// A step that a search may use: over this arc, backward or not, from its tail to its head, with the arc's cost.
#[derive(Clone, Copy, Debug)]
pub(crate) struct NextStep {
    pub(crate) arc: u32,
    pub(crate) back: bool,
    pub(crate) tail: u32,
    pub(crate) head: u32,
    pub(crate) cost: u64,
}

/// Whether a step is backward, or forward if it is turned around.
pub(crate) fn flipped(back: bool, turned: bool) -> bool
    ensures { result ≡ cond turned (not back) back }
{
    if turned { !back } else { back }
}

/// Whether the arc is the first of its direction that has room.
fn is_next_forward(arcs: &[Arc], flow: &[u64], i: usize) -> bool
    requires known { i < length arcs.now }
    requires long { length flow.now ≡ length arcs.now }
    ensures yes { IsTrue result → IsNextForward arcs.now flow.now i }
    ensures no { IsFalse result → IsNextForward arcs.now flow.now i → ⊥ }
{
    if flow[i] >= arcs[i].room {
        return false;
    }
    if i == 0 {
        return true;
    }
    if arcs[i - 1].dir != arcs[i].dir {
        return true;
    }
    flow[i - 1] == arcs[i - 1].room
}

/// Whether the arc is the last of its direction that carries anything.
fn is_next_backward(arcs: &[Arc], flow: &[u64], i: usize) -> bool
    requires known { i < length arcs.now }
    requires long { length flow.now ≡ length arcs.now }
    ensures yes { IsTrue result → IsNextBackward arcs.now flow.now i }
    ensures no { IsFalse result → IsNextBackward arcs.now flow.now i → ⊥ }
{
    if flow[i] == 0 {
        return false;
    }
    if i + 1 >= arcs.len() {
        return true;
    }
    if arcs[i + 1].dir != arcs[i].dir {
        return true;
    }
    flow[i + 1] == 0
}

/// Whether a search may use the step. Of each direction it uses one step forward and one backward, so that a push
/// along its path keeps the direction's arcs filled in order.
fn is_next(arcs: &[Arc], flow: &[u64], i: usize, back: bool) -> bool
    requires known { i < length arcs.now }
    requires long { length flow.now ≡ length arcs.now }
    ensures yes { IsTrue result → IsNextOfDirection arcs.now flow.now i back }
    ensures no { IsFalse result → IsNextOfDirection arcs.now flow.now i back → ⊥ }
{
    if back {
        is_next_backward(arcs, flow, i)
    } else {
        is_next_forward(arcs, flow, i)
    }
}

/// The node at which a step starts.
pub(crate) fn tail_of(arc: Arc, back: bool) -> u32
    ensures { result ≡ words.tail_of arc back }
{
    if back { arc.to } else { arc.from }
}

/// The node at which a step ends.
pub(crate) fn head_of(arc: Arc, back: bool) -> u32
    ensures { result ≡ words.head_of arc back }
{
    if back { arc.from } else { arc.to }
}

/// The reduced cost of a step, if it isn't below 0.
fn cost_of_step(residual: &FlowNet, potentials: &[i128], i: u32, back: bool) -> u128
    requires known { i < length residual.now.net.arcs }
    requires long { length potentials.now ≡ residual.now.net.nodes }
    requires small { All IsSmall potentials.now }
    requires low { pos 0 ≤ℤ step_cost potentials.now (arc_at residual.now.net.arcs i) back }
    ensures { pos result ≡ step_cost potentials.now (arc_at residual.now.net.arcs i) back }
{
    let cost = residual.reduced(i, potentials);
    if back {
        (0 - cost) as u128
    } else {
        cost as u128
    }
}

/// Lowers the label of a step's end, if the step gives it a lower one, and one below the bound.
fn lower_label(
    labels: &mut [u128],
    parents: &mut [(u32, bool)],
    tail: u32,
    head: u32,
    cost: u128,
    step: (u32, bool),
    bound: u128,
) -> bool
    requires tail { tail < length labels.old }
    requires head { head < length labels.old }
    requires parents { head < length parents.old }
    requires fits { slice_index labels.old tail + cost < 2 ^ 128 }
    ensures lower { IsTrue result → slice_index labels.old tail + cost < slice_index labels.old head }
    ensures labels { IsTrue result → labels.new ≡ set labels.old head (slice_index labels.old tail + cost) }
    ensures parents { IsTrue result → parents.new ≡ set parents.old head step }
    ensures relaxed { IsFalse result → min (slice_index labels.old head) bound ≤ slice_index labels.old tail + cost }
    ensures same { IsFalse result → labels.new ≡ labels.old }
    ensures kept { IsFalse result → parents.new ≡ parents.old }
{
    let label = labels[tail as usize] + cost;
    if labels[head as usize] <= label {
        return false;
    }
    if bound <= label {
        return false;
    }
    labels[head as usize] = label;
    parents[head as usize] = step;
    true
}

/// Lowers the label of a step's end, if a search may use the step, and it gives a lower label, and one below the bound.
pub(crate) fn try_step(
    residual: &FlowNet,
    potentials: &[i128],
    labels: &mut [u128],
    parents: &mut [(u32, bool)],
    i: u32,
    back: bool,
    bound: u128,
) -> bool
    requires known { i < length residual.now.net.arcs }
    requires bounded { HasBoundedPotentials residual.now.net potentials.now }
    requires shown { IsFlowShown residual.now potentials.now }
    requires tree { IsSearchTree residual.now potentials.now labels.old parents.old }
    ensures tree { IsSearchTree residual.now potentials.now labels.new parents.new }
    ensures way { IsTrue result → IsNextOfDirection residual.now.net.arcs residual.now.flow i back }
    ensures lower { IsTrue result → (label : ℕ) × IsLowered residual.now.net.arcs potentials.now labels.old labels.new i back label }
    ensures less { IsTrue result → sum_of_labels labels.new < sum_of_labels labels.old }
    ensures same { IsFalse result → labels.new ≡ labels.old }
    ensures relaxed { IsFalse result → IsNextOfDirection residual.now.net.arcs residual.now.flow i back → IsRelaxedTo residual.now.net.arcs potentials.now labels.old bound i back }
{
    let arcs = residual.arcs();
    if !is_next(arcs, residual.flow(), i as usize, back) {
        return false;
    }
    let cost = cost_of_step(residual, potentials, i, back);
    let arc = arcs[i as usize];
    lower_label(
        labels,
        parents,
        tail_of(arc, back),
        head_of(arc, back),
        cost,
        (i, back),
        bound,
    )
}
