ghost use Rattle.std.specs.Prelude.{◌≡◌, ◌≢◌, ◌<◌, ◌≤◌, ◌+◌, ◌^◌, ℕ, true, false, IfNone, IfOk, IfSome, IsFalse, IsTrue, length, slice_index};
ghost use Rattle.flow_model.specs.Instance.{StandTogether, arc_at};
ghost use Rattle.flow_solver.specs.Heads.{HasHeads, HasNoNext, IsHead, IsOnlyNext};
ghost use Rattle.flow_solver.specs.Meeting.{IsStepOf};
ghost use Rattle.flow_solver.specs.Search.{InOrder};

use crate::flow_net::FlowNet;
use crate::steps::NextStep;
use flow_model::{Arc, Instance};
use plan_base::NoMemory;
use std::alloc::Global;

/// The network of the first arcs of all directions. The direction of such an arc is its index in the instance.
pub(crate) fn heads_of(alloc: Global, instance: &Instance) -> Result<Instance, NoMemory>
    ensures heads { IfOk result (λ h. HasHeads instance.now.arcs h.arcs (length instance.now.arcs)) }
    ensures nodes { IfOk result (λ h. h.nodes ≡ instance.now.nodes) }
{
    let arcs = first_arcs(alloc, instance.arcs())?;
    Ok(Instance::new(
        instance.nodes(),
        instance.source(),
        instance.destination(),
        instance.demand(),
        arcs,
    ))
}

/// The first arcs of all directions.
fn first_arcs(alloc: Global, arcs: &[Arc]) -> Result<Vec<Arc>, NoMemory>
    requires { length arcs.now < 2 ^ 32 }
    ensures { IfOk result (λ heads. HasHeads arcs.now heads.items (length arcs.now)) }
{
    let mut heads = Vec::new(alloc);
    for i in 0..arcs.len() {
        if is_first(arcs, i) {
            heads.push(head_at(arcs[i], i as u32))?;
        }
    }
    Ok(heads)
}

/// Whether the arc is the first of its direction.
fn is_first(arcs: &[Arc], i: usize) -> bool
    requires { i < length arcs.now }
    ensures yes { IsTrue result → (k : ℕ) → k + 1 ≡ i → (arc_at arcs.now k).dir ≢ (arc_at arcs.now i).dir }
    ensures no { IsFalse result → (1 ≤ i) × ((k : ℕ) → k + 1 ≡ i → (arc_at arcs.now k).dir ≡ (arc_at arcs.now i).dir) }
{
    if i == 0 {
        return true;
    }
    arcs[i - 1].dir != arcs[i].dir
}

/// The head of a direction whose first arc this is.
pub(crate) fn head_at(arc: Arc, index: u32) -> Arc
    ensures { result ≡ record { from = arc.from; to = arc.to; room = arc.room; cost = arc.cost; dir = index } }
{
    Arc { dir: index, ..arc }
}

/// The first arc of a direction that has room.
fn next_forward(arcs: &[Arc], flow: &[u64], head: Arc) -> Option<u32>
    requires head { IsHead arcs.now head }
    requires long { length flow.now ≡ length arcs.now }
    requires few { length arcs.now < 2 ^ 32 }
    requires together { StandTogether arcs.now }
    requires order { InOrder arcs.now flow.now }
    requires rooms { (i : ℕ) → i < length arcs.now → 0 < (arc_at arcs.now i).room }
    requires fits { (i : ℕ) → i < length arcs.now → slice_index flow.now i ≤ (arc_at arcs.now i).room }
    ensures next { IfSome result (λ i. IsOnlyNext arcs.now flow.now head false i) }
    ensures none { IfNone result (HasNoNext arcs.now flow.now head false) }
{
    if flow[head.dir as usize] < head.room {
        return Some(head.dir);
    }
    let first = head.dir as usize;
    for i in first..arcs.len() {
        if arcs[i].dir != arcs[first].dir {
            return None;
        }
        if flow[i] < arcs[i].room {
            return Some(i as u32);
        }
    }
    None
}

/// The last arc of a direction that carries anything.
fn next_backward(arcs: &[Arc], flow: &[u64], head: Arc) -> Option<u32>
    requires head { IsHead arcs.now head }
    requires long { length flow.now ≡ length arcs.now }
    requires few { length arcs.now < 2 ^ 32 }
    requires together { StandTogether arcs.now }
    requires order { InOrder arcs.now flow.now }
    requires rooms { (i : ℕ) → i < length arcs.now → 0 < (arc_at arcs.now i).room }
    ensures next { IfSome result (λ i. IsOnlyNext arcs.now flow.now head true i) }
    ensures none { IfNone result (HasNoNext arcs.now flow.now head true) }
{
    let first = head.dir as usize;
    if flow[first] == 0 {
        return None;
    }
    for i in first + 1..arcs.len() {
        if arcs[i].dir != arcs[first].dir {
            return Some(i as u32 - 1);
        }
        if flow[i] == 0 {
            return Some(i as u32 - 1);
        }
    }
    Some(arcs.len() as u32 - 1)
}

/// The cost of an arc of a direction.
fn cost_of(arcs: &[Arc], head: Arc, i: u32) -> u64
    requires head { IsHead arcs.now head }
    requires known { i < length arcs.now }
    ensures { result ≡ (arc_at arcs.now i).cost }
{
    if i == head.dir {
        head.cost
    } else {
        arcs[i as usize].cost
    }
}

/// The step over an arc of a direction, if a search may use one.
pub(crate) fn next_of(residual: &FlowNet, head: Arc, back: bool) -> Option<NextStep>
    requires head { IsHead residual.now.net.arcs head }
    requires order { InOrder residual.now.net.arcs residual.now.flow }
    ensures step { IfSome result (λ s. IsStepOf residual.now s) }
    ensures back { IfSome result (λ s. s.back ≡ back) }
    ensures only { IfSome result (λ s. IsOnlyNext residual.now.net.arcs residual.now.flow head back s.arc) }
    ensures none { IfNone result (HasNoNext residual.now.net.arcs residual.now.flow head back) }
{
    if back {
        next_step_backward(residual, head)
    } else {
        next_step_forward(residual, head)
    }
}

/// The step forward over an arc of a direction, if a search may use one.
fn next_step_forward(residual: &FlowNet, head: Arc) -> Option<NextStep>
    requires head { IsHead residual.now.net.arcs head }
    requires order { InOrder residual.now.net.arcs residual.now.flow }
    ensures step { IfSome result (λ s. IsStepOf residual.now s) }
    ensures back { IfSome result (λ s. s.back ≡ false) }
    ensures only { IfSome result (λ s. IsOnlyNext residual.now.net.arcs residual.now.flow head false s.arc) }
    ensures none { IfNone result (HasNoNext residual.now.net.arcs residual.now.flow head false) }
{
    let arcs = residual.arcs();
    let Some(arc) = next_forward(arcs, residual.flow(), head) else {
        return None;
    };
    Some(NextStep {
        arc,
        back: false,
        tail: head.from,
        head: head.to,
        cost: cost_of(arcs, head, arc),
    })
}

/// The step backward over an arc of a direction, if a search may use one.
fn next_step_backward(residual: &FlowNet, head: Arc) -> Option<NextStep>
    requires head { IsHead residual.now.net.arcs head }
    requires order { InOrder residual.now.net.arcs residual.now.flow }
    ensures step { IfSome result (λ s. IsStepOf residual.now s) }
    ensures back { IfSome result (λ s. s.back ≡ true) }
    ensures only { IfSome result (λ s. IsOnlyNext residual.now.net.arcs residual.now.flow head true s.arc) }
    ensures none { IfNone result (HasNoNext residual.now.net.arcs residual.now.flow head true) }
{
    let arcs = residual.arcs();
    let Some(arc) = next_backward(arcs, residual.flow(), head) else {
        return None;
    };
    Some(NextStep {
        arc,
        back: true,
        tail: head.to,
        head: head.from,
        cost: cost_of(arcs, head, arc),
    })
}
