ghost use Rattle.std.specs.Prelude.{◌≡◌, ◌<◌, ◌≤◌, ◌≢◌, ◌∷◌, [], ℕ, min, Contains, IfNone, IfOk, IfSome, OnOk, IsFalse, IsTrue, length, replicate, set, slice_index};
ghost use Rattle.std.specs.List.Sorted.{IsPermutation};
ghost use Rattle.std.specs.BinaryHeap.{IsHeap, heap_items};
ghost use Rattle.std.specs.Ordering.{nat_cmp};
ghost use Rattle.flow_model.specs.declared.limits.TheConstants.{NODES_MAX};
ghost use Rattle.flow_solver.specs.declared.labels.TheConstants.{UNREACHED};
ghost use Rattle.flow_solver.specs.Queue as queue;

use crate::labels::UNREACHED;
use crate::node_labels::{NodeLabels, no_labels};
use flow_model::NODES_MAX;
use plan_base::NoMemory;
use std::alloc::Global;
use std::collections::BinaryHeap;

/// A search from one end: for each node its label, and the step that the label comes from; the nodes whose steps are
/// still to be tried, the one with the least label first; and how many steps it has tried.
#[derive(Drop)]
pub(crate) struct Side {
    pub(crate) labels: NodeLabels,
    pub(crate) parents: Vec<(u32, bool)>,
    pub(crate) heap: BinaryHeap<u128>,
    pub(crate) work: u64,
}

/// A search that has not begun.
pub(crate) fn no_side(alloc: Global, nodes: u32) -> Result<Side, NoMemory>
    ensures labels { IfOk result (λ s. length s.labels ≡ nodes) }
    ensures parents { IfOk result (λ s. length s.parents.items ≡ nodes) }
{
    let labels = no_labels(alloc, nodes)?;
    let parents = Vec::from_elem(alloc, (0, false), nodes as usize)?;
    Ok(Side {
        labels,
        parents,
        heap: BinaryHeap::new(alloc),
        work: 0,
    })
}

/// The search that has reached its end and no other node.
pub(crate) fn begin(side: &mut Side, end: u32) -> Result<(), NoMemory>
    requires end { end < length side.old.labels }
    requires few { length side.old.labels ≤ NODES_MAX }
    ensures labels { OnOk result (side.new.labels ≡ set (replicate (length side.old.labels) UNREACHED) end 0) }
    ensures parents { side.new.parents.items ≡ side.old.parents.items }
    ensures heap { OnOk result (IsHeap nat_cmp (heap_items side.new.heap)) }
    ensures queue { OnOk result (IsPermutation (queue.key_of 0 end ∷ []) (heap_items side.new.heap)) }
{
    side.labels.clear();
    side.labels.lower(end, 0)?;
    side.heap.clear();
    side.heap.push(key_of(0, end))?;
    side.work = 0;
    Ok(())
}

/// The key of a node: the lower its label, the greater its key. Keys are single integers, so a heap of them compares
/// fast.
pub(crate) fn key_of(label: u128, node: u32) -> u128
    requires label { label ≤ UNREACHED }
    requires node { node < NODES_MAX }
    ensures { result ≡ queue.key_of label node }
{
    (UNREACHED - label) * u128::from(NODES_MAX) + u128::from(node)
}

/// The node whose key this is. `None` if the key is outdated: its node's label has fallen since.
pub(crate) fn node_of(labels: &NodeLabels, key: u128) -> Option<u32>
    requires few { length labels.now ≤ NODES_MAX }
    requires most { (v : ℕ) → slice_index labels.now v ≤ UNREACHED }
    ensures inside { IfSome result (λ v. v < length labels.now) }
    ensures node { IfSome result (λ v. key ≡ queue.key_of (slice_index labels.now v) v) }
    ensures stale { IfNone result ((v : ℕ) → v < length labels.now → key ≢ queue.key_of (slice_index labels.now v) v) }
{
    let node = (key % u128::from(NODES_MAX)) as u32;
    if node as usize >= labels.len() {
        return None;
    }
    if key != key_of(labels.get(node), node) {
        return None;
    }
    Some(node)
}

/// A label that no node in the queue is below; `UNREACHED` if the queue is empty.
pub(crate) fn front(side: &Side) -> u128
    requires { IsHeap nat_cmp (heap_items side.now.heap) }
    ensures least { (v label : ℕ) → v < NODES_MAX → label ≤ UNREACHED → Contains (heap_items side.now.heap) (queue.key_of label v) → result ≤ label }
    ensures some { result < UNREACHED → 0 < length (heap_items side.now.heap) }
    ensures most { result ≤ UNREACHED }
{
    match side.heap.peek() {
        Some(key) => UNREACHED.saturating_sub(*key / u128::from(NODES_MAX)),
        None => UNREACHED,
    }
}

/// Gives a node this label and this step, if the label is lower than the node's, and below the bound.
#[inline(always)]
pub(crate) fn lower_end(
    side: &mut Side,
    node: u32,
    label: u128,
    step: (u32, bool),
    bound: u128,
) -> Result<bool, NoMemory>
    requires node { node < length side.old.labels }
    requires parents { node < length side.old.parents.items }
    ensures lower { IfOk result (λ r. IsTrue r → label < slice_index side.old.labels node) }
    ensures labels { IfOk result (λ r. IsTrue r → side.new.labels ≡ set side.old.labels node label) }
    ensures parents { IfOk result (λ r. IsTrue r → side.new.parents.items ≡ set side.old.parents.items node step) }
    ensures relaxed { IfOk result (λ r. IsFalse r → min (slice_index side.old.labels node) bound ≤ label) }
    ensures same { IfOk result (λ r. IsFalse r → side.new.labels ≡ side.old.labels) }
    ensures kept { IfOk result (λ r. IsFalse r → side.new.parents.items ≡ side.old.parents.items) }
    ensures heap { heap_items side.new.heap ≡ heap_items side.old.heap }
{
    if side.labels.get(node) <= label {
        return Ok(false);
    }
    if bound <= label {
        return Ok(false);
    }
    side.labels.lower(node, label)?;
    side.parents[node as usize] = step;
    Ok(true)
}
