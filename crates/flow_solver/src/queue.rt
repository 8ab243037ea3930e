ghost use Rattle.std.specs.Prelude.{◌≡◌, ◌<◌, ◌≤◌, ◌+◌, ◌-◌, ◌^◌, ◌-ℤ◌, ◌+ℤ◌, ◌≤ℤ◌, ℕ, pos, min, nat_lt, All, cond, IfNone, IfOk, IfSome, OnOk, length, set, slice_index, slice_index_or};
ghost use Rattle.flow_solver.specs.declared.labels.TheConstants.{UNREACHED};
ghost use Rattle.std.specs.BinaryHeap.{IsHeap, heap_items};
ghost use Rattle.std.specs.Ordering.{nat_cmp};
ghost use Rattle.flow_model.specs.Instance.{arc_at};
ghost use Rattle.flow_model.specs.Potentials.{IsSmall};
ghost use Rattle.flow_solver.specs.Search as words;
ghost use Rattle.flow_solver.specs.Search.{HasBoundedPotentials, IsFlowShown, InOrder, IsRelaxedTo, IsSearchTree, sum_of_labels};
ghost use Rattle.flow_solver.specs.Lanes.{FitsLanes, IsRow};
ghost use Rattle.flow_solver.specs.Queue.{IsQueue, IsQueueProgress, IsRelaxedFrom};
ghost use Rattle.flow_solver.specs.Turned.{seen, seen_potentials};
ghost use Rattle.flow_solver.specs.Meeting.{IsMeeting, IsStepOf, reduced_cost};

use crate::flow_net::FlowNet;
use crate::lanes::{Lane, Lanes, make_row, next_over, row_of};
use crate::node_potentials::NodePotentials;
use crate::side::{Side, key_of, lower_end, node_of};
use crate::steps::{NextStep, flipped};
use plan_base::NoMemory;

/// The length of the shortest path that two searches have found together, and a node of it that both reached.
#[derive(Clone, Copy, Debug)]
pub(crate) struct Meeting {
    pub(crate) best: u128,
    pub(crate) node: u32,
}

/// The end of a step that a search comes from, and the one that it leads to; a search from the destination sees each
/// step turned around.
fn ends_of(step: NextStep, turned: bool) -> (u32, u32)
    ensures near { result.0 ≡ cond turned step.head step.tail }
    ensures far { result.1 ≡ cond turned step.tail step.head }
{
    if turned {
        (step.head, step.tail)
    } else {
        (step.tail, step.head)
    }
}

/// A cost, seen from the potentials of the ends of an arc.
#[inline(always)]
fn reduced(cost: u64, from: u32, to: u32, potentials: &NodePotentials) -> i128
    requires from { from < length potentials.now }
    requires to { to < length potentials.now }
    requires small { All IsSmall potentials.now }
    ensures { result ≡ pos cost +ℤ slice_index_or potentials.now from (pos 0) -ℤ slice_index_or potentials.now to (pos 0) }
{
    i128::from(cost) + potentials.difference(from, to)
}

/// The reduced cost of a step, if it isn't below 0.
#[inline(always)]
fn cost_of_next(potentials: &NodePotentials, step: NextStep) -> u128
    requires tail { step.tail < length potentials.now }
    requires head { step.head < length potentials.now }
    requires small { All IsSmall potentials.now }
    requires low { pos 0 ≤ℤ reduced_cost potentials.now step }
    ensures { pos result ≡ reduced_cost potentials.now step }
{
    if step.back {
        (0 - reduced(step.cost, step.head, step.tail, potentials)) as u128
    } else {
        reduced(step.cost, step.tail, step.head, potentials) as u128
    }
}

/// The better of a meeting and the one at a node with these labels.
fn better(meeting: Meeting, label: u128, other: u128, node: u32) -> Meeting
    requires { label + other < 2 ^ 128 }
    ensures best { result.best ≡ min meeting.best (label + other) }
    ensures node { result.node ≡ cond (nat_lt (label + other) meeting.best) node meeting.node }
{
    let best = label + other;
    if best < meeting.best {
        Meeting { best, node }
    } else {
        meeting
    }
}

/// Lowers the label of a step's far end, if the step gives it a lower one, and one below the bound. Then it returns the
/// node and its label.
#[inline(always)]
fn lower_over(
    residual: &FlowNet,
    potentials: &NodePotentials,
    side: &mut Side,
    step: NextStep,
    turned: bool,
    bound: u128,
) -> Result<Option<(u32, u128)>, NoMemory>
    requires step { IsStepOf residual.now step }
    requires bounded { HasBoundedPotentials residual.now.net potentials.now }
    requires shown { IsFlowShown residual.now potentials.now }
    requires tree { IsSearchTree (seen turned residual.now) (seen_potentials turned potentials.now) side.old.labels side.old.parents.items }
    ensures tree { OnOk result (IsSearchTree (seen turned residual.now) (seen_potentials turned potentials.now) side.new.labels side.new.parents.items) }
    ensures node { IfOk result (λ o. IfSome o (λ r. r.0 < residual.now.net.nodes)) }
    ensures lower { IfOk result (λ o. IfSome o (λ r. r.1 < slice_index side.old.labels r.0)) }
    ensures labels { IfOk result (λ o. IfSome o (λ r. side.new.labels ≡ set side.old.labels r.0 r.1)) }
    ensures same { IfOk result (λ o. IfNone o (side.new.labels ≡ side.old.labels)) }
    ensures relaxed { OnOk result (IsRelaxedTo (seen turned residual.now).net.arcs (seen_potentials turned potentials.now) side.new.labels bound step.arc step.back) }
    ensures tail { OnOk result (slice_index side.new.labels (words.tail_of (arc_at (seen turned residual.now).net.arcs step.arc) step.back) ≡ slice_index side.old.labels (words.tail_of (arc_at (seen turned residual.now).net.arcs step.arc) step.back)) }
    ensures heap { heap_items side.new.heap ≡ heap_items side.old.heap }
{
    let _arcs = residual.arcs();
    let (near, far) = ends_of(step, turned);
    let label = side.labels.get(near) + cost_of_next(potentials, step);
    if lower_end(side, far, label, (step.arc, step.back), bound)? {
        Ok(Some((far, label)))
    } else {
        Ok(None)
    }
}

/// Lowers the label of a step's far end, and puts its node into the queue if the label fell.
#[inline(always)]
fn queue_step(
    residual: &FlowNet,
    potentials: &NodePotentials,
    side: &mut Side,
    other: &Side,
    step: NextStep,
    turned: bool,
    meeting: Meeting,
) -> Result<Meeting, NoMemory>
    requires step { IsStepOf residual.now step }
    requires bounded { HasBoundedPotentials residual.now.net potentials.now }
    requires shown { IsFlowShown residual.now potentials.now }
    requires tree { IsSearchTree (seen turned residual.now) (seen_potentials turned potentials.now) side.old.labels side.old.parents.items }
    requires other { length other.now.labels ≡ residual.now.net.nodes }
    requires other_most { (v : ℕ) → slice_index other.now.labels v ≤ UNREACHED }
    requires meeting { IsMeeting residual.now.net.nodes side.old.labels other.now.labels meeting.best meeting.node }
    ensures tree { OnOk result (IsSearchTree (seen turned residual.now) (seen_potentials turned potentials.now) side.new.labels side.new.parents.items) }
    ensures meeting { IfOk result (λ m. IsMeeting residual.now.net.nodes side.new.labels other.now.labels m.best m.node) }
    ensures best { IfOk result (λ m. m.best ≤ meeting.best) }
    ensures progress { OnOk result (IsQueueProgress side.old.labels (heap_items side.old.heap) side.new.labels (heap_items side.new.heap)) }
    ensures relaxed { IfOk result (λ m. IsRelaxedTo (seen turned residual.now).net.arcs (seen_potentials turned potentials.now) side.new.labels m.best step.arc step.back) }
    ensures tail { OnOk result (slice_index side.new.labels (words.tail_of (arc_at (seen turned residual.now).net.arcs step.arc) step.back) ≡ slice_index side.old.labels (words.tail_of (arc_at (seen turned residual.now).net.arcs step.arc) step.back)) }
{
    let _nodes = residual.arcs();
    let lowered = lower_over(residual, potentials, side, step, turned, meeting.best)?;
    match lowered {
        None => Ok(meeting),
        Some((node, label)) => {
            side.heap.push(key_of(label, node))?;
            Ok(better(meeting, label, other.labels.get(node), node))
        }
    }
}

/// Lowers the labels of the far ends of all steps out of a node, or of all steps into it if the search is turned around.
fn open_node(
    residual: &FlowNet,
    row: &[Lane],
    potentials: &NodePotentials,
    side: &mut Side,
    other: &Side,
    node: u32,
    turned: bool,
    meeting: Meeting,
) -> Result<Meeting, NoMemory>
    requires row { IsRow residual.now node row.now }
    requires order { InOrder residual.now.net.arcs residual.now.flow }
    requires bounded { HasBoundedPotentials residual.now.net potentials.now }
    requires shown { IsFlowShown residual.now potentials.now }
    requires tree { IsSearchTree (seen turned residual.now) (seen_potentials turned potentials.now) side.old.labels side.old.parents.items }
    requires other { length other.now.labels ≡ residual.now.net.nodes }
    requires other_most { (v : ℕ) → slice_index other.now.labels v ≤ UNREACHED }
    requires meeting { IsMeeting residual.now.net.nodes side.old.labels other.now.labels meeting.best meeting.node }
    ensures tree { OnOk result (IsSearchTree (seen turned residual.now) (seen_potentials turned potentials.now) side.new.labels side.new.parents.items) }
    ensures meeting { IfOk result (λ m. IsMeeting residual.now.net.nodes side.new.labels other.now.labels m.best m.node) }
    ensures best { IfOk result (λ m. m.best ≤ meeting.best) }
    ensures progress { OnOk result (IsQueueProgress side.old.labels (heap_items side.old.heap) side.new.labels (heap_items side.new.heap)) }
    ensures relaxed { IfOk result (λ m. IsRelaxedFrom (seen turned residual.now) (seen_potentials turned potentials.now) side.new.labels m.best node) }
{
    let _arcs = residual.arcs();
    let mut found = meeting;
    for lane in row {
        if let Some(next) = next_over(residual, *lane, node, flipped(lane.enters, turned)) {
            found = queue_step(residual, potentials, side, other, next, turned, found)?;
        }
    }
    Ok(found)
}

/// Takes the first node of a queue, and lowers labels by its steps.
pub(crate) fn expand(
    residual: &FlowNet,
    lanes: &mut Lanes,
    potentials: &NodePotentials,
    side: &mut Side,
    other: &Side,
    turned: bool,
    meeting: Meeting,
) -> Result<Meeting, NoMemory>
    requires order { InOrder residual.now.net.arcs residual.now.flow }
    requires lanes { FitsLanes residual.now lanes.old.heads.net lanes.old.starts.items lanes.old.lanes.items }
    requires bounded { HasBoundedPotentials residual.now.net potentials.now }
    requires shown { IsFlowShown residual.now potentials.now }
    requires tree { IsSearchTree (seen turned residual.now) (seen_potentials turned potentials.now) side.old.labels side.old.parents.items }
    requires heap { IsHeap nat_cmp (heap_items side.old.heap) }
    requires queue { IsQueue (seen turned residual.now) (seen_potentials turned potentials.now) side.old.labels meeting.best (heap_items side.old.heap) }
    requires other { length other.now.labels ≡ residual.now.net.nodes }
    requires other_most { (v : ℕ) → slice_index other.now.labels v ≤ UNREACHED }
    requires meeting { IsMeeting residual.now.net.nodes side.old.labels other.now.labels meeting.best meeting.node }
    ensures lanes { OnOk result (FitsLanes residual.now lanes.new.heads.net lanes.new.starts.items lanes.new.lanes.items) }
    ensures tree { OnOk result (IsSearchTree (seen turned residual.now) (seen_potentials turned potentials.now) side.new.labels side.new.parents.items) }
    ensures heap { OnOk result (IsHeap nat_cmp (heap_items side.new.heap)) }
    ensures queue { IfOk result (λ m. IsQueue (seen turned residual.now) (seen_potentials turned potentials.now) side.new.labels m.best (heap_items side.new.heap)) }
    ensures meeting { IfOk result (λ m. IsMeeting residual.now.net.nodes side.new.labels other.now.labels m.best m.node) }
    ensures best { IfOk result (λ m. m.best ≤ meeting.best) }
    ensures less { OnOk result (0 < length (heap_items side.old.heap) → sum_of_labels side.new.labels + length (heap_items side.new.heap) < sum_of_labels side.old.labels + length (heap_items side.old.heap)) }
{
    let _arcs = residual.arcs();
    let Some(key) = side.heap.pop() else {
        return Ok(meeting);
    };
    let Some(node) = node_of(&side.labels, key) else {
        return Ok(meeting);
    };
    make_row(lanes, residual, node)?;
    let row = row_of(lanes, node);
    side.work = side.work.saturating_add(row.len() as u64);
    let found = open_node(
        residual, row, potentials, side, other, node, turned, meeting,
    )?;
    Ok(found)
}
