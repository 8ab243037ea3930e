ghost use Rattle.std.specs.Prelude.{◌≡◌, ◌<◌, ◌≤◌, ℕ, cond, true, false, drop, take, IfNone, IfOk, IfSome, OnOk, length, replicate, slice_index, slice_index_or};
ghost use Rattle.flow_model.specs.Instance.{arc_at};
ghost use Rattle.residual_net.specs.Residual.{steps_out};
ghost use Rattle.flow_solver.specs.Heads.{HasHeads, HasNoNext, IsOnlyNext};
ghost use Rattle.flow_solver.specs.Lanes as words;
ghost use Rattle.flow_solver.specs.Lanes.{FitsLanes, HasMadeRows, IsLaneOf, IsMade, IsMarked, IsMarkedAt, IsMarkedIn, IsMarkedOver, IsRowTo, first_of};
ghost use Rattle.flow_solver.specs.Meeting.{IsStepOf};
ghost use Rattle.flow_solver.specs.Search.{InOrder, head_of as head_node};

use crate::flow_net::FlowNet;
use crate::heads::{head_at, next_of};
use crate::steps::{NextStep, head_of};
use flow_model::{Arc, Instance};
use plan_base::NoMemory;
use residual_net::Residual;
use std::alloc::Global;

/// The start of a node whose lanes are not made.
pub(crate) const UNMADE: usize = usize::MAX;

/// A direction at one of its two nodes: its first arc and that arc's cost, the other node, and whether the direction
/// enters the node. As long as it isn't used, it carries nothing.
#[derive(Clone, Copy, Debug)]
pub(crate) struct Lane {
    pub(crate) first: u32,
    pub(crate) other: u32,
    pub(crate) cost: u64,
    pub(crate) enters: bool,
    pub(crate) used: bool,
}

/// The lanes at the nodes whose steps a search has tried, those of a node together: node `v`'s from the `v`-th start on,
/// one for each step out of it over the network of first arcs. A short search makes few of them.
#[derive(Debug, Drop)]
pub(crate) struct Lanes<'a> {
    pub(crate) heads: Residual<'a>,
    pub(crate) starts: Vec<usize>,
    pub(crate) lanes: Vec<Lane>,
}

/// The lanes of an instance with these first arcs, none of which is made.
pub(crate) fn open_lanes<'a>(
    alloc: Global,
    instance: &Instance,
    firsts: &'a Instance,
) -> Result<Lanes<'a>, NoMemory>
    requires heads { HasHeads instance.now.arcs firsts.now.arcs (length instance.now.arcs) }
    requires nodes { firsts.now.nodes ≡ instance.now.nodes }
    ensures { IfOk result (λ l. FitsLanes (record { net = instance.now; flow = replicate (length instance.now.arcs) 0 }) l.heads.net l.starts.items l.lanes.items) }
{
    Ok(Lanes {
        heads: Residual::open(alloc, firsts)?,
        starts: Vec::from_elem(alloc, UNMADE, instance.nodes() as usize)?,
        lanes: Vec::new(alloc),
    })
}

/// The lane of a step over a head whose first arc carries these units.
fn lane_of(head: Arc, enters: bool, units: u64) -> Lane
    ensures same { words.unmarked result ≡ record { first = head.dir; other = head_node head enters; cost = head.cost; enters = enters; used = false } }
    ensures known { result.used ≡ false → units ≡ 0 }
{
    Lane {
        first: head.dir,
        other: head_of(head, enters),
        cost: head.cost,
        enters,
        used: units > 0,
    }
}

/// Appends the lanes at a node.
fn push_row(
    lanes: &mut Vec<Lane>,
    heads: &Residual,
    flow: &[u64],
    node: u32,
) -> Result<(), NoMemory>
    requires node { node < heads.now.net.nodes }
    requires known { (g : ℕ) → g < length heads.now.net.arcs → (arc_at heads.now.net.arcs g).dir < length flow.now }
    ensures { OnOk result (IsRowTo flow.now heads.now.net.arcs node (length (steps_out heads.now.net.arcs node)) lanes.old.items lanes.new.items) }
{
    let firsts = heads.arcs();
    let out = heads.out(node);
    for step in out {
        let head = firsts[step.0 as usize];
        lanes.push(lane_of(head, step.1, flow[head.dir as usize]))?;
    }
    Ok(())
}

/// Makes the lanes at a node, if they are not made.
pub(crate) fn make_row(lanes: &mut Lanes, residual: &FlowNet, node: u32) -> Result<(), NoMemory>
    requires node { node < residual.now.net.nodes }
    requires lanes { FitsLanes residual.now lanes.old.heads.net lanes.old.starts.items lanes.old.lanes.items }
    ensures lanes { OnOk result (FitsLanes residual.now lanes.new.heads.net lanes.new.starts.items lanes.new.lanes.items) }
    ensures made { OnOk result (IsMade lanes.new.starts.items node) }
{
    let _arcs = residual.arcs();
    if lanes.starts[node as usize] < UNMADE {
        return Ok(());
    }
    let start = lanes.lanes.len();
    push_row(&mut lanes.lanes, &lanes.heads, residual.flow(), node)?;
    lanes.starts[node as usize] = start;
    Ok(())
}

/// The lanes at a node, which are made.
pub(crate) fn row_of<'l>(lanes: &'l Lanes, node: u32) -> &'l [Lane]
    requires node { node < lanes.now.heads.net.nodes }
    requires made { IsMade lanes.now.starts.items node }
    requires held { HasMadeRows lanes.now.heads.net lanes.now.starts.items lanes.now.lanes.items }
    ensures { result.now ≡ take (length (steps_out lanes.now.heads.net.arcs node)) (drop (slice_index lanes.now.starts.items node) lanes.now.lanes.items) }
{
    let start = lanes.starts[node as usize];
    let end = start + lanes.heads.out(node).len();
    &lanes.lanes[start..end]
}

/// A lane, marked if its direction has this first arc.
fn marked_if(lane: Lane, first: u32) -> Lane
    ensures same { words.unmarked result ≡ words.unmarked lane }
    ensures stays { lane.used ≡ true → result.used ≡ true }
    ensures marked { lane.first ≡ first → result.used ≡ true }
{
    Lane {
        used: lane.used || lane.first == first,
        ..lane
    }
}

/// Marks the lane of the direction with this first arc, if it is between these positions.
fn mark_in(lanes: &mut [Lane], start: usize, end: usize, first: u32)
    requires end { end ≤ length lanes.old }
    ensures marked { IsMarked lanes.old lanes.new }
    ensures all { IsMarkedIn lanes.new start end first }
{
    for q in start..end {
        lanes[q] = marked_if(lanes[q], first);
    }
}

/// Marks the lane at a node of the direction with this first arc, if it is made.
fn mark_at(lanes: &mut Lanes, node: u32, first: u32)
    requires node { node < lanes.old.heads.net.nodes }
    requires held { HasMadeRows lanes.old.heads.net lanes.old.starts.items lanes.old.lanes.items }
    ensures heads { lanes.new.heads ≡ lanes.old.heads }
    ensures starts { lanes.new.starts.items ≡ lanes.old.starts.items }
    ensures marked { IsMarked lanes.old.lanes.items lanes.new.lanes.items }
    ensures all { IsMarkedAt lanes.old.heads.net.arcs lanes.old.starts.items lanes.new.lanes.items node first }
{
    let start = lanes.starts[node as usize];
    if start < UNMADE {
        let end = start + lanes.heads.out(node).len();
        mark_in(&mut lanes.lanes, start, end, first);
    }
}

/// Marks the lanes at both ends of an arc, if its direction begins with it.
fn mark_over(lanes: &mut Lanes, arc: Arc, first: u32)
    requires from { arc.from < lanes.old.heads.net.nodes }
    requires to { arc.to < lanes.old.heads.net.nodes }
    requires held { HasMadeRows lanes.old.heads.net lanes.old.starts.items lanes.old.lanes.items }
    ensures heads { lanes.new.heads ≡ lanes.old.heads }
    ensures starts { lanes.new.starts.items ≡ lanes.old.starts.items }
    ensures marked { IsMarked lanes.old.lanes.items lanes.new.lanes.items }
    ensures all { IsMarkedOver lanes.old.heads.net.arcs lanes.old.starts.items lanes.new.lanes.items arc first }
{
    mark_at(lanes, arc.from, first);
    mark_at(lanes, arc.to, first);
}

/// Marks the lanes of the directions that begin with an arc of a path.
pub(crate) fn mark(lanes: &mut Lanes, arcs: &[Arc], path: &[(u32, bool)])
    requires path { (m : ℕ) → m < length path.now → (slice_index_or path.now m (0, false)).0 < length arcs.now }
    requires from { (i : ℕ) → i < length arcs.now → (arc_at arcs.now i).from < lanes.old.heads.net.nodes }
    requires to { (i : ℕ) → i < length arcs.now → (arc_at arcs.now i).to < lanes.old.heads.net.nodes }
    requires held { HasMadeRows lanes.old.heads.net lanes.old.starts.items lanes.old.lanes.items }
    ensures heads { lanes.new.heads ≡ lanes.old.heads }
    ensures starts { lanes.new.starts.items ≡ lanes.old.starts.items }
    ensures marked { IsMarked lanes.old.lanes.items lanes.new.lanes.items }
    ensures all { (m : ℕ) → m < length path.now → IsMarkedOver lanes.old.heads.net.arcs lanes.old.starts.items lanes.new.lanes.items (arc_at arcs.now (slice_index_or path.now m (0, false)).0) (slice_index_or path.now m (0, false)).0 }
{
    for step in path {
        mark_over(lanes, arcs[step.0 as usize], step.0);
    }
}

/// The first arc of a lane's direction, as a head.
fn first_arc(residual: &FlowNet, first: u32) -> Arc
    requires { first < length residual.now.net.arcs }
    ensures { result ≡ first_of residual.now.net.arcs first }
{
    head_at(residual.arcs()[first as usize], first)
}

/// The step forward over the first arc of a lane at this node.
fn first_step(lane: Lane, node: u32) -> NextStep
    ensures { result ≡ record { arc = lane.first; back = false; tail = cond lane.enters lane.other node; head = cond lane.enters node lane.other; cost = lane.cost } }
{
    let (tail, head) = if lane.enters {
        (lane.other, node)
    } else {
        (node, lane.other)
    };
    NextStep {
        arc: lane.first,
        back: false,
        tail,
        head,
        cost: lane.cost,
    }
}

/// The step over an arc of a lane's direction, if a search may use one.
pub(crate) fn next_over(residual: &FlowNet, lane: Lane, node: u32, back: bool) -> Option<NextStep>
    requires lane { IsLaneOf residual.now node lane }
    requires order { InOrder residual.now.net.arcs residual.now.flow }
    ensures step { IfSome result (λ s. IsStepOf residual.now s) }
    ensures back { IfSome result (λ s. s.back ≡ back) }
    ensures only { IfSome result (λ s. IsOnlyNext residual.now.net.arcs residual.now.flow (first_of residual.now.net.arcs lane.first) back s.arc) }
    ensures none { IfNone result (HasNoNext residual.now.net.arcs residual.now.flow (first_of residual.now.net.arcs lane.first) back) }
{
    let _arcs = residual.arcs();
    if lane.used {
        return next_of(residual, first_arc(residual, lane.first), back);
    }
    if back {
        return None;
    }
    Some(first_step(lane, node))
}
