ghost use Rattle.std.specs.Prelude.{◌≡◌, ◌<◌, ◌≤◌, ◌+◌, ◌-◌, ℕ, Contains, IfNone, IfOk, IfSome, OnOk, length};
ghost use Rattle.std.specs.BinaryHeap.{IsHeap, heap_items};
ghost use Rattle.std.specs.Ordering.{nat_cmp};
ghost use Rattle.flow_model.specs.declared.limits.TheConstants.{NODES_MAX};
ghost use Rattle.residual_net.specs.Residual.{IsResidualNet};
ghost use Rattle.flow_solver.specs.declared.labels.TheConstants.{UNREACHED};
ghost use Rattle.flow_solver.specs.Search.{HasBoundedPotentials, InOrder, IsFlowShown};
ghost use Rattle.flow_solver.specs.Lanes.{FitsLanes};
ghost use Rattle.flow_solver.specs.Queue.{key_of};
ghost use Rattle.flow_solver.specs.Meeting.{IsMet};
ghost use Rattle.flow_solver.specs.TwoSided.{IsTwoSided, size_of};

use crate::flow_net::FlowNet;
use crate::labels::UNREACHED;
use crate::lanes::Lanes;
use crate::node_potentials::NodePotentials;
use crate::queue::{Meeting, expand};
use crate::side::{Side, front};
use plan_base::NoMemory;

/// What a search from both ends finds: the best meeting, and how much of its path's length is within the part of the
/// network that the source's search has settled.
#[derive(Clone, Copy, Debug)]
pub(crate) struct Found {
    pub(crate) best: u128,
    pub(crate) node: u32,
    pub(crate) radius: u128,
}

/// How far from the source no label can fall any more, if the two searches can find no shorter path. If they have not
/// met yet, the source's search goes on until it has tried the steps of all nodes that it reaches.
fn radius_of(source: &Side, destination: &Side, best: u128) -> Option<u128>
    requires source { IsHeap nat_cmp (heap_items source.now.heap) }
    requires destination { IsHeap nat_cmp (heap_items destination.now.heap) }
    requires best { best ≤ UNREACHED }
    ensures most { IfSome result (λ a. a ≤ best) }
    ensures source { IfSome result (λ a. (v label : ℕ) → v < NODES_MAX → label ≤ UNREACHED → Contains (heap_items source.now.heap) (key_of label v) → a ≤ label) }
    ensures destination { IfSome result (λ a. (v label : ℕ) → v < NODES_MAX → label ≤ UNREACHED → Contains (heap_items destination.now.heap) (key_of label v) → best ≤ a + label) }
    ensures whole { IfSome result (λ a. best ≡ UNREACHED → a ≡ UNREACHED) }
    ensures more { IfNone result (0 < length (heap_items source.now.heap)) }
{
    let near = front(source);
    if near >= best {
        return Some(best);
    }
    if best == UNREACHED {
        return None;
    }
    if best - near <= front(destination) {
        return Some(near);
    }
    None
}

/// Lets the search that has tried fewer steps try those of one more node.
fn expand_one(
    residual: &FlowNet,
    lanes: &mut Lanes,
    potentials: &NodePotentials,
    source: &mut Side,
    destination: &mut Side,
    meeting: Meeting,
) -> Result<Meeting, NoMemory>
    requires order { InOrder residual.now.net.arcs residual.now.flow }
    requires lanes { FitsLanes residual.now lanes.old.heads.net lanes.old.starts.items lanes.old.lanes.items }
    requires bounded { HasBoundedPotentials residual.now.net potentials.now }
    requires shown { IsFlowShown residual.now potentials.now }
    requires two { IsTwoSided residual.now potentials.now source.old destination.old meeting.best meeting.node }
    requires more { 0 < length (heap_items source.old.heap) }
    ensures lanes { OnOk result (FitsLanes residual.now lanes.new.heads.net lanes.new.starts.items lanes.new.lanes.items) }
    ensures two { IfOk result (λ m. IsTwoSided residual.now potentials.now source.new destination.new m.best m.node) }
    ensures less { OnOk result (size_of source.new + size_of destination.new < size_of source.old + size_of destination.old) }
{
    if destination.heap.is_empty() {
        return Ok(expand(
            residual,
            lanes,
            potentials,
            source,
            destination,
            false,
            meeting,
        )?);
    }
    if source.work <= destination.work {
        return Ok(expand(
            residual,
            lanes,
            potentials,
            source,
            destination,
            false,
            meeting,
        )?);
    }
    Ok(expand(
        residual,
        lanes,
        potentials,
        destination,
        source,
        true,
        meeting,
    )?)
}

/// Searches from both ends for the shortest path between them.
pub(crate) fn meet(
    residual: &FlowNet,
    lanes: &mut Lanes,
    potentials: &NodePotentials,
    source: &mut Side,
    destination: &mut Side,
) -> Result<Found, NoMemory>
    requires residual { IsResidualNet residual.now }
    requires order { InOrder residual.now.net.arcs residual.now.flow }
    requires lanes { FitsLanes residual.now lanes.old.heads.net lanes.old.starts.items lanes.old.lanes.items }
    requires bounded { HasBoundedPotentials residual.now.net potentials.now }
    requires shown { IsFlowShown residual.now potentials.now }
    requires two { IsTwoSided residual.now potentials.now source.old destination.old UNREACHED 0 }
    ensures lanes { OnOk result (FitsLanes residual.now lanes.new.heads.net lanes.new.starts.items lanes.new.lanes.items) }
    ensures two { IfOk result (λ f. IsTwoSided residual.now potentials.now source.new destination.new f.best f.node) }
    ensures met { IfOk result (λ f. IsMet residual.now potentials.now source.new.labels destination.new.labels f.radius (f.best - f.radius) f.best) }
    ensures radius { IfOk result (λ f. f.radius ≤ f.best) }
    ensures whole { IfOk result (λ f. f.best ≡ UNREACHED → f.radius ≡ UNREACHED) }
{
    let mut meeting = Meeting {
        best: UNREACHED,
        node: 0,
    };
    loop {
        if let Some(radius) = radius_of(source, destination, meeting.best) {
            return Ok(Found {
                best: meeting.best,
                node: meeting.node,
                radius,
            });
        }
        meeting = expand_one(residual, lanes, potentials, source, destination, meeting)?;
    }
}
