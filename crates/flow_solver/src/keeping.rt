ghost use Rattle.std.specs.Prelude.{◌≡◌, ◌<◌, ◌≤◌, All, IfOk};
ghost use Rattle.residual_net.specs.Residual.{HasDistinctArcs, HasRoomFor, flow_after};
ghost use Rattle.flow_solver.specs.Lanes.{FitsLanes};
ghost use Rattle.flow_solver.specs.Search.{IsPartialSolution};
ghost use Rattle.flow_solver.specs.Meeting.{IsCarriedOn};
ghost use Rattle.flow_solver.specs.TwoSided.{FitsSearch};

use crate::advance::{least_room, walk};
use crate::flow_net::FlowNet;
use crate::heads::heads_of;
use crate::labels::UNREACHED;
use crate::lanes::{Lanes, mark, open_lanes};
use crate::lift::carry;
use crate::meeting::{Found, meet};
use crate::node_potentials::{NodePotentials, no_potentials};
use crate::side::{Side, begin, no_side};
use crate::successive::{Augment, Augmented, solve_by};
use flow_model::{Instance, Solve, Solved};
use plan_base::NoMemory;
use std::alloc::Global;

/// Successive shortest paths with potentials (Edmonds and Karp 1972; Johnson 1977): each search goes by reduced costs,
/// which are never below 0, the least label first (Dijkstra 1959), from both ends at once (Pohl 1971), over binary heaps,
/// and ends once the two searches can find no shorter path.
///
/// A search opens only nodes near the two ends, and takes memory for two trees, two heaps and the directions at the nodes
/// that it opens. Prefer it to `Correcting` for all but very small networks.
#[derive(Clone, Copy, Debug)]
pub struct Keeping;

/// Pushes an amount along a path, and marks the lanes of its directions.
fn push_on(residual: &mut FlowNet, lanes: &mut Lanes, path: &[(u32, bool)], amount: u64)
    requires room { All (HasRoomFor residual.old.net.arcs residual.old.flow amount) path.now }
    requires distinct { HasDistinctArcs path.now }
    requires lanes { FitsLanes residual.old lanes.old.heads.net lanes.old.starts.items lanes.old.lanes.items }
    ensures value { residual.new ≡ record { net = residual.old.net; flow = flow_after residual.old.flow amount path.now } }
    ensures lanes { FitsLanes residual.new lanes.new.heads.net lanes.new.starts.items lanes.new.lanes.items }
{
    residual.push_path(path, amount);
    mark(lanes, residual.arcs(), path);
}

/// Sends more units along the path that a search found, and lifts the potentials so that they show the new flow; how
/// many units are sent then.
fn push_found(
    alloc: Global,
    instance: &Instance,
    residual: &mut FlowNet,
    search: &mut KeepingSearch<'_>,
    found: Found,
    sent: u64,
) -> Result<u64, NoMemory>
    requires net { residual.old.net ≡ instance.now }
    requires less { sent < instance.now.demand }
    requires partial { IsPartialSolution residual.old search.old.potentials sent }
    requires fits { FitsSearch residual.old search.old.lanes search.old.source search.old.destination }
    requires carried { IsCarriedOn residual.old search.old.potentials search.old.source.labels search.old.source.parents.items search.old.destination.labels found.radius found.best }
    ensures more { IfOk result (λ n. sent < n) }
    ensures most { IfOk result (λ n. n ≤ instance.now.demand) }
    ensures partial { IfOk result (λ n. IsPartialSolution residual.new search.new.potentials n) }
    ensures net { IfOk result (λ n. residual.new.net ≡ residual.old.net) }
    ensures fits { IfOk result (λ n. FitsSearch residual.new search.new.lanes search.new.source search.new.destination) }
{
    let path = walk(
        alloc,
        residual,
        &search.source.parents,
        instance.source(),
        instance.destination(),
    )?;
    let amount = least_room(residual, &path, instance.demand() - sent);
    search.potentials.lift(
        &mut search.source.labels,
        &mut search.destination.labels,
        found.radius,
        found.best - found.radius,
    )?;
    push_on(residual, &mut search.lanes, &path, amount);
    Ok(sent + amount)
}

/// A search from both ends over an instance: the directions at the nodes that it has opened, the two searches, and the
/// potentials that show the flow so far. They keep their memory from one augmentation to the next.
#[derive(Drop)]
struct KeepingSearch<'a> {
    lanes: Lanes<'a>,
    potentials: NodePotentials,
    source: Side,
    destination: Side,
}

impl<'a> Augment for KeepingSearch<'a> {
    ghost fits = { λ s residual. FitsSearch residual s.lanes s.source s.destination };

    ghost shown = { λ s. s.potentials };

    fn potentials(&self, alloc: Global) -> Result<Vec<i128>, NoMemory> {
        self.potentials.to_vec(alloc)
    }

    fn augment(
        &mut self,
        alloc: Global,
        instance: &Instance,
        residual: &mut FlowNet,
        sent: u64,
    ) -> Result<Augmented, NoMemory> {
        let end = instance.destination();
        let nodes = instance.nodes();
        begin(&mut self.source, instance.source())?;
        begin(&mut self.destination, end)?;
        let found = meet(
            residual,
            &mut self.lanes,
            &self.potentials,
            &mut self.source,
            &mut self.destination,
        )?;
        if found.best == UNREACHED {
            let side = self.source.labels.reached(alloc)?;
            return Ok(Augmented::Cut { side });
        }
        carry(
            residual,
            &self.potentials,
            &mut self.source,
            &self.destination,
            found,
            end,
            nodes,
        )?;
        let units = push_found(alloc, instance, residual, self, found, sent)?;
        Ok(Augmented::Sent { units })
    }
}

impl Solve for Keeping {
    fn solve(&self, alloc: Global, instance: &Instance) -> Result<Solved, NoMemory> {
        let firsts = heads_of(alloc, instance)?;
        let mut search = KeepingSearch {
            lanes: open_lanes(alloc, instance, &firsts)?,
            potentials: no_potentials(alloc, instance.nodes())?,
            source: no_side(alloc, instance.nodes())?,
            destination: no_side(alloc, instance.nodes())?,
        };
        solve_by(&mut search, alloc, instance)
    }
}
