ghost use Rattle.std.specs.Prelude.{◌≡◌, ◌+◌, ◌<◌, ◌^◌, All, IfOk, OnOk, length, zip};
ghost use Rattle.std.specs.List.Sorted.{IsNonDecreasingBy};
ghost use Rattle.flow_model.specs.Flow.{IsFeasible, loads};
ghost use Rattle.path_split.specs.Walk.{whole};
ghost use Rattle.path_split.specs.Edges.{AreEdgesOf, MergeOutcome, HasEqualEnds, IsAscending, AddOutcome, edge_key, last_edge, weighted_units};

use flow_model::{Arc, Flow, Instance};
use plan_base::NoMemory;
use std::alloc::Global;

/// A direction that carries units: the node at which it starts, its index in the view, the node at which it ends, and
/// the units on all its arcs.
#[derive(Clone, Copy, Debug, PartialEq, Eq)]
pub(crate) struct Edge {
    pub from: u32,
    pub dir: u32,
    pub to: u32,
    pub units: u128,
}

/// The edge of an arc with its units.
fn edge_of(arc: Arc, units: u64) -> Edge
    ensures value { result ≡ record {
      from = arc.from;
      dir = arc.dir;
      to = arc.to;
      units = units;
    } }
    ensures small { arc.dir < 2 ^ 32 }
    ensures few { units < 2 ^ 64 }
{
    Edge {
        from: arc.from,
        dir: arc.dir,
        to: arc.to,
        units: u128::from(units),
    }
}

/// An edge for each arc that carries units.
fn carrying_edges(alloc: Global, arcs: &[Arc], flow: &[u64]) -> Result<Vec<Edge>, NoMemory>
    requires { length flow.now ≡ length arcs.now }
    ensures { IfOk result (λ es. AreEdgesOf arcs.now (zip arcs.now flow.now) es.items) }
{
    let mut edges = Vec::new(alloc);
    for i in 0..flow.len() {
        let units = flow[i];
        if units > 0 {
            edges.push(edge_of(arcs[i], units))?;
        }
    }
    Ok(edges)
}

/// The number that orders edges by their starts, and then by their directions.
fn key_of(edge: &Edge) -> u64
    ensures { result ≡ edge_key edge.now }
{
    u64::from(edge.from) * 4_294_967_296 + u64::from(edge.dir)
}

/// Adds the units of an edge to the last edge if both have one direction, and else appends the edge.
fn add_edge(edges: &mut Vec<Edge>, edge: Edge) -> Result<(), NoMemory>
    requires { (last_edge edges.old.items).units + edge.units < 2 ^ 128 }
    ensures { OnOk result (AddOutcome edges.old.items edge edges.new.items) }
{
    let count = edges.len();
    if count > 0 && edges[count - 1].dir == edge.dir {
        edges[count - 1].units += edge.units;
        return Ok(());
    }
    edges.push(edge)?;
    Ok(())
}

/// The edges, with one edge in place of neighbours of one direction.
fn merge_edges(alloc: Global, edges: &[Edge]) -> Result<Vec<Edge>, NoMemory>
    requires fits { weighted_units whole edges.now < 2 ^ 128 }
    requires sorted { IsNonDecreasingBy edge_key edges.now }
    requires ends { HasEqualEnds edges.now }
    requires small { All (λ e. e.dir < 2 ^ 32) edges.now }
    ensures { IfOk result (λ es. MergeOutcome edges.now es.items) }
{
    let mut merged = Vec::with_capacity(alloc, edges.len())?;
    for i in 0..edges.len() {
        add_edge(&mut merged, edges[i])?;
    }
    Ok(merged)
}

/// The directions that carry units, ordered by the nodes at which they start, and then by their indices in the view.
pub(crate) fn edges_of(
    alloc: Global,
    instance: &Instance,
    flow: &Flow,
) -> Result<Vec<Edge>, NoMemory>
    requires { IsFeasible instance.now flow.now }
    ensures edges { IfOk result (λ es. AreEdgesOf instance.now.arcs (loads instance.now flow.now) es.items) }
    ensures order { IfOk result (λ es. IsAscending es.items) }
{
    let mut edges = carrying_edges(alloc, instance.arcs(), flow.list())?;
    edges.sort_unstable_by_key(|edge| key_of(edge));
    merge_edges(alloc, &edges)
}
