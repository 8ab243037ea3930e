ghost use Rattle.std.specs.Prelude.{◌≡◌, ◌<◌, ◌≤◌, ◌≢◌, All, IfOk, length, zip, slice_index_or};
ghost use Rattle.path_split.specs.Walk.{
  CanLower,
  HasUnits,
  HasEndsBelow,
  AreFirstPlaces,
  UnitsGoOn,
  IsFirstWalk,
  HasNoCycle,
  HasNoEdgeBefore,
  HasBottleneck,
  directions,
  edge_at,
  leaves,
  lowered,
  weighted_sum,
};

use crate::edge::Edge;
use plan_base::NoMemory;
use std::alloc::Global;

/// The first edge that starts at the node and has units left. No such edge is before `start`.
fn next_edge(edges: &[Edge], left: &[u128], node: u32, start: usize) -> usize
    requires long { length left.now ≡ length edges.now }
    requires some { 0 < weighted_sum (leaves node) (zip edges.now left.now) }
    requires first { HasNoEdgeBefore edges.now left.now node start }
    ensures within { result < length edges.now }
    ensures from { (edge_at edges.now result).from ≡ node }
    ensures carries { 0 < slice_index_or left.now result 0 }
    ensures first { HasNoEdgeBefore edges.now left.now node result }
{
    let mut i = start;
    while edges[i].from != node || left[i] == 0 {
        i += 1;
    }
    i
}

/// A path from the source to the destination that takes at each node its first edge with units left. `first` has for
/// each node an index before which the node has no such edge; it only grows, so that all searches together cost one
/// pass over the edges.
pub(crate) fn find_path(
    alloc: Global,
    edges: &[Edge],
    left: &[u128],
    first: &mut [usize],
    source: u32,
    destination: u32,
) -> Result<Vec<usize>, NoMemory>
    requires long { length left.now ≡ length edges.now }
    requires ends { HasEndsBelow (length first.old) edges.now }
    requires source { source < length first.old }
    requires on { UnitsGoOn (length first.old) edges.now left.now source destination }
    requires none { HasNoCycle edges.now left.now }
    requires first { AreFirstPlaces edges.now left.now first.old }
    ensures way { IfOk result (λ p. IsFirstWalk edges.now left.now source destination destination p.items) }
    ensures first { AreFirstPlaces edges.now left.now first.new }
    ensures nodes { length first.new ≡ length first.old }
{
    let mut path = Vec::new(alloc);
    let mut node = source;
    while node != destination {
        let i = next_edge(edges, left, node, first[node as usize]);
        first[node as usize] = i;
        path.push(i)?;
        node = edges[i].to;
    }
    Ok(path)
}

/// The least of `most` and of the units that are left on the path's edges.
pub(crate) fn bottleneck(left: &[u128], path: &[usize], most: u64) -> u64
    requires within { All (λ i. i < length left.now) path.now }
    requires carries { HasUnits left.now path.now }
    requires some { 0 < most }
    ensures most { result ≤ most }
    ensures some { 0 < result }
    ensures fits { All (λ i. result ≤ slice_index_or left.now i 0) path.now }
    ensures tight { result < most → HasBottleneck left.now result path.now }
{
    let mut least = u128::from(most);
    for i in path {
        least = least.min(left[*i]);
    }
    least as u64
}

/// Takes `units` from each edge of the path.
pub(crate) fn take_units(left: &mut [u128], path: &[usize], units: u64)
    requires { CanLower left.old units path.now }
    ensures { left.new ≡ lowered left.old units path.now }
{
    for i in path {
        left[*i] -= u128::from(units);
    }
}

/// The directions of the path.
pub(crate) fn directions_of(
    alloc: Global,
    edges: &[Edge],
    path: &[usize],
) -> Result<Vec<u32>, NoMemory>
    requires { All (λ i. i < length edges.now) path.now }
    ensures { IfOk result (λ ds. ds.items ≡ directions edges.now path.now) }
{
    let mut dirs = Vec::with_capacity(alloc, path.len())?;
    for i in path {
        dirs.push(edges[*i].dir)?;
    }
    Ok(dirs)
}
