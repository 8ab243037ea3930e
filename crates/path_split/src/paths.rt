ghost use Rattle.std.specs.Prelude.{◌≡◌, ◌<◌, ◌≤◌, ℕ, All, IfOk, length, map, slice_index_or};
ghost use Rattle.flow_model.specs.Flow.{IsCheapest};
ghost use Rattle.path_split.specs.Walk.{HasEndsBelow, directions, edge_at};
ghost use Rattle.path_split.specs.Parts.{IsDecomposition};

use crate::edge::{Edge, edges_of};
use crate::part::Part;
use crate::walk::{bottleneck, directions_of, find_path, take_units};
use flow_model::{Flow, Instance};
use plan_base::{Items, NoMemory};
use std::alloc::Global;

/// The paths of a cheapest flow, in ascending order, each once and with all its units. Each turn takes a path's units
/// off the edges, and empties an edge or sends the last unit.
pub(crate) fn paths_of(
    alloc: Global,
    instance: &Instance,
    flow: &Flow,
) -> Result<Vec<Part>, NoMemory>
    requires { IsCheapest instance.now flow.now }
    ensures { IfOk result (λ paths. IsDecomposition instance.now flow.now paths.items) }
{
    let edges = edges_of(alloc, instance, flow)?;
    let mut left = units_of(alloc, &edges)?;
    let mut first = firsts_of(alloc, instance.nodes(), &edges)?;
    let mut paths = Vec::new(alloc);
    let mut units = instance.demand();
    while units > 0 {
        let path = find_path(
            alloc,
            &edges,
            &left,
            &mut first,
            instance.source(),
            instance.destination(),
        )?;
        let least = bottleneck(&left, &path, units);
        paths.push(part_of(alloc, &edges, &path, least)?)?;
        take_units(&mut left, &path, least);
        units -= least;
    }
    Ok(paths)
}

/// The units of each edge.
fn units_of(alloc: Global, edges: &[Edge]) -> Result<Vec<u128>, NoMemory>
    ensures { IfOk result (λ left. left.items ≡ map (λ e. e.units) edges.now) }
{
    let mut left = Vec::with_capacity(alloc, edges.len())?;
    for edge in edges {
        left.push(edge.units)?;
    }
    Ok(left)
}

/// For each node an index such that no edge before it leaves the node.
fn firsts_of(alloc: Global, nodes: u32, edges: &[Edge]) -> Result<Vec<usize>, NoMemory>
    requires { HasEndsBelow nodes edges.now }
    ensures nodes { IfOk result (λ first. length first.items ≡ nodes) }
    ensures first { IfOk result (λ first. (j : ℕ) → j < length edges.now → slice_index_or first.items (edge_at edges.now j).from 0 ≤ j) }
{
    let mut first = vec![in alloc; 0; nodes as usize]?;
    for i in 0..edges.len() {
        let last = edges.len() - 1 - i;
        first[edges[last].from as usize] = last;
    }
    Ok(first)
}

/// The part that sends units along a path of edges.
fn part_of(alloc: Global, edges: &[Edge], path: &[usize], units: u64) -> Result<Part, NoMemory>
    requires { All (λ i. i < length edges.now) path.now }
    ensures { IfOk result (λ p. p ≡ record {
      path = directions edges.now path.now;
      units = units;
    }) }
{
    let dirs = directions_of(alloc, edges, path)?;
    Ok(Part {
        path: Items::from_vec(dirs),
        units,
    })
}
