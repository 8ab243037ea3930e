ghost use Rattle.std.specs.Prelude.{◌≡◌, None, length, IfOk, IsTrue};
ghost use Rattle.std.specs.List.Sorted.{IsPermutation, IsSortedByKey};
ghost use Rattle.plan_base.specs.Dir.{dir_order};
ghost use Rattle.channel_map.specs.Edge.{IsAscending};
ghost use Rattle.channel_map.specs.Reading.{first_repeated, nodes_of};

use crate::edge::Edge;
use indexmap::IndexSet;
use plan_base::{Dir, NoMemory, NodeId};
use std::alloc::Global;

/// The first direction that an earlier one equals.
pub(crate) fn first_repeated(alloc: Global, edges: &[Edge]) -> Result<Option<Dir>, NoMemory>
    ensures { IfOk result (λ dir. dir ≡ first_repeated edges.now) }
{
    let mut seen: IndexSet<Dir> = IndexSet::with_capacity(alloc, edges.len())?;
    for edge in edges {
        if !seen.insert(edge.dir)? {
            return Ok(Some(edge.dir));
        }
    }
    Ok(None)
}

/// How many nodes are ends of the directions.
pub(crate) fn count_nodes(alloc: Global, edges: &[Edge]) -> Result<usize, NoMemory>
    ensures { IfOk result (λ count. count ≡ length (nodes_of edges.now)) }
{
    Ok(gather_nodes(alloc, edges)?.len())
}

fn gather_nodes(alloc: Global, edges: &[Edge]) -> Result<IndexSet<NodeId>, NoMemory>
    ensures { IfOk result (λ nodes. nodes.keys ≡ nodes_of edges.now) }
{
    let mut nodes: IndexSet<NodeId> = IndexSet::new(alloc);
    for edge in edges {
        nodes.insert(edge.source)?;
        nodes.insert(edge.destination)?;
    }
    Ok(nodes)
}

/// Puts directions into an order in which none is below an earlier one.
pub(crate) fn arrange(edges: &mut Vec<Edge>)
    ensures same { IsPermutation edges.old.items edges.new.items }
    ensures sorted { IsSortedByKey (λ edge. edge.dir) dir_order edges.new.items }
{
    edges.sort_unstable_by_key(|edge| edge.dir);
}

/// Whether each direction is above the one before it, so that none occurs twice.
pub(crate) fn ascend(edges: &[Edge]) -> bool
    ensures { IsTrue result → IsAscending edges.now }
{
    for place in 1..edges.len() {
        if !edges[place - 1].dir.cmp(&edges[place].dir).is_lt() {
            return false;
        }
    }
    true
}

/// Puts directions, none of which occurs twice, into ascending order.
pub(crate) fn sort(edges: &mut Vec<Edge>)
    requires { first_repeated edges.old.items ≡ None }
    ensures same { IsPermutation edges.old.items edges.new.items }
    ensures ascending { IsAscending edges.new.items }
{
    arrange(edges);
}
