ghost use Rattle.std.specs.Prelude.{ℕ, ◌≡◌, ◌+◌, ◌*◌, ◌^◌, ◌<◌, ◌≤◌, ◌++◌, [], List, length, All, IfOk};
ghost use Rattle.std.specs.List.{Contains, flat_map};
ghost use Rattle.std.specs.List.Sorted.{IsStrictlySortedBy};
ghost use Rattle.std.specs.Ordering.{nat_cmp};
ghost use Rattle.std.specs.Cmp.Lexicographic.{slice_cmp};
ghost use Rattle.view_build.specs.Table.{IsTable, edge_ends, named_places};

use crate::nodes::place_of;
use channel_map::Edge;
use plan_base::{NoMemory, NodeId};
use std::alloc::Global;

// The nodes that directions of a view can touch, ascending, and the place among them of each node of a map.
#[derive(Drop)]
pub(crate) struct Table {
    pub(crate) ids: Vec<NodeId>,
    pub(crate) moved: Vec<u32>,
}

// The nodes of a map, and the ends of created directions.
pub(crate) fn table_of(alloc: Global, nodes: &[NodeId], created: &[Edge]) -> Result<Table, NoMemory>
    requires ascend { IsStrictlySortedBy (slice_cmp nat_cmp) nodes.now }
    requires few { length nodes.now + 2 * length created.now < 2 ^ 32 }
    ensures { IfOk result (IsTable nodes.now created.now) }
{
    if created.is_empty() {
        return unmoved(alloc, nodes);
    }
    let ids = all_nodes(alloc, nodes, created)?;
    let moved = places_of(alloc, &ids, nodes)?;
    Ok(Table { ids, moved })
}

// The nodes of a map alone, each at its own place.
fn unmoved(alloc: Global, nodes: &[NodeId]) -> Result<Table, NoMemory>
    requires ascend { IsStrictlySortedBy (slice_cmp nat_cmp) nodes.now }
    requires few { length nodes.now < 2 ^ 32 }
    ensures { IfOk result (IsTable nodes.now []) }
{
    let mut ids = Vec::with_capacity(alloc, nodes.len())?;
    ids.extend_from_slice(nodes)?;
    let mut moved = Vec::with_capacity(alloc, nodes.len())?;
    for place in 0..nodes.len() {
        moved.push(place as u32)?;
    }
    Ok(Table { ids, moved })
}

fn all_nodes(alloc: Global, nodes: &[NodeId], created: &[Edge]) -> Result<Vec<NodeId>, NoMemory>
    ensures ascend { IfOk result (λ ids. IsStrictlySortedBy (slice_cmp nat_cmp) ids.items) }
    ensures few { IfOk result (λ ids. length ids.items ≤ length nodes.now + 2 * length created.now) }
    ensures all { IfOk result (λ ids. (node : List ℕ) → Contains (nodes.now ++ flat_map edge_ends created.now) node → Contains ids.items node) }
{
    let mut ids = with_ends(alloc, nodes, created)?;
    ids.sort_unstable();
    ids.dedup();
    Ok(ids)
}

fn with_ends(alloc: Global, nodes: &[NodeId], created: &[Edge]) -> Result<Vec<NodeId>, NoMemory>
    ensures { IfOk result (λ ids. ids.items ≡ nodes.now ++ flat_map edge_ends created.now) }
{
    let mut ids = Vec::with_capacity(alloc, nodes.len())?;
    ids.extend_from_slice(nodes)?;
    for edge in created {
        ids.push(edge.source)?;
        ids.push(edge.destination)?;
    }
    Ok(ids)
}

// The places of nodes among ids.
fn places_of(alloc: Global, ids: &[NodeId], nodes: &[NodeId]) -> Result<Vec<u32>, NoMemory>
    requires ascend { IsStrictlySortedBy (slice_cmp nat_cmp) ids.now }
    requires few { length ids.now < 2 ^ 32 }
    requires among { (node : List ℕ) → Contains nodes.now node → Contains ids.now node }
    ensures named { IfOk result (λ places. named_places ids.now places.items ≡ nodes.now) }
    ensures within { IfOk result (λ places. All (λ place. place < length ids.now) places.items) }
{
    let mut places = Vec::with_capacity(alloc, nodes.len())?;
    for node in nodes {
        places.push(place_of(ids, node))?;
    }
    Ok(places)
}
