ghost use Rattle.std.specs.Prelude.{◌≡◌, ◌+◌, ◌*◌, ◌<◌, ◌≤◌, length, map, slice_index_or, [], All, IsTrue, IfOk, OnOk};
ghost use Rattle.std.specs.List.{Contains};
ghost use Rattle.channel_map.specs.Nodes.{ArePlaces, IsNumbered, ends_at, ends_of, id_at, named_ends};
ghost use Rattle.channel_map.specs.Reading.{nodes_of, with_ends, with_node};

use crate::edge::Edge;
use crate::{MAP_DIRECTIONS_MAX, MAP_NODES_MAX};
use indexmap::IndexSet;
use plan_base::{NoMemory, NodeId};
use std::alloc::Global;

/// The places of the ends of a direction among the nodes of a map.
#[derive(Clone, Copy, Debug, PartialEq)]
pub struct Ends {
    /// The place of the source.
    pub from: u32,
    /// The place of the destination.
    pub to: u32,
}

/// The nodes of a map, and where the ends of its directions are among them.
#[derive(Debug, Drop)]
pub struct MapNodes {
    /// The ids of the nodes, ascending.
    pub ids: Vec<NodeId>,
    /// The places of the ends of each direction, in the order of the directions.
    pub ends: Vec<Ends>,
}

/// The nodes that are ends of directions, in the order in which they are found, and the places of the ends among them.
#[derive(Drop)]
pub(crate) struct FoundNodes {
    pub(crate) nodes: IndexSet<NodeId>,
    pub(crate) ends: Vec<Ends>,
}

/// Finds the ends of the directions.
pub(crate) fn find_nodes(alloc: Global, edges: &[Edge]) -> Result<FoundNodes, NoMemory>
    requires few { length edges.now ≤ MAP_DIRECTIONS_MAX }
    ensures nodes { IfOk result (λ found. found.nodes.keys ≡ nodes_of edges.now) }
    ensures named { IfOk result (λ found. map (named_ends found.nodes.keys) found.ends.items ≡ map ends_of edges.now) }
    ensures within { IfOk result (λ found. All (ArePlaces (length found.nodes.keys)) found.ends.items) }
{
    let mut nodes: IndexSet<NodeId> = IndexSet::new(alloc);
    let mut ends = Vec::with_capacity(alloc, edges.len())?;
    let mut last = Ends { from: 0, to: 0 };
    for edge in edges {
        let places = add_ends(&mut nodes, edge, last)?;
        ends.push(places)?;
        last = places;
    }
    Ok(FoundNodes { nodes, ends })
}

// Where the direction before was the other one of its channel, `last` has the places of its ends.
fn add_ends(nodes: &mut IndexSet<NodeId>, edge: &Edge, last: Ends) -> Result<Ends, NoMemory>
    requires few { length nodes.old.keys + 1 < 2 * MAP_DIRECTIONS_MAX }
    ensures keys { OnOk result (nodes.new.keys ≡ with_ends nodes.old.keys edge.now) }
    ensures named { IfOk result (λ ends. named_ends nodes.new.keys ends ≡ ends_of edge.now) }
    ensures within { IfOk result (ArePlaces (length nodes.new.keys)) }
{
    let from = add_node(nodes, edge.source, last.to)?;
    let to = add_node(nodes, edge.destination, last.from)?;
    Ok(Ends { from, to })
}

// `likely` is tried first.
fn add_node(nodes: &mut IndexSet<NodeId>, node: NodeId, likely: u32) -> Result<u32, NoMemory>
    requires few { length nodes.old.keys < 2 * MAP_DIRECTIONS_MAX }
    ensures keys { OnOk result (nodes.new.keys ≡ with_node nodes.old.keys node) }
    ensures is { IfOk result (λ place. slice_index_or nodes.new.keys place [] ≡ node) }
    ensures within { IfOk result (λ place. place < length nodes.new.keys) }
{
    if is_at(nodes.as_slice(), likely, &node) {
        return Ok(likely);
    }
    let added = nodes.insert_full(node)?;
    Ok(added.0 as u32)
}

fn is_at(ids: &[NodeId], place: u32, node: &NodeId) -> bool
    ensures within { IsTrue result → place < length ids.now }
    ensures is { IsTrue result → slice_index_or ids.now place [] ≡ node.now }
{
    match ids.get(place as usize) {
        Some(id) => id == node,
        None => false,
    }
}

/// Numbers the nodes in ascending order.
pub(crate) fn number_nodes(alloc: Global, found: FoundNodes) -> Result<MapNodes, NoMemory>
    requires few { length found.nodes.keys ≤ MAP_NODES_MAX }
    requires within { All (ArePlaces (length found.nodes.keys)) found.ends.items }
    ensures { IfOk result (IsNumbered found.nodes.keys found.ends.items) }
{
    let FoundNodes { mut nodes, ends } = found;
    let before = ids_of(alloc, &nodes)?;
    nodes.sort_unstable()?;
    let places = places(alloc, &nodes, &before)?;
    let ends = moved(alloc, &places, &ends)?;
    let ids = ids_of(alloc, &nodes)?;
    Ok(MapNodes { ids, ends })
}

fn ids_of(alloc: Global, nodes: &IndexSet<NodeId>) -> Result<Vec<NodeId>, NoMemory>
    ensures { IfOk result (λ ids. ids.items ≡ nodes.now.keys) }
{
    let mut ids = Vec::with_capacity(alloc, nodes.len())?;
    ids.extend_from_slice(nodes.as_slice())?;
    Ok(ids)
}

fn places(alloc: Global, nodes: &IndexSet<NodeId>, before: &[NodeId]) -> Result<Vec<u32>, NoMemory>
    requires few { length nodes.now.keys ≤ MAP_NODES_MAX }
    requires all { All (Contains nodes.now.keys) before.now }
    ensures named { IfOk result (λ places. map (id_at nodes.now.keys) places.items ≡ before.now) }
    ensures within { IfOk result (λ places. All (λ place. place < length nodes.now.keys) places.items) }
{
    let mut places = Vec::with_capacity(alloc, before.len())?;
    for node in before {
        places.push(place_of(nodes, node))?;
    }
    Ok(places)
}

fn place_of(nodes: &IndexSet<NodeId>, node: &NodeId) -> u32
    requires few { length nodes.now.keys ≤ MAP_NODES_MAX }
    requires among { Contains nodes.now.keys node.now }
    ensures within { result < length nodes.now.keys }
    ensures is { slice_index_or nodes.now.keys result [] ≡ node.now }
{
    nodes.get_index_of(node).unwrap() as u32
}

// The ends, where the node at each place has moved to another.
#[tactic(auto, using(crate::proofs::Places::moved_more))]
fn moved(alloc: Global, places: &[u32], ends: &[Ends]) -> Result<Vec<Ends>, NoMemory>
    requires { All (ArePlaces (length places.now)) ends.now }
    ensures { IfOk result (λ moved. moved.items ≡ map (ends_at places.now) ends.now) }
{
    let mut moved = Vec::with_capacity(alloc, ends.len())?;
    for pair in ends {
        moved.push(moved_ends(places, pair))?;
    }
    Ok(moved)
}

fn moved_ends(places: &[u32], ends: &Ends) -> Ends
    requires { ArePlaces (length places.now) ends.now }
    ensures { result ≡ ends_at places.now ends.now }
{
    Ends {
        from: places[ends.from as usize],
        to: places[ends.to as usize],
    }
}
