ghost use Rattle.std.specs.Prelude.{◌≡◌, [], None, Some, All, IfSome, IfOk, IfErr, IsErrOf, option_map, option_copied};
ghost use Rattle.channel_map.specs.Edge.{IsGoodEdge, IsGoodMap, IsAscending};
ghost use Rattle.channel_map.specs.Channels.{listed_entries};
ghost use Rattle.channel_map.specs.Found.{gathered_in};
ghost use Rattle.channel_map.specs.Listed.{edge_for};
ghost use Rattle.channel_map.specs.Nodes.{AreNodesOf};
ghost use Rattle.channel_map.specs.Reading.{IsMapFault, IsReadAs, IsReadInOrder, SizeTest, json_value, reading_of, reading_of_distinct, first_repeated, map_reading, local_reading};

use crate::channels::read_listed;
use crate::edge::Edge;
use crate::entries::{Entries, Unread};
use crate::fault::MapFault;
use crate::nodes::{MapNodes, find_nodes, number_nodes};
use crate::order::{arrange, ascend, count_nodes, first_repeated, sort};
use plan_base::Dir;
use std::alloc::Global;
use std::marker::Model;

/// The greatest number of directions of a map.
pub const MAP_DIRECTIONS_MAX: usize = 262_144;

/// The greatest number of nodes of a map.
pub const MAP_NODES_MAX: usize = 65_536;

/// The greatest number of directions of a local file.
pub const LOCAL_DIRECTIONS_MAX: usize = 4_096;

/// The channels that a node knows: at most `MAP_DIRECTIONS_MAX` directions, ascending, each at most once.
#[derive(Debug, Drop)]
pub struct ChannelMap {
    edges: Vec<Edge>,
    nodes: MapNodes,
}

impl Model for ChannelMap {
    ghost use Rattle.std.specs.Prelude.{List};
    ghost use Rattle.channel_map.specs.declared.edge.Edge.{Edge};
    ghost use Rattle.channel_map.specs.Edge.{IsGoodMap};
    ghost use Rattle.channel_map.specs.Nodes.{AreNodesOf};
    ghost use Rattle.channel_map.specs.declared.channel_map.TheConstants.{MAP_DIRECTIONS_MAX};

    ghost Value = { List Edge };

    ghost view = { λ map. map.edges.items };

    ghost invariant = { λ map. IsGoodMap MAP_DIRECTIONS_MAX map.edges.items × AreNodesOf map.edges.items map.nodes };
}

/// The channels of the node itself: at most `LOCAL_DIRECTIONS_MAX` directions, ascending, each at most once.
#[derive(Debug, Drop)]
pub struct Local {
    edges: Vec<Edge>,
}

impl Model for Local {
    ghost use Rattle.std.specs.Prelude.{List};
    ghost use Rattle.channel_map.specs.declared.edge.Edge.{Edge};
    ghost use Rattle.channel_map.specs.Edge.{IsGoodMap};
    ghost use Rattle.channel_map.specs.declared.channel_map.TheConstants.{LOCAL_DIRECTIONS_MAX};

    ghost Value = { List Edge };

    ghost view = { λ local. local.edges.items };

    ghost invariant = { λ local. IsGoodMap LOCAL_DIRECTIONS_MAX local.edges.items };
}

#[tactic(auto, using(crate::proofs::Readings::reading_of_none, crate::proofs::Readings::reading_of_no_list))]
fn read_entries(alloc: Global, text: &[u8]) -> Result<Entries, MapFault>
    ensures ok { IfOk result
        (λ found. option_map listed_entries (json_value text.now) ≡ Some (Some (gathered_in found))) }
    ensures err { IfErr result (λ fault. (is_large : SizeTest)
        → IsMapFault fault (reading_of is_large (json_value text.now))) }
    ensures never_long { ¬ (IsErrOf result MapFault.Long) }
{
    match read_listed(alloc, text) {
        Ok(Some(found)) => Ok(found),
        Ok(None) => Err(MapFault::NoChannels),
        Err(Unread::NotJson) => Err(MapFault::NotJson),
        Err(Unread::NoMemory) => Err(MapFault::NoMemory),
    }
}

// The directions of the entries, in their order, if all are good.
#[tactic(auto, using(crate::proofs::Readings::reading_of_found))]
fn read_good(alloc: Global, text: &[u8]) -> Result<Vec<Edge>, MapFault>
    ensures ok { IfOk result (λ edges. (is_large : SizeTest) → reading_of is_large (json_value text.now)
        ≡ reading_of_distinct is_large edges.items (first_repeated edges.items)) }
    ensures good { IfOk result (λ edges. All IsGoodEdge edges.items) }
    ensures err { IfErr result (λ fault. (is_large : SizeTest)
        → IsMapFault fault (reading_of is_large (json_value text.now))) }
    ensures never_long { ¬ (IsErrOf result MapFault.Long) }
{
    let Entries { edges, bad } = read_entries(alloc, text)?;
    if let Some(field) = bad {
        return Err(MapFault::Entry {
            index: edges.len(),
            field,
        });
    }
    Ok(edges)
}

// The directions of the entries, in their order, if all are good and none occurs twice.
fn read_edges(alloc: Global, text: &[u8]) -> Result<Vec<Edge>, MapFault>
    ensures ok { IfOk result (λ edges. (is_large : SizeTest)
        → reading_of is_large (json_value text.now) ≡ reading_of_distinct is_large edges.items None) }
    ensures distinct { IfOk result (λ edges. first_repeated edges.items ≡ None) }
    ensures good { IfOk result (λ edges. All IsGoodEdge edges.items) }
    ensures err { IfErr result (λ fault. (is_large : SizeTest)
        → IsMapFault fault (reading_of is_large (json_value text.now))) }
    ensures never_long { ¬ (IsErrOf result MapFault.Long) }
{
    let edges = read_good(alloc, text)?;
    if let Some(dir) = first_repeated(alloc, &edges)? {
        return Err(MapFault::Twice { dir });
    }
    Ok(edges)
}

// The directions of the entries in ascending order, if all are good. None if one of them occurs twice.
fn read_distinct(alloc: Global, text: &[u8]) -> Result<Option<Vec<Edge>>, MapFault>
    ensures ok { IfOk result (λ found. IfSome found (λ edges. IsReadInOrder (json_value text.now) edges.items)) }
    ensures err { IfErr result (λ fault. (is_large : SizeTest)
        → IsMapFault fault (reading_of is_large (json_value text.now))) }
    ensures never_long { ¬ (IsErrOf result MapFault.Long) }
{
    let mut edges = read_good(alloc, text)?;
    arrange(&mut edges);
    if ascend(&edges) {
        Ok(Some(edges))
    } else {
        Ok(None)
    }
}

// The directions of the entries in ascending order, if all are good and none occurs twice. Only if one does, the text is
// read once more, to find the first.
fn read_in_order(alloc: Global, text: &[u8]) -> Result<Vec<Edge>, MapFault>
    ensures ok { IfOk result (λ edges. IsReadInOrder (json_value text.now) edges.items) }
    ensures err { IfErr result (λ fault. (is_large : SizeTest)
        → IsMapFault fault (reading_of is_large (json_value text.now))) }
    ensures never_long { ¬ (IsErrOf result MapFault.Long) }
{
    if let Some(distinct) = read_distinct(alloc, text)? {
        return Ok(distinct);
    }
    let mut edges = read_edges(alloc, text)?;
    sort(&mut edges);
    Ok(edges)
}

fn find<'a>(edges: &'a [Edge], dir: &Dir) -> Option<&'a Edge>
    requires { IsAscending edges.now }
    ensures { option_copied result ≡ edge_for dir.now edges.now }
{
    match edges.binary_search_by_key(dir, |edge| edge.dir) {
        Ok(place) => Some(&edges[place]),
        Err(_) => None,
    }
}

impl ChannelMap {
    /// A map without channels. Allocates nothing.
    pub fn empty(alloc: Global) -> ChannelMap
        ensures list { result ≡ [] }
        ensures directions_limit { MAP_DIRECTIONS_MAX ≡ 262144 }
        ensures nodes_limit { MAP_NODES_MAX ≡ 65536 }
    {
        ChannelMap {
            edges: Vec::new(alloc),
            nodes: MapNodes {
                ids: Vec::new(alloc),
                ends: Vec::new(alloc),
            },
        }
    }

    /// The directions, ascending by the channel's number and then by side.
    pub fn dirs(&self) -> &[Edge]
        ensures list { result.now ≡ self.now }
        ensures good { IsGoodMap MAP_DIRECTIONS_MAX self.now }
    {
        &self.edges
    }

    /// The nodes that are ends of the directions, and the places of the ends.
    pub fn nodes(&self) -> &MapNodes
        ensures { AreNodesOf self.now result.now }
    {
        &self.nodes
    }

    /// The direction's edge. None if and only if the direction is not listed.
    pub fn dir(&self, dir: &Dir) -> Option<&Edge>
        ensures { option_copied result ≡ edge_for dir.now self.now }
    {
        find(&self.edges, dir)
    }
}

impl Local {
    /// A local file without channels. Allocates nothing.
    pub fn empty(alloc: Global) -> Local
        ensures list { result ≡ [] }
        ensures limit { LOCAL_DIRECTIONS_MAX ≡ 4096 }
    {
        Local {
            edges: Vec::new(alloc),
        }
    }

    /// The directions, ascending by the channel's number and then by side.
    pub fn dirs(&self) -> &[Edge]
        ensures list { result.now ≡ self.now }
        ensures good { IsGoodMap LOCAL_DIRECTIONS_MAX self.now }
    {
        &self.edges
    }

    /// The direction's edge. None if and only if the direction is not listed.
    pub fn dir(&self, dir: &Dir) -> Option<&Edge>
        ensures { option_copied result ≡ edge_for dir.now self.now }
    {
        find(&self.edges, dir)
    }
}

/// Reads the text of a map. The directions are those of the entries, in ascending order. A refusal is the first of these
/// that holds, except that out of memory may come before any of them:
///
/// - `NotJson`: `serde_json` does not read the text.
/// - `NoChannels`: neither the text's object nor the object at its key `result` has an array `channels`.
/// - `Entry`: an entry is bad.
/// - `Twice`: two entries have the same direction.
/// - `TooMany`: there are more than `MAP_DIRECTIONS_MAX` directions or more than `MAP_NODES_MAX` nodes.
pub fn read_map(alloc: Global, text: &[u8]) -> Result<ChannelMap, MapFault>
    ensures ok { IfOk result (λ map. IsReadAs (map_reading text.now) map) }
    ensures err { IfErr result (λ fault. IsMapFault fault (map_reading text.now)) }
    ensures never_long { ¬ (IsErrOf result MapFault.Long) }
{
    let edges = read_in_order(alloc, text)?;
    let directions = edges.len();
    if directions > MAP_DIRECTIONS_MAX {
        let nodes = count_nodes(alloc, &edges)?;
        return Err(MapFault::TooMany { directions, nodes });
    }
    let found = find_nodes(alloc, &edges)?;
    let nodes = found.nodes.len();
    if nodes > MAP_NODES_MAX {
        return Err(MapFault::TooMany { directions, nodes });
    }
    let nodes = number_nodes(alloc, found)?;
    Ok(ChannelMap { edges, nodes })
}

/// Reads the text of a local file, as `read_map` does, with the limit `LOCAL_DIRECTIONS_MAX` on directions and none on
/// nodes.
pub fn read_local(alloc: Global, text: &[u8]) -> Result<Local, MapFault>
    ensures ok { IfOk result (λ local. IsReadAs (local_reading text.now) local) }
    ensures err { IfErr result (λ fault. IsMapFault fault (local_reading text.now)) }
    ensures never_long { ¬ (IsErrOf result MapFault.Long) }
{
    let mut edges = read_edges(alloc, text)?;
    let directions = edges.len();
    if directions > LOCAL_DIRECTIONS_MAX {
        let nodes = count_nodes(alloc, &edges)?;
        return Err(MapFault::TooMany { directions, nodes });
    }
    sort(&mut edges);
    Ok(Local { edges })
}
