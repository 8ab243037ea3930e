ghost use Rattle.std.specs.Prelude.{ℕ, ◌≡◌, ◌==◌, ◌≤◌, ◌<◌, ◌++◌, [], length, Some, None, All, cond, IfOk, IfSome, OnOk};
ghost use Rattle.std.specs.List.{cons_option, filter_map};
ghost use Rattle.std.specs.Option.{option_or};
ghost use Rattle.std.specs.BTreeMap.{IsOrdered, btree_map_len};
ghost use Rattle.plan_base.specs.Dir.{Direction, dir_order};
ghost use Rattle.channel_map.specs.Edge.{IsGoodEdge, side_between};
ghost use Rattle.layer.specs.Created.{IsGoodCreated};
ghost use Rattle.layer.specs.declared.records.Update.{Update};
ghost use Rattle.view_build.specs.Rules.{created_edge, first_created, leads_along};
ghost use Rattle.view_build.specs.Channels.{channel_at, channel_in, created_for};

use channel_map::{ChannelMap, Edge};
use layer::{Created, Layer, Update};
use plan_base::{Dir, NoMemory, Scid};
use std::alloc::Global;
use std::cmp::Ordering;
use std::collections::BTreeMap;

// The channels that layers create, each as the first layer has it.
pub(crate) fn channels_by(
    alloc: Global,
    layers: &[Layer],
) -> Result<BTreeMap<Scid, Created>, NoMemory>
    ensures first { IfOk result (λ map. (scid : ℕ) → channel_at map scid ≡ first_created scid layers.now) }
    ensures good { IfOk result (λ map. (scid : ℕ) → IfSome (channel_at map scid) IsGoodCreated) }
{
    let mut map = BTreeMap::new(alloc);
    for layer in layers {
        add_channels(&mut map, layer.created())?;
    }
    Ok(map)
}

fn add_channels(map: &mut BTreeMap<Scid, Created>, channels: &[Created]) -> Result<(), NoMemory>
    requires good { (scid : ℕ) → IfSome (channel_at map.old scid) IsGoodCreated }
    requires good_channels { All IsGoodCreated channels.now }
    ensures ok { OnOk result ((scid : ℕ) → channel_at map.new scid ≡ option_or (channel_at map.old scid) (channel_in scid channels.now)) }
    ensures good { OnOk result ((scid : ℕ) → IfSome (channel_at map.new scid) IsGoodCreated) }
{
    for channel in channels {
        add_channel(map, channel)?;
    }
    Ok(())
}

fn add_channel(map: &mut BTreeMap<Scid, Created>, channel: &Created) -> Result<(), NoMemory>
    requires good { (scid : ℕ) → IfSome (channel_at map.old scid) IsGoodCreated }
    requires good_channel { IsGoodCreated channel.now }
    ensures ok { OnOk result ((scid : ℕ) → channel_at map.new scid ≡ option_or (channel_at map.old scid) (cond (channel.now.scid == scid) (Some channel.now) None)) }
    ensures good { OnOk result ((scid : ℕ) → IfSome (channel_at map.new scid) IsGoodCreated) }
{
    if map.contains_key(&channel.scid) {
        return Ok(());
    }
    map.insert(channel.scid, *channel)?;
    Ok(())
}

// The created directions that can be in a view: those that a layer enables and the map lacks.
pub(crate) fn created_edges(
    alloc: Global,
    given: &BTreeMap<Dir, Update>,
    channels: &BTreeMap<Scid, Created>,
    map: &ChannelMap,
) -> Result<Vec<Edge>, NoMemory>
    requires { (scid : ℕ) → IfSome (channel_at channels.now scid) IsGoodCreated }
    ensures edges { IfOk result (λ edges. edges.items ≡ filter_map (λ (e : Direction × Update). created_for channels.now map.now e.0 e.1) given.now.entries) }
    ensures good { IfOk result (λ edges. All IsGoodEdge edges.items) }
    ensures few { IfOk result (λ edges. length edges.items ≤ btree_map_len given.now) }
    ensures ordered { OnOk result (IsOrdered dir_order given.now) }
{
    let mut edges = Vec::new(alloc);
    for (dir, fields) in given {
        push_some(&mut edges, created_for(channels, map, dir, fields))?;
    }
    Ok(edges)
}

fn push_some(edges: &mut Vec<Edge>, edge: Option<Edge>) -> Result<(), NoMemory>
    ensures { OnOk result (edges.new.items ≡ edges.old.items ++ cons_option edge []) }
{
    let Some(edge) = edge else {
        return Ok(());
    };
    edges.push(edge)?;
    Ok(())
}

fn created_for(
    channels: &BTreeMap<Scid, Created>,
    map: &ChannelMap,
    dir: &Dir,
    fields: &Update,
) -> Option<Edge>
    requires { (scid : ℕ) → IfSome (channel_at channels.now scid) IsGoodCreated }
    ensures edge { result ≡ created_for channels.now map.now dir.now fields.now }
    ensures good { IfSome result IsGoodEdge }
{
    if fields.enabled != Some(true) || map.dir(dir).is_some() {
        return None;
    }
    match channels.get(&dir.scid) {
        Some(channel) => Some(created_edge(dir.side, channel)),
        None => None,
    }
}

// A direction of a created channel: disabled, free, for any amount up to the capacity.
fn created_edge(side: u8, channel: &Created) -> Edge
    requires { side < 2 }
    ensures { result ≡ created_edge side channel.now }
{
    let (source, destination) = if leads_along(channel, side) {
        (channel.source, channel.destination)
    } else {
        (channel.destination, channel.source)
    };
    Edge {
        dir: Dir {
            scid: channel.scid,
            side,
        },
        source,
        destination,
        capacity: channel.capacity,
        htlc_min: 0,
        htlc_max: channel.capacity,
        base: 0,
        ppm: 0,
        delay: 0,
        enabled: false,
    }
}

fn leads_along(channel: &Created, side: u8) -> bool
    ensures { result ≡ leads_along channel.now side }
{
    let lesser = channel.source.compare(&channel.destination) == Ordering::Less;
    side == if lesser { 0 } else { 1 }
}
