ghost use Rattle.std.specs.Prelude.{◌≡◌, ◌+◌, ◌≤◌, IfOk, OnOk};
ghost use Rattle.channel_map.specs.Edge.{IsGoodEdge};
ghost use Rattle.layer.specs.Layer.{count_entries};
ghost use Rattle.layer.specs.declared.records.TheConstants.{ENTRIES_MAX};
ghost use Rattle.auto_layers.specs.LocalLayer.{local_lists};
ghost use Rattle.auto_layers.specs.Added.{is_channel, last_channel, with_bound, with_channel, with_direction, with_edge};

use channel_map::{Edge, Local};
use layer::{Bound, Constraint, Created, Layer, Update};
use plan_base::{MAX, NoMemory, Scid};
use std::alloc::Global;

/// The layer of the payer's own channels: each channel of the local file is created with a capacity of MAX msat, and each
/// of its directions has an update of all fields, and its amount as both bounds.
pub fn local_layer(alloc: Global, local: &Local) -> Result<Layer, NoMemory>
    ensures { IfOk result (λ layer. layer ≡ local_lists local.now) }
{
    let mut layer = Layer::new(alloc);
    let mut last = None;
    for edge in local.dirs() {
        add_edge(&mut layer, edge, last)?;
        last = Some(edge.dir.scid);
    }
    Ok(layer)
}

// The last direction before this one was of the channel `last`.
fn add_edge(layer: &mut Layer, edge: &Edge, last: Option<Scid>) -> Result<(), NoMemory>
    requires good { IsGoodEdge edge.now }
    requires room { count_entries layer.old + 4 ≤ ENTRIES_MAX }
    ensures ok { OnOk result (layer.new ≡ with_edge layer.old last edge.now) }
{
    if !is_channel(last, edge) {
        add_channel(layer, edge)?;
    }
    add_direction(layer, edge)
}

fn is_channel(last: Option<Scid>, edge: &Edge) -> bool
    ensures { result ≡ is_channel last edge.now }
{
    match last {
        Some(scid) => edge.dir.scid == scid,
        None => false,
    }
}

fn add_channel(layer: &mut Layer, edge: &Edge) -> Result<(), NoMemory>
    requires good { IsGoodEdge edge.now }
    requires room { count_entries layer.old + 1 ≤ ENTRIES_MAX }
    ensures ok { OnOk result (layer.new ≡ with_channel layer.old edge.now) }
{
    layer.push_created(Created {
        scid: edge.dir.scid,
        source: edge.source,
        destination: edge.destination,
        capacity: MAX,
    })
}

fn add_direction(layer: &mut Layer, edge: &Edge) -> Result<(), NoMemory>
    requires good { IsGoodEdge edge.now }
    requires room { count_entries layer.old + 3 ≤ ENTRIES_MAX }
    ensures ok { OnOk result (layer.new ≡ with_direction layer.old edge.now) }
{
    layer.push_update(Update {
        dir: edge.dir,
        enabled: Some(edge.enabled),
        htlc_min: Some(edge.htlc_min),
        htlc_max: Some(edge.htlc_max),
        base: Some(edge.base),
        ppm: Some(edge.ppm),
        delay: Some(edge.delay),
    })?;
    add_bound(layer, edge, Bound::Max)?;
    add_bound(layer, edge, Bound::Min)
}

fn add_bound(layer: &mut Layer, edge: &Edge, bound: Bound) -> Result<(), NoMemory>
    requires good { IsGoodEdge edge.now }
    requires room { count_entries layer.old + 1 ≤ ENTRIES_MAX }
    ensures ok { OnOk result (layer.new ≡ with_bound layer.old edge.now bound) }
{
    layer.push_constraint(Constraint {
        dir: edge.dir,
        bound,
        amount: edge.capacity,
        moment: 0,
    })
}
