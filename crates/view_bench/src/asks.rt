ghost use Rattle.std.specs.Prelude.{◌≡◌, ◌≢◌, ◌≤◌, ◌<◌, ◌∷◌, [], codes, length, All, IfSome};
ghost use Rattle.plan_base.specs.Held.{IsGoodReservation};
ghost use Rattle.layer.specs.Ask.{IsGoodAsk, named_layers};
ghost use Rattle.layer.specs.Layer.{count_entries};
ghost use Rattle.layer.specs.declared.ask.Asked.TheVariants.{Named};
ghost use Rattle.layer.specs.declared.records.TheConstants.{ENTRIES_MAX};
ghost use Rattle.layer.specs.Name.{is_good_name};

use channel_map::Edge;
use layer::{Ask, Asked, Bias, Bound, Constraint, ENTRIES_MAX, Layer, Name, Snapshot, Update};
use plan_base::{Dir, Items, NodeId, Reservation};
use std::alloc::Global;

pub(crate) fn snapshot(
    alloc: Global,
    source: NodeId,
    destination: NodeId,
    layer: Layer,
    held: Items<Reservation>,
) -> Option<Snapshot>
    requires apart { source ≢ destination }
    requires held { All IsGoodReservation held }
{
    let ask = ask(alloc, source, destination)?;
    let mut layers = Vec::new(alloc);
    match layers.push(layer) {
        Ok(()) => Some(Snapshot::new(ask, Items::from_vec(layers), held)),
        Err(_) => None,
    }
}

// An ask of 1000 msat with a layer x.
fn ask(alloc: Global, source: NodeId, destination: NodeId) -> Option<Ask>
    requires { source ≢ destination }
    ensures good { IfSome result IsGoodAsk }
    ensures layers { IfSome result (λ ask. length (named_layers ask.layers) ≡ 1) }
{
    let Ok(name) = Name::read(alloc, "x") else {
        return None;
    };
    let mut asked = Items::new(alloc);
    match asked.push(Asked::Named(name)) {
        Ok(()) => Some(Ask {
            source,
            destination,
            amount: 1000,
            layers: asked,
            maxfee: 0,
            final_cltv: 18,
            maxdelay: 2016,
            maxparts: 10,
            certificate: false,
        }),
        Err(_) => None,
    }
}

pub(crate) fn held(alloc: Global, edges: &[Edge], count: u32) -> Option<Items<Reservation>>
    ensures { IfSome result (All IsGoodReservation) }
{
    let mut held = Vec::new(alloc);
    for number in 0..count {
        let dir = dir_at(edges, number)?;
        held.push(Reservation {
            dir,
            amount: 1,
            caller: 0,
            moment: 0,
        })
        .ok()?;
    }
    Some(Items::from_vec(held))
}

pub(crate) fn filled(alloc: Global, edges: &[Edge], entries: u32) -> Option<Layer> {
    let mut layer = Layer::new(alloc);
    for number in 0..entries {
        let dir = dir_at(edges, number)?;
        if layer.entries() >= ENTRIES_MAX {
            return None;
        }
        push_entry(&mut layer, dir, number)?;
    }
    Some(layer)
}

fn push_entry(layer: &mut Layer, dir: Dir, number: u32) -> Option<()>
    requires { count_entries layer.old < ENTRIES_MAX }
{
    match number % 4 {
        0 => layer.push_update(Update {
            dir,
            enabled: None,
            htlc_min: None,
            htlc_max: None,
            base: Some(7),
            ppm: None,
            delay: None,
        }),
        1 => layer.push_bias(Bias { dir, bias: 5 }),
        2 => layer.push_constraint(Constraint {
            dir,
            bound: Bound::Max,
            amount: 1_000_000,
            moment: 0,
        }),
        _ => layer.push_constraint(Constraint {
            dir,
            bound: Bound::Min,
            amount: 1000,
            moment: 0,
        }),
    }
    .ok()
}

// Directions all over the map. Their order is not that of the map.
fn dir_at(edges: &[Edge], number: u32) -> Option<Dir> {
    if edges.is_empty() {
        return None;
    }
    let place = (u64::from(number) * 40_503) % (edges.len() as u64);
    Some(edges.get(place as usize)?.dir)
}
