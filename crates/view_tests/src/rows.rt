ghost use Rattle.std.specs.Prelude.{◌≡◌, length, All, IfSome};
ghost use Rattle.plan_base.specs.Held.{IsGoodReservation};
ghost use Rattle.layer.specs.Update.{IsGoodUpdate};
ghost use Rattle.view_tests.specs.Asks.{AreGoodLayers};

use crate::asks::{local_layer, no_layer, one_layer, snapshot, two_layers};
use channel_map::{ChannelMap, Local, read_local, read_map};
use layer::{Asked, Bound, Constraint, Created, ENTRIES_MAX, Layer, Snapshot, Update};
use plan_base::{Dir, Items, NodeId, Reservation};
use std::alloc::Global;
use view_build::{View, ViewDir, ViewFault, build};

const A: &str = "02aaaaaaaaaaaaaaaaaaaaaaaaaaaaaaaaaaaaaaaaaaaaaaaaaaaaaaaaaaaaaaaa";

const B: &str = "02bbbbbbbbbbbbbbbbbbbbbbbbbbbbbbbbbbbbbbbbbbbbbbbbbbbbbbbbbbbbbbbb";

const C: &str = "02cccccccccccccccccccccccccccccccccccccccccccccccccccccccccccccccc";

const D: &str = "02dddddddddddddddddddddddddddddddddddddddddddddddddddddddddddddddd";

// 100x1x0 from A to B, and 100x2x0 from B to C, of 1000000 msat each.
const TWO_HOPS: &str = "\
    {\"channels\":[{\"source\":\"02aaaaaaaaaaaaaaaaaaaaaaaaaaaaaaaaaaaaaaaaaaaaaaaaaaaaaaaaaaaaaaaa\
    \",\"destination\":\"02bbbbbbbbbbbbbbbbbbbbbbbbbbbbbbbbbbbbbbbbbbbbbbbbbbbbbbbbbbbbbbbb\",\"shor\
    t_channel_id\":\"100x1x0\",\"amount_msat\":1000000,\"base_fee_millisatoshi\":1000,\"fee_per_mill\
    ionth\":1000,\"delay\":6},{\"source\":\"02bbbbbbbbbbbbbbbbbbbbbbbbbbbbbbbbbbbbbbbbbbbbbbbbbbbbbb\
    bbbbbbbbbb\",\"destination\":\"02ccccccccccccccccccccccccccccccccccccccccccccccccccccccccccccccc\
    c\",\"short_channel_id\":\"100x2x0\",\"amount_msat\":1000000,\"base_fee_millisatoshi\":0,\"fee_p\
    er_millionth\":1000,\"delay\":6}]}";

// 100x3x0 from A to D, of 1000000 msat.
const ONE_CHANNEL: &str = "\
    {\"channels\":[{\"source\":\"02aaaaaaaaaaaaaaaaaaaaaaaaaaaaaaaaaaaaaaaaaaaaaaaaaaaaaaaaaaaaaaaa\
    \",\"destination\":\"02dddddddddddddddddddddddddddddddddddddddddddddddddddddddddddddddd\",\"shor\
    t_channel_id\":\"100x3x0\",\"amount_msat\":1000000,\"base_fee_millisatoshi\":0,\"fee_per_million\
    th\":0,\"delay\":6}]}";

// 100x3x0 from A to D, of 300000 msat.
const OWN_CHANNEL: &str = "\
    {\"channels\":[{\"source\":\"02aaaaaaaaaaaaaaaaaaaaaaaaaaaaaaaaaaaaaaaaaaaaaaaaaaaaaaaaaaaaaaaa\
    \",\"destination\":\"02dddddddddddddddddddddddddddddddddddddddddddddddddddddddddddddddd\",\"shor\
    t_channel_id\":\"100x3x0\",\"amount_msat\":300000,\"base_fee_millisatoshi\":0,\"fee_per_milliont\
    h\":0,\"delay\":6}]}";

// The only direction of a view.
fn only(view: &View) -> Option<ViewDir> {
    match view.dirs() {
        [direction] => Some(*direction),
        _ => None,
    }
}

fn has_bounds(view: &View, min: u64, max: u64) -> bool {
    match only(view) {
        Some(direction) => direction.min == min && direction.max == max,
        None => false,
    }
}

fn over_one_channel(alloc: Global, snapshot: &Snapshot) -> Option<View> {
    let map = read_map(alloc, ONE_CHANNEL.as_bytes()).ok()?;
    build(alloc, snapshot, &map, &Local::empty(alloc)).ok()
}

fn no_update(dir: Dir) -> Update
    ensures { IsGoodUpdate result }
{
    Update {
        dir,
        enabled: None,
        htlc_min: None,
        htlc_max: None,
        base: None,
        ppm: None,
        delay: None,
    }
}

// ---- the bounds that a layer gives, and reservations

fn bounded(alloc: Global) -> Option<Layer> {
    let dir = Dir::read("100x3x0/0").ok()?;
    let mut layer = Layer::new(alloc);
    layer
        .push_constraint(Constraint {
            dir,
            bound: Bound::Max,
            amount: 500_000,
            moment: 0,
        })
        .ok()?;
    push_minimum(layer, dir)
}

fn push_minimum(mut layer: Layer, dir: Dir) -> Option<Layer> {
    if layer.entries() >= ENTRIES_MAX {
        return None;
    }
    layer
        .push_constraint(Constraint {
            dir,
            bound: Bound::Min,
            amount: 700_000,
            moment: 0,
        })
        .ok()?;
    Some(layer)
}

fn held(alloc: Global) -> Option<Items<Reservation>>
    ensures { IfSome result (All IsGoodReservation) }
{
    let mut held = Vec::new(alloc);
    held.push(Reservation {
        dir: Dir::read("100x3x0/0").ok()?,
        amount: 600_000,
        caller: 0,
        moment: 0,
    })
    .ok()?;
    Some(Items::from_vec(held))
}

fn layers(alloc: Global, layer: Layer) -> Option<Vec<Layer>>
    ensures { IfSome result (λ layers. length layers.items ≡ 1) }
{
    let mut layers = Vec::new(alloc);
    match layers.push(layer) {
        Ok(()) => Some(layers),
        Err(_) => None,
    }
}

fn bounds(alloc: Global, reservations: Items<Reservation>) -> Option<View>
    requires { All IsGoodReservation reservations }
{
    let snapshot = snapshot(
        A,
        D,
        one_layer(alloc)?,
        layers(alloc, bounded(alloc)?)?,
        reservations,
    )?;
    over_one_channel(alloc, &snapshot)
}

#[test]
fn a_minimum_is_cut_and_reservations_are_taken_from_both_bounds(rt: HostRuntime) {
    let alloc = rt.alloc();
    let view = bounds(alloc, Items::new(alloc));
    assert!(rt; matches!(&view, Some(view) if has_bounds(view, 500_000, 500_000)));
    let reservations = held(alloc).expect(&rt, "memory");
    let view = bounds(alloc, reservations);
    assert!(rt; matches!(&view, Some(view) if has_bounds(view, 0, 0)));
}

// ---- the fields that layers give

fn base_7(dir: Dir) -> Update
    ensures { IsGoodUpdate result }
{
    let mut change = no_update(dir);
    change.base = Some(7);
    change
}

fn ppm_9(dir: Dir, base: Option<u32>) -> Update
    ensures { IsGoodUpdate result }
{
    let mut change = no_update(dir);
    change.ppm = Some(9);
    change.base = base;
    change
}

fn layer_with(alloc: Global, change: Update) -> Option<Layer>
    requires { IsGoodUpdate change }
{
    let mut layer = Layer::new(alloc);
    layer.push_update(change).ok()?;
    Some(layer)
}

fn pair(alloc: Global, first: Layer, second: Layer) -> Option<Vec<Layer>>
    ensures { IfSome result (λ layers. length layers.items ≡ 2) }
{
    let mut layers = layers(alloc, first)?;
    match layers.push(second) {
        Ok(()) => Some(layers),
        Err(_) => None,
    }
}

// Whether a view with these layers, asked in this order, has the fees.
fn has_fees(alloc: Global, first: Update, second: Update, base: u32, ppm: u32) -> Option<bool>
    requires first { IsGoodUpdate first }
    requires second { IsGoodUpdate second }
{
    let layers = pair(alloc, layer_with(alloc, first)?, layer_with(alloc, second)?)?;
    let snapshot = snapshot(A, D, two_layers(alloc)?, layers, Items::new(alloc))?;
    let direction = only(&over_one_channel(alloc, &snapshot)?)?;
    Some(direction.base == base && direction.ppm == ppm)
}

fn the_last_layer_wins(alloc: Global) -> Option<bool> {
    let dir = Dir::read("100x3x0/0").ok()?;
    let x = base_7(dir);
    let y = ppm_9(dir, None);
    let both = ppm_9(dir, Some(8));
    Some(
        has_fees(alloc, x, y, 7, 9)?
            && has_fees(alloc, y, x, 7, 9)?
            && has_fees(alloc, x, both, 8, 9)?
            && has_fees(alloc, both, x, 7, 9)?,
    )
}

#[test]
fn the_last_layer_asked_wins_per_field(rt: HostRuntime) {
    assert!(rt; the_last_layer_wins(rt.alloc()) == Some(true));
}

// ---- channels of the payer's own, created ones, and disabled nodes

fn is_source_unknown(view: &Result<View, ViewFault>) -> bool {
    matches!(view, Err(ViewFault::SourceUnknown))
}

// The view over the payer's own channels alone, for an ask of these layers.
fn over_own(alloc: Global, local: &Local, asked: Items<Asked>) -> Option<Result<View, ViewFault>>
    requires { AreGoodLayers 0 asked }
{
    let snapshot = snapshot(A, D, asked, Vec::new(alloc), Items::new(alloc))?;
    Some(build(alloc, &snapshot, &ChannelMap::empty(alloc), local))
}

fn own_channels(alloc: Global) -> Option<bool> {
    let local = read_local(alloc, OWN_CHANNEL.as_bytes()).ok()?;
    let is_unknown = is_source_unknown(&over_own(alloc, &local, no_layer(alloc))?);
    let view = over_own(alloc, &local, local_layer(alloc)?)?.ok()?;
    Some(is_unknown && has_bounds(&view, 300_000, 300_000))
}

fn created(alloc: Global) -> Option<Layer> {
    let source = NodeId::read(A).ok()?;
    let destination = NodeId::read(D).ok()?;
    if source == destination {
        return None;
    }
    let mut layer = Layer::new(alloc);
    layer
        .push_created(Created {
            scid: Dir::read("100x3x0/0").ok()?.scid,
            source,
            destination,
            capacity: 1000,
        })
        .ok()?;
    Some(layer)
}

fn enabled(mut layer: Layer) -> Option<Layer> {
    let mut change = no_update(Dir::read("100x3x0/0").ok()?);
    change.enabled = Some(true);
    if layer.entries() >= ENTRIES_MAX {
        return None;
    }
    layer.push_update(change).ok()?;
    Some(layer)
}

fn build_with(
    alloc: Global,
    layer: Layer,
    map: &ChannelMap,
    destination: &str,
) -> Option<Result<View, ViewFault>> {
    let snapshot = snapshot(
        A,
        destination,
        one_layer(alloc)?,
        layers(alloc, layer)?,
        Items::new(alloc),
    )?;
    Some(build(alloc, &snapshot, map, &Local::empty(alloc)))
}

fn created_channels(alloc: Global) -> Option<bool> {
    let map = ChannelMap::empty(alloc);
    let before = build_with(alloc, created(alloc)?, &map, D)?;
    let after = build_with(alloc, enabled(created(alloc)?)?, &map, D)?.ok()?;
    Some(is_source_unknown(&before) && has_bounds(&after, 0, 1000))
}

fn disabled_nodes(alloc: Global) -> Option<bool> {
    let map = read_map(alloc, TWO_HOPS.as_bytes()).ok()?;
    let mut layer = Layer::new(alloc);
    let open = build_with(alloc, layer.copy().ok()?, &map, C)?.ok()?;
    layer.push_disabled(NodeId::read(B).ok()?).ok()?;
    let closed = build_with(alloc, layer, &map, C)?;
    Some(open.dirs().len() == 2 && is_source_unknown(&closed))
}

#[test]
fn a_view_needs_a_direction_at_the_source(rt: HostRuntime) {
    assert!(rt; own_channels(rt.alloc()) == Some(true));
    assert!(rt; created_channels(rt.alloc()) == Some(true));
    assert!(rt; disabled_nodes(rt.alloc()) == Some(true));
}
