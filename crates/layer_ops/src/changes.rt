ghost use Rattle.std.specs.Prelude.{◌≡◌, ◌+◌, ◌<◌, length, true, IfOk, OnOk, OnErr};
ghost use Rattle.layer.specs.Created.{IsGoodCreated};
ghost use Rattle.layer.specs.Update.{IsGoodUpdate};
ghost use Rattle.layer.specs.Constraint.{IsGoodConstraint};
ghost use Rattle.layer.specs.Bias.{IsGoodBias};
ghost use Rattle.layer.specs.Layer.{count_entries};
ghost use Rattle.layer_ops.specs.Changes.{has_created, has_disabled, merged, with_created, with_update, with_constraint, with_bias, with_disabled, aged};
ghost use Rattle.layer_ops.specs.LayerRefusal.{IsLayerRefusal, refusal_of_adding, refusal_of_create, refusal_of_update, refusal_of_inform, refusal_of_bias, refusal_of_disable};

use crate::LayerRefusal;
use layer::{Bias, Constraint, Created, ENTRIES_MAX, Layer, Update};
use plan_base::{NoMemory, NodeId, Scid};

/// Appends a created channel. Refuses first if the layer has created the channel already, then if the layer is full.
/// A refusal leaves the layer unchanged, here and below.
pub fn create_channel(layer: &mut Layer, channel: Created) -> Result<(), LayerRefusal>
    requires { IsGoodCreated channel }
    ensures ok { OnOk result (layer.new ≡ with_created layer.old channel) }
    ensures err { OnErr result (layer.new ≡ layer.old) }
    ensures refusal { IsLayerRefusal (refusal_of_create layer.old channel) result }
{
    if creates(layer, channel.scid) {
        return Err(LayerRefusal::ChannelExists { scid: channel.scid });
    }
    check_room(layer)?;
    layer.push_created(channel)?;
    Ok(())
}

fn creates(layer: &Layer, scid: Scid) -> bool
    ensures { result ≡ has_created layer.now scid }
{
    layer.created().iter().any(|channel| channel.scid == scid)
}

fn check_room(layer: &Layer) -> Result<(), LayerRefusal>
    ensures refusal { IsLayerRefusal (refusal_of_adding true layer.now) result }
    ensures room { OnOk result (count_entries layer.now < ENTRIES_MAX) }
{
    let entries = layer.entries();
    if entries == ENTRIES_MAX {
        return Err(LayerRefusal::LayerFull { entries });
    }
    Ok(())
}

/// Changes the given fields of the direction's update in place, or appends an update if the direction has none. A change
/// without fields also appends one. Refuses if it would append to a full layer.
pub fn update(layer: &mut Layer, change: Update) -> Result<(), LayerRefusal>
    requires { IsGoodUpdate change }
    ensures ok { OnOk result (layer.new ≡ with_update layer.old change) }
    ensures err { OnErr result (layer.new ≡ layer.old) }
    ensures refusal { IsLayerRefusal (refusal_of_update layer.old change.dir) result }
{
    let Some(place) = layer.update_place(change.dir) else {
        check_room(layer)?;
        layer.push_update(change)?;
        return Ok(());
    };
    let merged = merge(&layer.updates()[place], &change);
    layer.set_update(place, merged)?;
    Ok(())
}

fn merge(old: &Update, change: &Update) -> Update
    requires old { IsGoodUpdate old.now }
    requires change { IsGoodUpdate change.now }
    ensures value { result ≡ merged old.now change.now }
    ensures good { IsGoodUpdate result }
{
    Update {
        dir: old.dir,
        enabled: change.enabled.or(old.enabled),
        htlc_min: change.htlc_min.or(old.htlc_min),
        htlc_max: change.htlc_max.or(old.htlc_max),
        base: change.base.or(old.base),
        ppm: change.ppm.or(old.ppm),
        delay: change.delay.or(old.delay),
    }
}

/// Appends a constraint. Refuses if the layer is full.
pub fn inform(layer: &mut Layer, constraint: Constraint) -> Result<(), LayerRefusal>
    requires { IsGoodConstraint constraint }
    ensures ok { OnOk result (layer.new ≡ with_constraint layer.old constraint) }
    ensures err { OnErr result (layer.new ≡ layer.old) }
    ensures refusal { IsLayerRefusal (refusal_of_inform layer.old) result }
{
    check_room(layer)?;
    layer.push_constraint(constraint)?;
    Ok(())
}

/// Replaces the direction's bias in place, or appends the bias if the direction has none. A bias of 0 is kept like any
/// other. Refuses if it would append to a full layer.
pub fn bias(layer: &mut Layer, bias: Bias) -> Result<(), LayerRefusal>
    requires { IsGoodBias bias }
    ensures ok { OnOk result (layer.new ≡ with_bias layer.old bias) }
    ensures err { OnErr result (layer.new ≡ layer.old) }
    ensures refusal { IsLayerRefusal (refusal_of_bias layer.old bias.dir) result }
{
    let Some(place) = layer.bias_place(bias.dir) else {
        check_room(layer)?;
        layer.push_bias(bias)?;
        return Ok(());
    };
    layer.set_bias(place, bias)?;
    Ok(())
}

/// Appends a disabled node, or changes nothing if the node is disabled already. Refuses if it would append to a full layer.
pub fn disable(layer: &mut Layer, node: NodeId) -> Result<(), LayerRefusal>
    ensures ok { OnOk result (layer.new ≡ with_disabled layer.old node) }
    ensures err { OnErr result (layer.new ≡ layer.old) }
    ensures refusal { IsLayerRefusal (refusal_of_disable layer.old node) result }
{
    if disables(layer, node) {
        return Ok(());
    }
    check_room(layer)?;
    layer.push_disabled(node)?;
    Ok(())
}

fn disables(layer: &Layer, node: NodeId) -> bool
    ensures { result ≡ has_disabled layer.now node }
{
    layer.disabled().contains(&node)
}

/// Removes the constraints from before the cutoff, a time in Unix seconds, and returns how many it removed. The others
/// keep their order. If it removes none, it allocates nothing.
pub fn age(layer: &mut Layer, cutoff: u64) -> Result<u32, NoMemory>
    ensures kept { OnOk result (layer.new ≡ aged layer.old cutoff) }
    ensures count { IfOk result (λ count. count + length layer.new.constraints ≡ length layer.old.constraints) }
    ensures err { OnErr result (layer.new ≡ layer.old) }
{
    layer.drop_before(cutoff)
}
