ghost use Rattle.std.specs.Prelude.{◌≡◌, ◌-◌, ℕ, List, length, IfOk, IfSome, OnErr, IsErr};
ghost use Rattle.layer.specs.Layer.{LayerLists};
ghost use Rattle.layer.specs.Created.{IsGoodCreated};
ghost use Rattle.layer.specs.Update.{IsGoodUpdate};
ghost use Rattle.layer.specs.Constraint.{IsGoodConstraint};
ghost use Rattle.layer.specs.Bias.{IsGoodBias};
ghost use Rattle.askrene_state.specs.LayerSteps.{Outcome, applied, create_channel_outcome, update_outcome, inform_outcome, bias_outcome, disable_outcome, age_outcome};
ghost use Rattle.askrene_state.specs.Replies.{IsReplyAfter};

use askrene_command::{EventReply, Refusal};
use layer::{Bias, Constraint, Created, Layer, Name, Update};
use layer_ops::LayerRefusal;
use plan_base::{NoMemory, NodeId};
use std::alloc::Global;

/// A change of one layer. Each implementation is one row of the table of changes.
pub trait LayerChange {
    // What keeps a layer good.
    ghost good: { Self → Type 0 };

    // The outcome for a layer with this name and these lists.
    ghost outcome: { Self → List ℕ → LayerLists → Outcome };

    /// Changes a layer, or refuses and leaves the layer unchanged. The name is for the refusal.
    fn apply(&self, alloc: Global, name: &Name, layer: &mut Layer) -> Result<EventReply, NoMemory>
        requires { good self.now }
        ensures applied { IfOk result (λ reply. (layer.new, reply) ≡ applied (outcome self.now name.now layer.old) layer.old) }
        ensures err { OnErr result (layer.new ≡ layer.old) };
}

// The reply to the caller of a change. Fails only if the change was refused.
fn reply_after(
    alloc: Global,
    name: &Name,
    done: Result<(), LayerRefusal>,
    reply: EventReply,
) -> Result<EventReply, NoMemory>
    ensures reply { IfOk result (λ told. IsReplyAfter name.now reply done told) }
    ensures err { OnErr result (IsErr done) }
{
    let Err(refusal) = done else {
        return Ok(reply);
    };
    match refusal {
        LayerRefusal::ChannelExists { scid } => {
            let layer = name.copy(alloc)?;
            Ok(EventReply::Refused(Refusal::ChannelExists { layer, scid }))
        }
        LayerRefusal::LayerFull { .. } => {
            let layer = name.copy(alloc)?;
            Ok(EventReply::Refused(Refusal::LayerFull { layer }))
        }
        LayerRefusal::NoMemory => Err(NoMemory),
    }
}

impl LayerChange for Created {
    ghost good = { IsGoodCreated };

    ghost outcome = { create_channel_outcome };

    fn apply(&self, alloc: Global, name: &Name, layer: &mut Layer) -> Result<EventReply, NoMemory> {
        let done = layer_ops::create_channel(layer, *self);
        reply_after(alloc, name, done, EventReply::Done)
    }
}

impl LayerChange for Update {
    ghost good = { IsGoodUpdate };

    ghost outcome = { update_outcome };

    fn apply(&self, alloc: Global, name: &Name, layer: &mut Layer) -> Result<EventReply, NoMemory> {
        let done = layer_ops::update(layer, *self);
        reply_after(alloc, name, done, EventReply::Done)
    }
}

impl LayerChange for Bias {
    ghost good = { IsGoodBias };

    ghost outcome = { bias_outcome };

    fn apply(&self, alloc: Global, name: &Name, layer: &mut Layer) -> Result<EventReply, NoMemory> {
        let done = layer_ops::bias(layer, *self);
        reply_after(alloc, name, done, EventReply::Done)
    }
}

/// A node that a layer disables.
#[derive(Clone, Copy)]
pub struct Disable {
    /// The node.
    pub node: NodeId,
}

impl LayerChange for Disable {
    ghost good = { λ _. Unit {0} };

    ghost outcome = { λ disable. disable_outcome disable.node };

    fn apply(&self, alloc: Global, name: &Name, layer: &mut Layer) -> Result<EventReply, NoMemory> {
        let done = layer_ops::disable(layer, self.node);
        reply_after(alloc, name, done, EventReply::Done)
    }
}

/// A constraint that a layer takes, if a report shows one.
#[derive(Clone, Copy)]
pub struct Learn {
    /// The constraint.
    pub constraint: Option<Constraint>,
}

impl LayerChange for Learn {
    ghost good = { λ learn. IfSome learn.constraint IsGoodConstraint };

    ghost outcome = { λ learn. inform_outcome learn.constraint };

    fn apply(&self, alloc: Global, name: &Name, layer: &mut Layer) -> Result<EventReply, NoMemory> {
        let constraint = self.constraint;
        let Some(learned) = self.constraint else {
            return Ok(EventReply::Informed { constraint });
        };
        let done = layer_ops::inform(layer, learned);
        reply_after(alloc, name, done, EventReply::Informed { constraint })
    }
}

/// A cutoff before which a layer removes its constraints.
#[derive(Clone, Copy)]
pub struct Forget {
    /// A time in Unix seconds.
    pub cutoff: u64,
}

impl LayerChange for Forget {
    ghost good = { λ _. Unit {0} };

    ghost outcome = { λ forget. age_outcome forget.cutoff };

    fn apply(
        &self,
        _alloc: Global,
        _name: &Name,
        layer: &mut Layer,
    ) -> Result<EventReply, NoMemory> {
        let count = layer_ops::age(layer, self.cutoff)?;
        Ok(EventReply::Removed { count })
    }
}
