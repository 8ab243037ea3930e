ghost use Rattle.std.specs.Prelude.{◌≡◌, ◌≤◌, ◌<◌, ℕ, length, slice_get, IfOk, IfSome, OnErr, Option, option_map};
ghost use Rattle.indexmap.specs.IndexMap.{values, index_map_len};
ghost use Rattle.layer.specs.Layer.{LayerLists};
ghost use Rattle.askrene_state.specs.Layers.{layer_in};
ghost use Rattle.askrene_state.specs.LayerSteps.{no_layers, create_step, remove_step, list_reply, change_step, applied, constraint_of};
ghost use Rattle.askrene_state.specs.Replies.{changed_at};

use crate::change::LayerChange;
use crate::listing::{list_all, list_one};
use askrene_command::{EventReply, Inform, Refusal};
use indexmap::IndexMap;
use layer::{Bound, Constraint, Layer, Name};
use plan_base::{Dir, Items, NoMemory};
use std::alloc::Global;
use std::marker::Model;

/// The greatest number of layers.
pub const LAYERS_MAX: usize = 1024;

/// The layers, by name, in order of creation. Contracts see a list of names, each with its five lists.
#[derive(Drop)]
pub struct Layers {
    layers: IndexMap<Name, Layer>,
}

impl Model for Layers {
    ghost use Rattle.std.specs.Prelude.{ℕ, List, length, ◌≤◌};
    ghost use Rattle.layer.specs.Layer.{LayerLists};
    ghost use Rattle.askrene_state.specs.declared.layers.TheConstants.{LAYERS_MAX};

    ghost Value = { List (List ℕ × LayerLists) };

    ghost view = { λ s. s.layers.entries };

    ghost invariant = { λ s. length s.layers.entries ≤ LAYERS_MAX };
}

impl Layers {
    /// No layers. Allocates nothing.
    pub fn new(alloc: Global) -> Layers
        ensures { result ≡ no_layers }
    {
        Layers {
            layers: IndexMap::new(alloc),
        }
    }

    /// The layer with this name.
    pub fn layer(&self, name: &Name) -> Option<&Layer>
        ensures { option_map (λ layer. layer.now) result ≡ layer_in self.now name.now }
    {
        self.layers.get(name)
    }

    /// The number of layers.
    pub fn count(&self) -> usize
        ensures count { result ≡ length self.now }
        ensures few { length self.now ≤ LAYERS_MAX }
    {
        self.layers.len()
    }

    /// Appends an empty layer, unless the name exists or the limit is reached.
    pub fn create(&mut self, alloc: Global, layer: &Name) -> Result<EventReply, NoMemory>
        ensures step { IfOk result (λ reply. (self.new, reply) ≡ create_step self.old layer.now) }
        ensures err { OnErr result (self.new ≡ self.old) }
    {
        let name = layer.copy(alloc)?;
        if self.layers.contains_key(layer) {
            return Ok(EventReply::Refused(Refusal::LayerExists { layer: name }));
        }
        let count = self.layers.len();
        if count >= LAYERS_MAX {
            return Ok(EventReply::Refused(Refusal::LayersFull { count }));
        }
        self.layers.insert(name, Layer::new(alloc))?;
        Ok(EventReply::Done)
    }

    /// Removes the layer with this name and its contents; the others keep their order.
    pub fn remove(&mut self, alloc: Global, layer: &Name) -> Result<EventReply, NoMemory>
        ensures step { IfOk result (λ reply. (self.new, reply) ≡ remove_step self.old layer.now) }
        ensures err { OnErr result (self.new ≡ self.old) }
    {
        match self.layers.shift_remove(layer) {
            Some(_) => Ok(EventReply::Done),
            None => {
                let layer = layer.copy(alloc)?;
                Ok(EventReply::Refused(Refusal::LayerUnknown { layer }))
            }
        }
    }

    /// Copies of all layers, or of the one with this name.
    pub fn list(&self, alloc: Global, layer: &Option<Name>) -> Result<EventReply, NoMemory>
        ensures { IfOk result (λ reply. reply ≡ list_reply self.now layer.now) }
    {
        let Some(name) = layer else {
            let layers = list_all(alloc, &self.layers)?;
            return Ok(EventReply::Layers(layers));
        };
        let Some(layer) = self.layers.get(name) else {
            let layer = name.copy(alloc)?;
            return Ok(EventReply::Refused(Refusal::LayerUnknown { layer }));
        };
        let listed = list_one(alloc, name, layer)?;
        let mut layers = Items::new(alloc);
        layers.push(listed)?;
        Ok(EventReply::Layers(layers))
    }

    /// Changes the layer with this name, unless the name is unknown or the layer refuses the change.
    pub fn change<C: LayerChange>(
        &mut self,
        alloc: Global,
        name: &Name,
        change: &C,
    ) -> Result<EventReply, NoMemory>
        requires { C.good change.now }
        ensures step { IfOk result (λ reply. (self.new, reply) ≡ change_step self.old name.now (C.outcome change.now name.now)) }
        ensures err { OnErr result (self.new ≡ self.old) }
    {
        let Some(place) = self.layers.get_index_of(name) else {
            let layer = name.copy(alloc)?;
            return Ok(EventReply::Refused(Refusal::LayerUnknown { layer }));
        };
        change_at(alloc, &mut self.layers, place, name, change)
    }
}

// Changes the layer at a position, which has this name.
#[tactic(auto, using(crate::proofs::Entries::keep_at, crate::proofs::Entries::length_at))]
fn change_at<C: LayerChange>(
    alloc: Global,
    layers: &mut IndexMap<Name, Layer>,
    place: usize,
    name: &Name,
    change: &C,
) -> Result<EventReply, NoMemory>
    requires within { place < index_map_len layers.old }
    requires good { C.good change.now }
    ensures step { IfOk result (λ reply. IfSome (slice_get (values layers.old) place) (λ lists.
        (layers.new.entries, reply) ≡ changed_at layers.old.entries place (applied (C.outcome change.now name.now lists) lists))) }
    ensures err { OnErr result (layers.new.entries ≡ layers.old.entries) }
    ensures len { length layers.new.entries ≡ length layers.old.entries }
{
    let Some(layer) = layers.get_index_mut(place) else {
        unreachable!()
    };
    change.apply(alloc, name, layer)
}

/// The constraint that an amount shows for a direction at a moment, if any.
pub fn constraint_learned(dir: Dir, amount: u64, moment: u64, kind: Inform) -> Option<Constraint>
    ensures { result ≡ constraint_of dir amount moment kind }
{
    match kind {
        Inform::Constrained => Some(Constraint {
            dir,
            bound: Bound::Max,
            amount: amount.saturating_sub(1),
            moment,
        }),
        Inform::Unconstrained => Some(Constraint {
            dir,
            bound: Bound::Min,
            amount,
            moment,
        }),
        Inform::Succeeded => None,
    }
}
