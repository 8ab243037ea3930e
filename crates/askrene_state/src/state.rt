ghost use Rattle.std.specs.Prelude.{◌≡◌, ◌≤◌, length, option_map};
ghost use Rattle.layer.specs.Layer.{LayerLists};
ghost use Rattle.reservations.specs.Reservations.{IsGoodList};
ghost use Rattle.askrene_command.specs.Command.{IsGoodCommand};
ghost use Rattle.askrene_state.specs.Layers.{layer_in};
ghost use Rattle.askrene_state.specs.Step.{Service, no_service, next_of, reply_of};
ghost use Rattle.askrene_state.specs.declared.layers.TheConstants.{LAYERS_MAX};

use crate::change::{Disable, Forget, Learn};
use crate::layers::{Layers, constraint_learned};
use crate::reserving;
use crate::routing::routes;
use askrene_command::{Command, EventReply};
use layer::{Layer, Name};
use one_history::Object;
use plan_base::{NoMemory, Reservation};
use reservations::Reservations;
use std::alloc::Global;
use std::marker::Model;

/// The layers, by name, in order of creation, and the reservations, in the order in which they were made. Contracts see both
/// lists.
#[derive(Drop)]
pub struct State {
    layers: Layers,
    reservations: Reservations,
}

impl Model for State {
    ghost use Rattle.askrene_state.specs.Step.{Service};

    ghost Value = { Service };

    ghost view = { λ s. record { layers = s.layers; reservations = s.reservations } };
}

impl State {
    /// The layer with this name.
    pub fn layer(&self, name: &Name) -> Option<&Layer>
        ensures { option_map (λ layer. layer.now) result ≡ layer_in self.now.layers name.now }
    {
        self.layers.layer(name)
    }

    /// The number of layers.
    pub fn layers(&self) -> usize
        ensures count { result ≡ length self.now.layers }
        ensures few { length self.now.layers ≤ LAYERS_MAX }
        ensures limit { LAYERS_MAX ≡ 1024 }
    {
        self.layers.count()
    }

    /// All reservations, in the order in which they were made.
    pub fn held(&self) -> &[Reservation]
        ensures list { result.now ≡ self.now.reservations }
        ensures good { IsGoodList self.now.reservations }
    {
        self.reservations.list()
    }
}

impl Object for State {
    type Command = Command;

    type Reply = EventReply;

    ghost start = { no_service };

    ghost good = { IsGoodCommand };

    ghost next = { next_of };

    ghost reply = { reply_of };

    fn fresh(alloc: Global) -> Result<Self, NoMemory> {
        Ok(State {
            layers: Layers::new(alloc),
            reservations: Reservations::new(alloc),
        })
    }

    fn step(
        &mut self,
        alloc: Global,
        caller: u32,
        moment: u64,
        command: &Command,
    ) -> Result<EventReply, NoMemory> {
        match command {
            Command::CreateLayer { layer } => self.layers.create(alloc, layer),
            Command::RemoveLayer { layer } => self.layers.remove(alloc, layer),
            Command::ListLayers { layer } => self.layers.list(alloc, layer),
            Command::CreateChannel { layer, channel } => self.layers.change(alloc, layer, channel),
            Command::UpdateChannel { layer, change } => self.layers.change(alloc, layer, change),
            Command::InformChannel {
                layer,
                dir,
                amount,
                kind,
            } => {
                let constraint = constraint_learned(*dir, *amount, moment, *kind);
                self.layers.change(alloc, layer, &Learn { constraint })
            }
            Command::BiasChannel { layer, bias } => self.layers.change(alloc, layer, bias),
            Command::DisableNode { layer, node } => {
                self.layers.change(alloc, layer, &Disable { node: *node })
            }
            Command::Age { layer, cutoff } => {
                self.layers
                    .change(alloc, layer, &Forget { cutoff: *cutoff })
            }
            Command::Reserve { path } => {
                reserving::reserve(&mut self.reservations, caller, moment, path.as_slice())
            }
            Command::Unreserve { path } => {
                Ok(reserving::unreserve(&mut self.reservations, path.as_slice()))
            }
            Command::ListReservations => reserving::list(alloc, &self.reservations, moment),
            Command::GetRoutes(ask) => routes(alloc, &self.layers, &self.reservations, ask),
        }
    }
}
