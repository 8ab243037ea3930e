ghost use Rattle.std.specs.Prelude.{◌≡◌, length, All};
ghost use Rattle.plan_base.specs.Held.{IsGoodReservation};
ghost use Rattle.layer.specs.Ask.{IsGoodAsk, named_layers};

use crate::{Ask, Layer};
use plan_base::{Items, Reservation};
use std::marker::Model;

/// What an answer to an ask is computed from: the layers that the ask names, in its order, and all reservations, both as
/// they stood at one moment.
#[derive(Debug, Drop)]
pub struct Snapshot {
    ask: Ask,
    layers: Items<Layer>,
    held: Items<Reservation>,
}

impl Model for Snapshot {
    ghost use Rattle.layer.specs.Snapshot.{SnapshotParts, IsGoodSnapshot};

    ghost Value = { SnapshotParts };

    ghost view = { λ s. record { ask = s.ask; layers = s.layers; held = s.held } };

    ghost invariant = { λ s. IsGoodSnapshot (record { ask = s.ask; layers = s.layers; held = s.held }) };
}

impl Snapshot {
    /// A snapshot of these parts. Takes no memory.
    pub fn new(ask: Ask, layers: Items<Layer>, held: Items<Reservation>) -> Snapshot
        requires ask { IsGoodAsk ask }
        requires layers { length layers ≡ length (named_layers ask.layers) }
        requires held { All IsGoodReservation held }
        ensures ask { result.ask ≡ ask }
        ensures layers { result.layers ≡ layers }
        ensures held { result.held ≡ held }
    {
        Snapshot { ask, layers, held }
    }

    /// The ask.
    pub fn ask(&self) -> &Ask
        ensures value { result.now ≡ self.now.ask }
        ensures good { IsGoodAsk self.now.ask }
    {
        &self.ask
    }

    /// The layers that the ask names, in its order.
    pub fn layers(&self) -> &[Layer]
        ensures list { result.now ≡ self.now.layers }
        ensures one_each { length self.now.layers ≡ length (named_layers self.now.ask.layers) }
    {
        self.layers.as_slice()
    }

    /// All reservations, oldest first.
    pub fn held(&self) -> &[Reservation]
        ensures list { result.now ≡ self.now.held }
        ensures good { All IsGoodReservation self.now.held }
    {
        self.held.as_slice()
    }
}
