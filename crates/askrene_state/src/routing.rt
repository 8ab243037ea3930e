ghost use Rattle.std.specs.Prelude.{◌≡◌, IfOk};
ghost use Rattle.layer.specs.Ask.{IsGoodAsk, named_layers};
ghost use Rattle.askrene_state.specs.RoutesStep.{asked_layers, routes_reply};
ghost use Rattle.askrene_state.specs.Replies.{is_found};

use crate::layers::Layers;
use askrene_command::{EventReply, Refusal};
use layer::{Ask, Asked, Layer, Name, Snapshot};
use plan_base::{Items, NoMemory};
use reservations::Reservations;
use std::alloc::Global;

// The layers that an ask names, or the first name that no layer has.
#[derive(Drop)]
enum Found {
    Layers(Vec<Layer>),
    Missing(Name),
}

// Copies of the named layers, in order.
fn find_layers(alloc: Global, layers: &Layers, asked: &[Asked]) -> Result<Found, NoMemory>
    ensures { IfOk result (λ found. is_found found ≡ asked_layers layers.now (named_layers asked.now)) }
{
    let mut found = Vec::new(alloc);
    for i in 0..asked.len() {
        let Asked::Named(name) = &asked[i] else {
            continue;
        };
        let Some(layer) = layers.layer(name) else {
            return Ok(Found::Missing(name.copy(alloc)?));
        };
        found.push(layer.copy()?)?;
    }
    Ok(Found::Layers(found))
}

/// The snapshot for an ask, unless a layer that it names is unknown. No list of a layer is copied.
pub fn routes(
    alloc: Global,
    layers: &Layers,
    reservations: &Reservations,
    ask: &Ask,
) -> Result<EventReply, NoMemory>
    requires { IsGoodAsk ask.now }
    ensures { IfOk result (λ reply. reply ≡ routes_reply layers.now reservations.now ask.now) }
{
    let found = match find_layers(alloc, layers, ask.layers.as_slice())? {
        Found::Layers(found) => found,
        Found::Missing(layer) => return Ok(EventReply::Refused(Refusal::LayerUnknown { layer })),
    };
    let mut held = Vec::new(alloc);
    held.extend_from_slice(reservations.list())?;
    let ask = ask.copy(alloc)?;
    let snapshot = Snapshot::new(ask, Items::from_vec(found), Items::from_vec(held));
    Ok(EventReply::Routes(snapshot))
}
