ghost use Rattle.std.specs.Prelude.{◌≡◌, [], ◌∷◌, codes, length, All, IfSome};
ghost use Rattle.plan_base.specs.Held.{IsGoodReservation};
ghost use Rattle.layer.specs.Ask.{IsGoodAsk};
ghost use Rattle.layer.specs.declared.ask.Asked.TheVariants.{Named};
ghost use Rattle.view_tests.specs.Asks.{AreGoodLayers};

use layer::{Ask, Asked, Auto, Layer, Name, Snapshot};
use plan_base::{Items, NodeId, Reservation};
use std::alloc::Global;

// An ask of 1000 msat.
fn ask(source: &str, destination: &str, layers: Items<Asked>, count: usize) -> Option<Ask>
    requires { AreGoodLayers count layers }
    ensures good { IfSome result IsGoodAsk }
    ensures layers { IfSome result (λ ask. ask.layers ≡ layers) }
{
    let source = NodeId::read(source).ok()?;
    let destination = NodeId::read(destination).ok()?;
    if source == destination {
        return None;
    }
    Some(Ask {
        source,
        destination,
        amount: 1000,
        layers,
        maxfee: 0,
        final_cltv: 18,
        maxdelay: 2016,
        maxparts: 10,
        certificate: false,
    })
}

pub(crate) fn snapshot(
    source: &str,
    destination: &str,
    asked: Items<Asked>,
    layers: Vec<Layer>,
    held: Items<Reservation>,
) -> Option<Snapshot>
    requires asked { AreGoodLayers (length layers.items) asked }
    requires held { All IsGoodReservation held }
{
    let count = layers.len();
    let ask = ask(source, destination, asked, count)?;
    Some(Snapshot::new(ask, Items::from_vec(layers), held))
}

pub(crate) fn no_layer(alloc: Global) -> Items<Asked>
    ensures { AreGoodLayers 0 result }
{
    Items::new(alloc)
}

pub(crate) fn local_layer(alloc: Global) -> Option<Items<Asked>>
    ensures { IfSome result (AreGoodLayers 0) }
{
    let mut asked = Items::new(alloc);
    match asked.push(Asked::Auto(Auto::LocalChans)) {
        Ok(()) => Some(asked),
        Err(_) => None,
    }
}

pub(crate) fn one_layer(alloc: Global) -> Option<Items<Asked>>
    ensures list { IfSome result (λ asked. asked ≡ Named (codes "x") ∷ []) }
    ensures good { IfSome result (AreGoodLayers 1) }
{
    let Ok(name) = Name::read(alloc, "x") else {
        return None;
    };
    let mut asked = Items::new(alloc);
    match asked.push(Asked::Named(name)) {
        Ok(()) => Some(asked),
        Err(_) => None,
    }
}

pub(crate) fn two_layers(alloc: Global) -> Option<Items<Asked>>
    ensures { IfSome result (AreGoodLayers 2) }
{
    let mut asked = one_layer(alloc)?;
    let Ok(name) = Name::read(alloc, "y") else {
        return None;
    };
    match asked.push(Asked::Named(name)) {
        Ok(()) => Some(asked),
        Err(_) => None,
    }
}
