ghost use Rattle.std.specs.Prelude.{◌≡◌, length, IfOk};
ghost use Rattle.layer.specs.Ask.{asks_for, named_layers};
ghost use Rattle.layer.specs.declared.ask.Auto.TheVariants.{SourceFree, NoMpp};
ghost use Rattle.auto_layers.specs.LocalLayer.{local_lists};
ghost use Rattle.auto_layers.specs.Expanded.{expanded_layers};

use crate::local_layer;
use channel_map::Local;
use layer::{Asked, Auto, Layer, Snapshot};
use plan_base::{Items, NoMemory};
use std::alloc::Global;

/// The layers of an ask, in its order, with the automatic ones.
#[derive(Debug, Drop)]
pub struct Expanded {
    /// The layers, with the local layer at its place.
    pub layers: Items<Layer>,
    /// Whether directions that leave the source are free.
    pub source_free: bool,
    /// Whether one part alone is allowed.
    pub single: bool,
}

/// Expands the automatic layers of a snapshot's ask.
pub fn expand(alloc: Global, snapshot: &Snapshot, local: &Local) -> Result<Expanded, NoMemory>
    ensures layers { IfOk result (λ expanded. expanded.layers ≡ expanded_layers (local_lists local.now) snapshot.now.ask.layers snapshot.now.layers) }
    ensures source_free { IfOk result (λ expanded. expanded.source_free ≡ asks_for SourceFree snapshot.now.ask.layers) }
    ensures single { IfOk result (λ expanded. expanded.single ≡ asks_for NoMpp snapshot.now.ask.layers) }
{
    let ask = snapshot.ask();
    Ok(Expanded {
        layers: expand_layers(alloc, ask.layers.as_slice(), snapshot.layers(), local)?,
        source_free: ask.asks_for(Auto::SourceFree),
        single: ask.asks_for(Auto::NoMpp),
    })
}

fn expand_layers(
    alloc: Global,
    asked: &[Asked],
    named: &[Layer],
    local: &Local,
) -> Result<Items<Layer>, NoMemory>
    requires { length named.now ≡ length (named_layers asked.now) }
    ensures { IfOk result (λ layers. layers ≡ expanded_layers (local_lists local.now) asked.now named.now) }
{
    let mut layers = Vec::new(alloc);
    let mut next = 0;
    for asked in asked {
        match asked {
            Asked::Auto(Auto::LocalChans) => layers.push(local_layer(alloc, local)?)?,
            Asked::Auto(Auto::SourceFree | Auto::NoMpp) => {}
            Asked::Named(_) => {
                layers.push(named[next].copy()?)?;
                next += 1;
            }
        }
    }
    Ok(Items::from_vec(layers))
}
