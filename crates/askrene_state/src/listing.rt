ghost use Rattle.std.specs.Prelude.{◌≡◌, IfOk, map};
ghost use Rattle.layer.specs.Layer.{LayerLists};
ghost use Rattle.askrene_state.specs.LayerSteps.{listed_of};

use askrene_command::Listed;
use indexmap::IndexMap;
use layer::{Layer, Name};
use plan_base::{Items, NoMemory};
use std::alloc::Global;

/// Copies of all layers, in order of creation.
pub fn list_all(alloc: Global, layers: &IndexMap<Name, Layer>) -> Result<Items<Listed>, NoMemory>
    ensures { IfOk result (λ list. list ≡ map listed_of layers.now.entries) }
{
    let mut list = Items::new(alloc);
    for place in 0..layers.len() {
        let Some((name, layer)) = layers.get_index(place) else {
            unreachable!()
        };
        let listed = list_one(alloc, name, layer)?;
        list.push(listed)?;
    }
    Ok(list)
}

/// A copy of one layer with its name.
pub fn list_one(alloc: Global, name: &Name, layer: &Layer) -> Result<Listed, NoMemory>
    ensures { IfOk result (λ listed. listed ≡ listed_of (name.now, layer.now)) }
{
    let name = name.copy(alloc)?;
    let layer = layer.copy()?;
    Ok(Listed { name, layer })
}
