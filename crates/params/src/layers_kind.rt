ghost use Rattle.std.specs.Prelude.{◌≡◌, ◌+◌, ◌≤◌, ◌∷◌, ◌++◌, if◌then◌else◌, [], length, map, All, Some, IfOk, IfSome, OnOk, option_map};
ghost use Rattle.std.specs.List.{IsDistinct};
ghost use Rattle.serde_json.specs.View.{view, items_of, items_view};
ghost use Rattle.layer.specs.Ask.{IsGoodAsked, same_asked};
ghost use Rattle.params.specs.Kinds.{all_asked, asked_of, asked_value, each_once, is_among, layers_value};
ghost use Rattle.params.specs.Printed.{asked_data, asked_text, layers_data};
ghost use Rattle.params.specs.Asked.{AreGoodLayers};

use crate::kind::Kind;
use crate::names;
use layer::{ASKED_MAX, Asked, Auto, Name, NameFault};
use plan_base::{Items, NoMemory};
use serde_json::Value;
use std::alloc::Global;

fn asked_from(alloc: Global, text: &str) -> Result<Option<Asked>, NoMemory>
    ensures value { IfOk result (λ asked. asked ≡ asked_of text.now) }
    ensures good { IfOk result (λ asked. IfSome asked IsGoodAsked) }
{
    match text {
        names::LOCAL_CHANS => Ok(Some(Asked::Auto(Auto::LocalChans))),
        names::SOURCE_FREE => Ok(Some(Asked::Auto(Auto::SourceFree))),
        names::NO_MPP => Ok(Some(Asked::Auto(Auto::NoMpp))),
        _ => match Name::read(alloc, text) {
            Ok(name) => Ok(Some(Asked::Named(name))),
            Err(NameFault::NoMemory) => Err(NoMemory),
            Err(NameFault::Length) | Err(NameFault::Auto) => Ok(None),
        },
    }
}

#[tactic(auto, unfolding(crate::specs::Kinds::asked_value))]
fn read_asked(alloc: Global, value: &Value) -> Result<Option<Asked>, NoMemory>
    ensures value { IfOk result (λ asked. asked ≡ asked_value (view value.now)) }
    ensures good { IfOk result (λ asked. IfSome asked IsGoodAsked) }
{
    match value.as_str() {
        Some(text) => asked_from(alloc, text),
        None => Ok(None),
    }
}

fn is_listed(layers: &[Asked], asked: &Asked) -> bool
    ensures { result ≡ is_among layers.now asked.now }
{
    layers.iter().any(|other| other.is_same(asked))
}

// Adds a layer that is not among those before it.
#[tactic(auto, using(crate::proofs::Asked::distinct_snoc))]
fn push_new(layers: &mut Vec<Asked>, asked: Asked) -> Result<(), NoMemory>
    requires names { All IsGoodAsked layers.old.items }
    requires good { IsGoodAsked asked }
    requires distinct { IsDistinct same_asked layers.old.items }
    ensures new { OnOk result (layers.new.items ≡ (if is_among layers.old.items asked then layers.old.items else layers.old.items ++ asked ∷ [])) }
    ensures few { OnOk result (length layers.new.items ≤ length layers.old.items + 1) }
    ensures names { OnOk result (All IsGoodAsked layers.new.items) }
    ensures distinct { OnOk result (IsDistinct same_asked layers.new.items) }
{
    if !is_listed(layers, &asked) {
        layers.push(asked)?;
    }
    Ok(())
}

// Each layer once, at its first place.
#[tactic(auto, using(crate::proofs::Asked::distinct_none), unfolding(crate::specs::Kinds::all_asked))]
fn read_layers(alloc: Global, values: &[Value]) -> Result<Option<Items<Asked>>, NoMemory>
    ensures value { IfOk result (λ layers. layers ≡ option_map (each_once []) (all_asked (items_view values.now))) }
    ensures few { IfOk result (λ layers. IfSome layers (λ layers. length layers ≤ length values.now)) }
    ensures names { IfOk result (λ layers. IfSome layers (All IsGoodAsked)) }
    ensures distinct { IfOk result (λ layers. IfSome layers (IsDistinct same_asked)) }
{
    let mut layers = Vec::new(alloc);
    for value in values {
        let Some(asked) = read_asked(alloc, value)? else {
            return Ok(None);
        };
        push_new(&mut layers, asked)?;
    }
    Ok(Some(Items::from_vec(layers)))
}

fn text_of(asked: &Asked) -> &str
    ensures text { result.now ≡ asked_text asked.now }
    ensures back { asked_of (asked_text asked.now) ≡ Some asked.now }
{
    match asked {
        Asked::Auto(Auto::LocalChans) => names::LOCAL_CHANS,
        Asked::Auto(Auto::SourceFree) => names::SOURCE_FREE,
        Asked::Auto(Auto::NoMpp) => names::NO_MPP,
        Asked::Named(name) => name.text(),
    }
}

#[tactic(auto, unfolding(crate::specs::Kinds::asked_value))]
fn write_asked(alloc: Global, asked: &Asked) -> Result<Value, NoMemory>
    ensures value { IfOk result (λ value. view value ≡ asked_data asked.now) }
    ensures back { OnOk result (asked_value (asked_data asked.now) ≡ Some asked.now) }
{
    Ok(Value::String(text_of(asked).to_string(alloc)?))
}

#[tactic(auto, unfolding(crate::specs::Kinds::all_asked))]
fn write_layers(alloc: Global, layers: &[Asked]) -> Result<Value, NoMemory>
    ensures value { IfOk result (λ value. view value ≡ layers_data layers.now) }
    ensures back { OnOk result (all_asked (items_of (map asked_data layers.now)) ≡ Some layers.now) }
{
    let mut values = Vec::new(alloc);
    for asked in layers {
        values.push(write_asked(alloc, asked)?)?;
    }
    Ok(Value::Array(values))
}

/// The layers of an ask: an array of at most `ASKED_MAX` texts.
pub struct Layers;

impl Kind for Layers {
    type Good = Items<Asked>;

    ghost reads = { layers_value };

    ghost prints = { layers_data };

    ghost is_good = { AreGoodLayers };

    #[tactic(auto, using(crate::proofs::Values::count_of_items), unfolding(crate::specs::Kinds::layers_value))]
    fn read(alloc: Global, value: &Value) -> Result<Option<Items<Asked>>, NoMemory> {
        match value.as_array() {
            // the count is checked first: reading a long array would allocate
            Some(values) if values.len() <= ASKED_MAX => read_layers(alloc, values),
            _ => Ok(None),
        }
    }

    #[tactic(auto, using(crate::proofs::Asked::layers_back))]
    fn write(alloc: Global, good: &Items<Asked>) -> Result<Value, NoMemory> {
        write_layers(alloc, good.as_slice())
    }
}
