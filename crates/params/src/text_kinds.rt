ghost use Rattle.std.specs.Prelude.{◌≡◌, Some, true};
ghost use Rattle.serde_json.specs.Data.{string};
ghost use Rattle.serde_json.specs.View.{view};
ghost use Rattle.layer.specs.Name.{is_good_name};
ghost use Rattle.params.specs.Kinds.{name_value, node_value, dir_value, inform_of, inform_value, scid_value};
ghost use Rattle.rpc_lines.specs.Json.{node_data, dir_data, scid_data};
ghost use Rattle.params.specs.Printed.{inform_word, inform_data};

use crate::kind::Kind;
use askrene_command::Inform;
use layer::{Name, NameFault};
use plan_base::{Dir, NoMemory, NodeId, Scid};
use serde_json::Value;
use std::alloc::Global;

/// The name of a layer.
pub struct LayerName;

impl Kind for LayerName {
    type Good = Name;

    ghost reads = { name_value };

    ghost prints = { string };

    ghost is_good = { λ name. is_good_name name ≡ true };

    #[tactic(auto, unfolding(crate::specs::Kinds::name_value))]
    fn read(alloc: Global, value: &Value) -> Result<Option<Name>, NoMemory> {
        let Some(text) = value.as_str() else {
            return Ok(None);
        };
        match Name::read(alloc, text) {
            Ok(name) => Ok(Some(name)),
            Err(NameFault::NoMemory) => Err(NoMemory),
            Err(NameFault::Length) | Err(NameFault::Auto) => Ok(None),
        }
    }

    #[tactic(auto, unfolding(crate::specs::Kinds::name_value))]
    fn write(alloc: Global, good: &Name) -> Result<Value, NoMemory> {
        Ok(Value::String(good.text().to_string(alloc)?))
    }
}

/// A node, by the text of its id.
pub struct Node;

impl Kind for Node {
    type Good = NodeId;

    ghost reads = { node_value };

    ghost prints = { node_data };

    ghost is_good = { λ _. Unit {0} };

    #[tactic(auto, unfolding(crate::specs::Kinds::node_value))]
    fn read(_alloc: Global, value: &Value) -> Result<Option<NodeId>, NoMemory> {
        match value.as_str() {
            Some(text) => Ok(NodeId::read(text).ok()),
            None => Ok(None),
        }
    }

    #[tactic(auto, unfolding(crate::specs::Kinds::node_value))]
    fn write(alloc: Global, good: &NodeId) -> Result<Value, NoMemory> {
        Ok(Value::String(good.write(alloc)?))
    }
}

/// A channel, by the text of its id.
pub struct ChannelId;

impl Kind for ChannelId {
    type Good = Scid;

    ghost reads = { scid_value };

    ghost prints = { scid_data };

    ghost is_good = { λ _. Unit {0} };

    #[tactic(auto, unfolding(crate::specs::Kinds::scid_value))]
    fn read(_alloc: Global, value: &Value) -> Result<Option<Scid>, NoMemory> {
        match value.as_str() {
            Some(text) => Ok(Scid::read(text).ok()),
            None => Ok(None),
        }
    }

    #[tactic(auto, unfolding(crate::specs::Kinds::scid_value))]
    fn write(alloc: Global, good: &Scid) -> Result<Value, NoMemory> {
        Ok(Value::String(good.write(alloc)?))
    }
}

/// Reads a direction, given as a text.
#[tactic(auto, unfolding(crate::specs::Kinds::dir_value))]
pub fn read_dir(value: &Value) -> Option<Dir>
    ensures { result ≡ dir_value (view value.now) }
{
    Dir::read(value.as_str()?).ok()
}

/// A direction of a channel, by its text.
pub struct Direction;

impl Kind for Direction {
    type Good = Dir;

    ghost reads = { dir_value };

    ghost prints = { dir_data };

    ghost is_good = { λ _. Unit {0} };

    fn read(_alloc: Global, value: &Value) -> Result<Option<Dir>, NoMemory> {
        Ok(read_dir(value))
    }

    #[tactic(auto, unfolding(crate::specs::Kinds::dir_value))]
    fn write(alloc: Global, good: &Dir) -> Result<Value, NoMemory> {
        Ok(Value::String(good.write(alloc)?))
    }
}

fn inform_from(text: &str) -> Option<Inform>
    ensures { result ≡ inform_of text.now }
{
    match text {
        "constrained" => Some(Inform::Constrained),
        "unconstrained" => Some(Inform::Unconstrained),
        "succeeded" => Some(Inform::Succeeded),
        _ => None,
    }
}

fn inform_text(kind: Inform) -> &'static str
    ensures word { result.now ≡ inform_word kind }
    ensures back { inform_of (inform_word kind) ≡ Some kind }
{
    match kind {
        Inform::Constrained => "constrained",
        Inform::Unconstrained => "unconstrained",
        Inform::Succeeded => "succeeded",
    }
}

/// What a payment showed about a direction.
pub struct Learnt;

impl Kind for Learnt {
    type Good = Inform;

    ghost reads = { inform_value };

    ghost prints = { inform_data };

    ghost is_good = { λ _. Unit {0} };

    #[tactic(auto, unfolding(crate::specs::Kinds::inform_value))]
    fn read(_alloc: Global, value: &Value) -> Result<Option<Inform>, NoMemory> {
        match value.as_str() {
            Some(text) => Ok(inform_from(text)),
            None => Ok(None),
        }
    }

    #[tactic(auto, unfolding(crate::specs::Kinds::inform_value))]
    fn write(alloc: Global, good: &Inform) -> Result<Value, NoMemory> {
        Ok(Value::String(inform_text(*good).to_string(alloc)?))
    }
}
