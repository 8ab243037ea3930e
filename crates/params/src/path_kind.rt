ghost use Rattle.std.specs.Prelude.{◌≡◌, length, map, All, Some, IfOk, IfSome, OnOk};
ghost use Rattle.serde_json.specs.View.{view, items_of, items_view};
ghost use Rattle.plan_base.specs.Held.{IsGoodHeld};
ghost use Rattle.askrene_command.specs.Command.{IsGoodPath};
ghost use Rattle.params.specs.Kinds as spec;
ghost use Rattle.params.specs.Kinds.{held_value, helds_of, path_value};
ghost use Rattle.params.specs.Printed.{held_data, path_data};

use crate::kind::Kind;
use crate::number_kinds::{Amount, read_amount};
use crate::text_kinds::{Direction, read_dir};
use askrene_command::PATH_MAX;
use plan_base::{Held, Items, NoMemory};
use serde_json::{Value, json};
use std::alloc::Global;

#[tactic(auto, unfolding(crate::specs::Kinds::held_value))]
fn read_held(value: &Value) -> Option<Held>
    ensures value { result ≡ held_value (view value.now) }
    ensures amount { IfSome result IsGoodHeld }
{
    let dir = read_dir(value.get("short_channel_id_dir")?)?;
    let amount = read_amount(value.get("amount_msat")?)?;
    Some(Held { dir, amount })
}

#[tactic(auto, unfolding(crate::specs::Kinds::helds_of))]
fn read_helds(alloc: Global, values: &[Value]) -> Result<Option<Items<Held>>, NoMemory>
    ensures value { IfOk result (λ path. path ≡ helds_of (items_view values.now)) }
    ensures length { IfOk result (λ path. IfSome path (λ path. length path ≡ length values.now)) }
    ensures amounts { IfOk result (λ path. IfSome path (All IsGoodHeld)) }
{
    let mut path = Items::new(alloc);
    for value in values {
        let Some(held) = read_held(value) else {
            return Ok(None);
        };
        path.push(held)?;
    }
    Ok(Some(path))
}

fn is_path_length(count: usize) -> bool
    ensures { result ≡ spec.is_path_length count }
{
    1 <= count && count <= PATH_MAX
}

#[tactic(auto, unfolding(crate::specs::Kinds::held_value))]
fn write_held(alloc: Global, held: &Held) -> Result<Value, NoMemory>
    requires { IsGoodHeld held.now }
    ensures value { IfOk result (λ value. view value ≡ held_data held.now) }
    ensures back { OnOk result (held_value (held_data held.now) ≡ Some held.now) }
{
    let dir = Direction::write(alloc, &held.dir)?;
    let amount = Amount::write(alloc, &held.amount)?;
    Ok(json!(in alloc; {"amount_msat": amount, "short_channel_id_dir": dir})?)
}

#[tactic(auto, unfolding(crate::specs::Kinds::helds_of))]
fn write_helds(alloc: Global, path: &[Held]) -> Result<Value, NoMemory>
    requires { All IsGoodHeld path.now }
    ensures value { IfOk result (λ value. view value ≡ path_data path.now) }
    ensures back { OnOk result (helds_of (items_of (map held_data path.now)) ≡ Some path.now) }
{
    let mut values = Vec::new(alloc);
    for held in path {
        values.push(write_held(alloc, held)?)?;
    }
    Ok(Value::Array(values))
}

/// The items that one command reserves or unreserves: an array of 1 to `PATH_MAX` objects.
pub struct Path;

impl Kind for Path {
    type Good = Items<Held>;

    ghost reads = { path_value };

    ghost prints = { path_data };

    ghost is_good = { IsGoodPath };

    #[tactic(auto, using(crate::proofs::Values::count_of_items), unfolding(crate::specs::Kinds::path_value))]
    fn read(alloc: Global, value: &Value) -> Result<Option<Items<Held>>, NoMemory> {
        match value.as_array() {
            // the count is checked first: reading a long array would allocate
            Some(values) if is_path_length(values.len()) => read_helds(alloc, values),
            _ => Ok(None),
        }
    }

    #[tactic(auto, using(crate::proofs::Paths::path_back))]
    fn write(alloc: Global, good: &Items<Held>) -> Result<Value, NoMemory> {
        write_helds(alloc, good.as_slice())
    }
}
