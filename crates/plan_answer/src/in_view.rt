ghost use Rattle.std.specs.Prelude.{◌≡◌, ℕ, All, IfOk, OnOk, false};
ghost use Rattle.serde_json.specs.Data.{Data, put as with_member};
ghost use Rattle.serde_json.specs.View.{members_view, view as data_of};
ghost use Rattle.serde_json.specs.Written.{has_float};
ghost use Rattle.view_build.specs.View.{ViewParts};
ghost use Rattle.plan_answer.specs.Records.{list_data};
ghost use Rattle.plan_answer.specs.RouteRecords.{cap_data, fault_data, fee_data, indexed_dir_data, indexed_node_data, part_data, round_data};
ghost use Rattle.plan_answer.specs.RouteRecords as spec;
ghost use Rattle.plan_answer.specs.Within.{IsCapOf, IsDirOf, IsFaultOf, IsNodeOf, IsPartOf, IsRoundOf};

use crate::printed::put_value;
use path_split::Part;
use plan_base::NoMemory;
use round_rules::{Cap, Fault, Round};
use serde_json::{Map, Value, json, put};
use std::alloc::Global;
use view_build::View;

/// A value that names directions by their indexes in a view, and is written as one JSON value.
pub(crate) trait InView {
    /// The indexes are the view's.
    ghost is_of: { ViewParts → Self → Type 0 };

    ghost prints: { ViewParts → Self → Data };

    /// The JSON value. Amounts are numbers in msat, directions are strings.
    fn value(&self, alloc: Global, view: &View) -> Result<Value, NoMemory>
        requires { is_of view.now self.now }
        ensures { IfOk result (λ value. data_of value ≡ prints view.now self.now) };
}

/// A list, in the same order.
pub(crate) fn list_value_in<T: InView>(
    alloc: Global,
    view: &View,
    list: &[T],
) -> Result<Value, NoMemory>
    requires { All (T.is_of view.now) list.now }
    ensures { IfOk result (λ value. data_of value ≡ list_data (T.prints view.now) list.now) }
{
    let mut values = Vec::new(alloc);
    for item in list {
        let value = item.value(alloc, view)?;
        values.push(value)?;
    }
    Ok(Value::Array(values))
}

/// Adds a list as a member, in the same order.
fn put_list_in<T: InView>(
    members: &mut Map<String, Value>,
    alloc: Global,
    key: &str,
    view: &View,
    list: &[T],
) -> Result<(), NoMemory>
    requires { All (T.is_of view.now) list.now }
    ensures { OnOk result (members_view members.new.entries ≡ with_member key.now (list_data (T.prints view.now) list.now) (members_view members.old.entries)) }
{
    let value = list_value_in(alloc, view, list)?;
    put(members, alloc, key, value)?;
    Ok(())
}

/// The direction at an index of the view.
#[tactic(auto, unfolding(crate::specs::RouteRecords::indexed_dir_data))]
pub(crate) fn dir_value(alloc: Global, view: &View, index: u32) -> Result<Value, NoMemory>
    requires { IsDirOf view.now index }
    ensures { IfOk result (λ value. data_of value ≡ indexed_dir_data view.now index) }
{
    let text = view.dirs()[index as usize].dir.write(alloc)?;
    Ok(Value::String(text))
}

/// The node at an index of the view.
#[tactic(auto, unfolding(crate::specs::RouteRecords::indexed_node_data))]
pub(crate) fn node_value(alloc: Global, view: &View, index: u32) -> Result<Value, NoMemory>
    requires { IsNodeOf view.now index }
    ensures { IfOk result (λ value. data_of value ≡ indexed_node_data view.now index) }
{
    let text = view.nodes()[index as usize].write(alloc)?;
    Ok(Value::String(text))
}

/// A number, or a text of its digits from 2^64 on.
#[tactic(auto, unfolding(crate::specs::RouteRecords::fee_data))]
pub(crate) fn fee_value(alloc: Global, fee: u128) -> Result<Value, NoMemory>
    ensures value { IfOk result (λ value. data_of value ≡ fee_data fee) }
    ensures whole { IfOk result (λ value. has_float (data_of value) ≡ false) }
{
    match u64::try_from(fee) {
        Ok(number) => Ok(Value::from(number)),
        Err(_) => Ok(Value::String(format!(in alloc; "{fee}")?)),
    }
}

// A direction, by its index.
impl InView for u32 {
    ghost is_of = { IsDirOf };

    ghost prints = { indexed_dir_data };

    fn value(&self, alloc: Global, view: &View) -> Result<Value, NoMemory> {
        dir_value(alloc, view, *self)
    }
}

impl InView for Cap {
    ghost is_of = { IsCapOf };

    ghost prints = { cap_data };

    #[tactic(auto, unfolding(crate::specs::RouteRecords::cap_data))]
    fn value(&self, alloc: Global, view: &View) -> Result<Value, NoMemory> {
        let dir = dir_value(alloc, view, self.dir)?;
        Ok(json!(in alloc; {"cap": self.cap, "short_channel_id_dir": dir, "times": self.times})?)
    }
}

impl InView for Part {
    ghost is_of = { IsPartOf };

    ghost prints = { part_data };

    #[tactic(auto, unfolding(crate::specs::RouteRecords::part_data))]
    fn value(&self, alloc: Global, view: &View) -> Result<Value, NoMemory> {
        let path = list_value_in(alloc, view, self.path.as_slice())?;
        Ok(json!(in alloc; {"path": path, "units": self.units})?)
    }
}

impl InView for Fault {
    ghost is_of = { IsFaultOf };

    ghost prints = { fault_data };

    #[tactic(auto, unfolding(crate::specs::RouteRecords::fault_data))]
    fn value(&self, alloc: Global, view: &View) -> Result<Value, NoMemory> {
        match self {
            Fault::None => bare_fault(alloc, "none"),
            Fault::TooManyParts => bare_fault(alloc, "too_many_parts"),
            Fault::Directions(dirs) => listed_fault(alloc, "directions", view, dirs.as_slice()),
            Fault::Htlc(dirs) => listed_fault(alloc, "htlc", view, dirs.as_slice()),
            Fault::Fee { fee } => fee_fault(alloc, *fee),
            Fault::Delay { part, delay } => delay_fault(alloc, *part, *delay),
            Fault::NoFlow => bare_fault(alloc, "no_flow"),
        }
    }
}

// A fault that has nothing but its kind.
fn bare_fault(alloc: Global, kind: &str) -> Result<Value, NoMemory>
    ensures { IfOk result (λ value. data_of value ≡ spec.bare_fault kind.now) }
{
    Ok(json!(in alloc; {"kind": kind})?)
}

fn fee_fault(alloc: Global, fee: u128) -> Result<Value, NoMemory>
    ensures { IfOk result (λ value. data_of value ≡ spec.fee_fault fee) }
{
    let fee = fee_value(alloc, fee)?;
    Ok(json!(in alloc; {"fee_msat": fee, "kind": "fee"})?)
}

fn delay_fault(alloc: Global, part: u32, delay: u64) -> Result<Value, NoMemory>
    ensures { IfOk result (λ value. data_of value ≡ spec.delay_fault part delay) }
{
    Ok(json!(in alloc; {"delay": delay, "kind": "delay", "part": part})?)
}

// A fault that lists directions.
fn listed_fault(alloc: Global, kind: &str, view: &View, dirs: &[u32]) -> Result<Value, NoMemory>
    requires { All (IsDirOf view.now) dirs.now }
    ensures { IfOk result (λ value. data_of value ≡ spec.listed_fault kind.now view.now dirs.now) }
{
    let dirs = list_value_in(alloc, view, dirs)?;
    Ok(json!(in alloc; {"kind": kind, "short_channel_id_dirs": dirs})?)
}

impl InView for Round {
    ghost is_of = { IsRoundOf };

    ghost prints = { round_data };

    #[tactic(auto, unfolding(crate::specs::RouteRecords::round_data))]
    fn value(&self, alloc: Global, view: &View) -> Result<Value, NoMemory> {
        let mut members = Map::new(alloc);
        put_list_in(&mut members, alloc, "caps", view, self.caps.as_slice())?;
        put_value(&mut members, alloc, "delay_level", &self.delay_level)?;
        put(&mut members, alloc, "fault", self.fault.value(alloc, view)?)?;
        put_value(&mut members, alloc, "fee_level", &self.fee_level)?;
        put_value(&mut members, alloc, "part_max", &self.size)?;
        put_list_in(&mut members, alloc, "parts", view, self.parts.as_slice())?;
        put_value(&mut members, alloc, "unit_msat", &self.unit)?;
        Ok(Value::Object(members))
    }
}
