ghost use Rattle.std.specs.Prelude.{◌≡◌, ◌++◌, [], ◌∷◌, All, IfOk, OnOk, cond, length, map, zip};
ghost use Rattle.serde_json.specs.View.{view as data_of};
ghost use Rattle.plan_answer.specs.Records.{list_data};
ghost use Rattle.plan_answer.specs.RouteRecords.{hop_data, indexed_node_data, route_data};
ghost use Rattle.plan_answer.specs.RoutesReply.{nodes_on};
ghost use Rattle.plan_answer.specs.Within.{IsDirOf, IsNodeOf, IsRouteOf};

use crate::in_view::{dir_value, node_value};
use crate::printed::put_value;
use fee_backward::Hop;
use layer::Ask;
use plan_base::NoMemory;
use round_rules::Route;
use serde_json::{Map, Value, json, put};
use std::alloc::Global;
use view_build::View;

/// Routes in the same order.
pub(crate) fn route_list(
    alloc: Global,
    view: &View,
    ask: &Ask,
    routes: &[Route],
) -> Result<Value, NoMemory>
    requires { All (IsRouteOf view.now) routes.now }
    ensures { IfOk result (λ value. data_of value ≡ list_data (route_data view.now ask.now) routes.now) }
{
    let mut values = Vec::new(alloc);
    for route in routes {
        let value = route_value(alloc, view, ask, route)?;
        values.push(value)?;
    }
    Ok(Value::Array(values))
}

#[tactic(auto, unfolding(crate::specs::RouteRecords::route_data))]
fn route_value(alloc: Global, view: &View, ask: &Ask, route: &Route) -> Result<Value, NoMemory>
    requires { IsRouteOf view.now route.now }
    ensures { IfOk result (λ value. data_of value ≡ route_data view.now ask.now route.now) }
{
    let path = hop_list(alloc, view, route.path.as_slice(), route.hops.as_slice())?;
    Ok(
        json!(in alloc; {"amount_msat": route.delivered, "final_cltv": ask.final_cltv, "path": path})?,
    )
}

// The directions of a path with the hops over them.
fn hop_list(alloc: Global, view: &View, path: &[u32], hops: &[Hop]) -> Result<Value, NoMemory>
    requires path { All (IsDirOf view.now) path.now }
    requires hops { length hops.now ≡ length path.now }
    ensures { IfOk result (λ value. data_of value ≡ list_data (hop_data view.now) (zip path.now hops.now)) }
{
    let mut values = Vec::new(alloc);
    for i in 0..path.len() {
        let value = hop_value(alloc, view, path[i], hops[i])?;
        values.push(value)?;
    }
    Ok(Value::Array(values))
}

#[tactic(auto, unfolding(crate::specs::RouteRecords::hop_data))]
fn hop_value(alloc: Global, view: &View, index: u32, hop: Hop) -> Result<Value, NoMemory>
    requires { IsDirOf view.now index }
    ensures { IfOk result (λ value. data_of value ≡ hop_data view.now (index, hop)) }
{
    let next = node_value(alloc, view, view.dirs()[index as usize].to)?;
    let mut members = Map::new(alloc);
    put_value(&mut members, alloc, "amount_msat", &hop.amount)?;
    put_value(&mut members, alloc, "carried_msat", &hop.carried)?;
    put_value(&mut members, alloc, "delay", &hop.delay)?;
    put(&mut members, alloc, "next_node_id", next)?;
    put(
        &mut members,
        alloc,
        "short_channel_id_dir",
        dir_value(alloc, view, index)?,
    )?;
    Ok(Value::Object(members))
}

/// The ids of the nodes on a side, ascending.
pub(crate) fn cut_value(alloc: Global, view: &View, side: &[bool]) -> Result<Value, NoMemory>
    requires { length side.now ≡ length view.now.nodes }
    ensures { IfOk result (λ value. data_of value ≡ list_data (indexed_node_data view.now) (nodes_on view.now side.now)) }
{
    let mut values = Vec::new(alloc);
    for i in 0..view.nodes().len() {
        push_node_if(&mut values, alloc, view, side[i], i as u32)?;
    }
    Ok(Value::Array(values))
}

// Appends the node at an index of the view if it is on the side.
fn push_node_if(
    values: &mut Vec<Value>,
    alloc: Global,
    view: &View,
    on: bool,
    index: u32,
) -> Result<(), NoMemory>
    requires { IsNodeOf view.now index }
    ensures { OnOk result (map data_of values.new.items ≡ map data_of values.old.items ++ cond on (indexed_node_data view.now index ∷ []) []) }
{
    if on {
        let value = node_value(alloc, view, index)?;
        values.push(value)?;
    }
    Ok(())
}
