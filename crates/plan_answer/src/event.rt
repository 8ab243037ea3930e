ghost use Rattle.std.specs.Prelude.{◌≡◌, Some, false, codes, IfOk};
ghost use Rattle.serde_json.specs.Data.{no_members, member};
ghost use Rattle.serde_json.specs.View.{view};
ghost use Rattle.serde_json.specs.Written.{has_float};
ghost use Rattle.rpc_lines.specs.Reply.{with_result};
ghost use Rattle.plan_answer.specs.Records.{list_data, constraint_data, reservation_data};
ghost use Rattle.askrene_command.specs.Reply.{is_routes};
ghost use Rattle.plan_answer.specs.Order.{IsBelow};
ghost use Rattle.plan_answer.specs.EventReply.{at_place, channel_error, layer_error, number_error, constraint_list, listed_data, refusal_content, event_content};

use crate::printed::list_value;
use crate::records::reservation_list;
use askrene_command::{EventReply, Listed, Refusal};
use layer::{Constraint, Name};
use plan_base::{NoMemory, Reservation, Scid};
use rpc_lines::Body;
use serde_json::{Value, json};
use std::alloc::Global;

/// The body of the reply to the entry at a position of the history.
///
/// A result has `at`, and `num_removed`, `constraints`, `layers` or `reservations` if the reply has them. A refusal is an
/// error with `at` and one more key: `layer` for 301 `layer exists`, 302 `unknown layer` and 304 `layer full`, `layer` and
/// `short_channel_id` for 303 `channel exists`, `count` for 304 `too many layers`, the `index` of the item for 305 `not reserved`, and `length`, the number of reservations held,
/// for 307 `too many reservations`.
#[tactic(auto, unfolding(crate::specs::EventReply::event_content))]
pub fn event_body(alloc: Global, at: u64, reply: &EventReply) -> Result<Body, NoMemory>
    requires { is_routes reply.now ≡ false }
    ensures { IfOk result (λ body. Some body ≡ event_content at reply.now) }
{
    match reply {
        EventReply::Done => Ok(Body::place(at)),
        EventReply::Removed { count } => result_with(alloc, at, "num_removed", Value::from(*count)),
        EventReply::Informed { constraint } => informed(alloc, at, constraint),
        EventReply::Layers(layers) => listed(alloc, at, layers.as_slice()),
        EventReply::Reservations { now, list } => reservations(alloc, at, *now, list.as_slice()),
        EventReply::Routes(_) => unreachable!(),
        EventReply::Refused(refusal) => refused(alloc, at, refusal),
    }
}

#[tactic(auto, unfolding(crate::specs::EventReply::refusal_content))]
fn refused(alloc: Global, at: u64, refusal: &Refusal) -> Result<Body, NoMemory>
    ensures { IfOk result (λ body. body ≡ refusal_content at refusal.now) }
{
    match refusal {
        Refusal::LayerExists { layer } => layer_body(alloc, 301, "layer exists", at, layer),
        Refusal::LayerUnknown { layer } => layer_body(alloc, 302, "unknown layer", at, layer),
        Refusal::LayersFull { count } => {
            number_body(alloc, 304, "too many layers", at, "count", *count)
        }
        Refusal::ChannelExists { layer, scid } => channel_body(alloc, at, layer, scid),
        Refusal::LayerFull { layer } => layer_body(alloc, 304, "layer full", at, layer),
        Refusal::NotReserved { index } => {
            number_body(alloc, 305, "not reserved", at, "index", *index)
        }
        Refusal::ReservationsFull { length } => {
            number_body(alloc, 307, "too many reservations", at, "length", *length)
        }
    }
}

fn object_with(alloc: Global, at: u64, key: &str, value: Value) -> Result<Value, NoMemory>
    requires { IsBelow (codes "at") key.now }
    ensures { IfOk result
        (λ object. view object ≡ at_place at (member key.now (view value) no_members)) }
{
    Ok(json!(in alloc; {"at": at, key: value})?)
}

// A result with one value, whose key comes after `at`.
fn result_with(alloc: Global, at: u64, key: &str, value: Value) -> Result<Body, NoMemory>
    requires key { IsBelow (codes "at") key.now }
    requires value { has_float (view value) ≡ false }
    ensures { IfOk result
        (λ body. body ≡ with_result (at_place at (member key.now (view value) no_members))) }
{
    let object = object_with(alloc, at, key, value)?;
    Ok(Body::result(object))
}

#[tactic(auto, using(crate::proofs::Floats::constraints_none))]
fn informed(alloc: Global, at: u64, constraint: &Option<Constraint>) -> Result<Body, NoMemory>
    ensures { IfOk result
        (λ body. body
        ≡ with_result (at_place at
        (member (codes "constraints") (list_data constraint_data (constraint_list constraint.now)) no_members))) }
{
    let constraints = list_value(alloc, constraint.as_slice())?;
    result_with(alloc, at, "constraints", constraints)
}

#[tactic(auto, using(crate::proofs::Floats::layers_none))]
fn listed(alloc: Global, at: u64, layers: &[Listed]) -> Result<Body, NoMemory>
    ensures { IfOk result
        (λ body. body
        ≡ with_result (at_place at (member (codes "layers") (list_data listed_data layers.now) no_members))) }
{
    let layers = list_value(alloc, layers)?;
    result_with(alloc, at, "layers", layers)
}

#[tactic(auto, using(crate::proofs::Floats::reservations_none))]
fn reservations(alloc: Global, at: u64, now: u64, list: &[Reservation]) -> Result<Body, NoMemory>
    ensures { IfOk result
        (λ body. body
        ≡ with_result (at_place at
        (member (codes "reservations") (list_data (reservation_data now) list.now) no_members))) }
{
    let reservations = reservation_list(alloc, now, list)?;
    result_with(alloc, at, "reservations", reservations)
}

// The error for a channel that the layer has created already.
fn channel_body(alloc: Global, at: u64, layer: &Name, scid: &Scid) -> Result<Body, NoMemory>
    ensures { IfOk result (λ body. body ≡ channel_error at layer.now scid.now) }
{
    let channel = scid.write(alloc)?;
    let detail = json!(in alloc; {"at": at, "layer": layer.text(), "short_channel_id": channel})?;
    Body::error(alloc, 303, "channel exists", detail)
}

// An error with the name of a layer.
fn layer_body(
    alloc: Global,
    code: i32,
    message: &str,
    at: u64,
    layer: &Name,
) -> Result<Body, NoMemory>
    ensures { IfOk result (λ body. body ≡ layer_error code message.now at layer.now) }
{
    let detail = json!(in alloc; {"at": at, "layer": layer.text()})?;
    Body::error(alloc, code, message, detail)
}

// An error with a number, whose key comes after `at`.
fn number_body(
    alloc: Global,
    code: i32,
    message: &str,
    at: u64,
    key: &str,
    number: usize,
) -> Result<Body, NoMemory>
    requires { IsBelow (codes "at") key.now }
    ensures { IfOk result
        (λ body. body ≡ number_error code message.now at key.now number) }
{
    let detail = json!(in alloc; {"at": at, key: number})?;
    Body::error(alloc, code, message, detail)
}
