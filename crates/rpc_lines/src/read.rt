ghost use Rattle.std.specs.Prelude.{◌≡◌, List, ℕ, IfOk, IfErr, None, false, bytes_eq, option_map, option_and_then};
ghost use Rattle.serde_json.specs.Find.{get_member, as_str};
ghost use Rattle.serde_json.specs.View.{view, members_view};
ghost use Rattle.rpc_lines.specs.Request.{value_of, id_of, params_of, request_in, request_of, request};
ghost use Rattle.rpc_lines.specs.Fault.{IsRequestFault};

use crate::request::{Id, Request, RpcFault};
use plan_base::{NoMemory, Text};
use serde_json::{Map, Value};
use std::alloc::Global;
use std::mem;

/// Reads the request of one line, given without its LF (JSON-RPC 2.0, one request per line). `jsonrpc` and unknown keys are
/// ignored. If a key occurs twice, its last value counts.
///
/// A JSON text is a request if and only if it is an object, its `id` is absent or null or a string or an integer that fits
/// u64 or i64, its `method` is a string, and its `params` is absent or null or an object or an array.
#[tactic(auto, unfolding(crate::specs::Request::request_of))]
pub fn read_request(alloc: Global, line: &[u8]) -> Result<Request, RpcFault>
    ensures ok { IfOk result
        (λ it. request_of line.now ≡ request it.id it.method (view it.params)) }
    ensures err { IfErr result (λ fault. IsRequestFault fault (request_of line.now)) }
{
    match read_value(alloc, line)? {
        None => Err(RpcFault::NotJson),
        Some(Value::Object(members)) => request_in(alloc, members),
        Some(_) => Err(RpcFault::NotRequest { id: Id::Null }),
    }
}

#[tactic(auto, using(crate::proofs::Values::value_of_read, crate::proofs::Values::value_of_unread))]
fn read_value(alloc: Global, line: &[u8]) -> Result<Option<Value>, NoMemory>
    ensures { IfOk result (λ value. option_map view value ≡ value_of line.now) }
{
    match Value::from_slice(alloc, line) {
        Ok(value) => Ok(Some(value)),
        Err(fault) if fault.is_memory() => Err(NoMemory),
        Err(_) => Ok(None),
    }
}

fn request_in(alloc: Global, mut members: Map<String, Value>) -> Result<Request, RpcFault>
    ensures ok { IfOk result
        (λ it. request_in (members_view members.entries) ≡ request it.id it.method (view it.params)) }
    ensures err { IfErr result (λ fault. IsRequestFault fault (request_in (members_view members.entries))) }
{
    let Some(id) = id_from(take(&mut members, "id")) else {
        return Err(RpcFault::NotRequest { id: Id::Null });
    };
    let Some(method) = text_from(take(&mut members, "method")) else {
        return Err(RpcFault::NotRequest { id });
    };
    let Some(params) = params_from(alloc, take(&mut members, "params")) else {
        return Err(RpcFault::NotRequest { id });
    };
    Ok(Request { id, method, params })
}

/// Moves a member's value out of an object and leaves null in its place. The other members stay.
#[tactic(auto, using(crate::proofs::Values::taken_member, crate::proofs::Values::other_member))]
fn take(members: &mut Map<String, Value>, name: &str) -> Option<Value>
    ensures value { option_map view result ≡ get_member name.now (members_view members.old.entries) }
    ensures others { (other : List ℕ) → bytes_eq name.now other ≡ false
        → get_member other (members_view members.new.entries)
        ≡ get_member other (members_view members.old.entries) }
{
    match members.get_mut(name) {
        Some(value) => Some(mem::replace(value, Value::Null)),
        None => None,
    }
}

fn id_from(member: Option<Value>) -> Option<Id>
    ensures { result ≡ id_of (option_map view member) }
{
    match member {
        None | Some(Value::Null) => Some(Id::Null),
        Some(Value::String(text)) => Some(Id::Text(Text::from_string(text))),
        Some(Value::Number(number)) => match number.as_u64() {
            Some(n) => Some(Id::Unsigned(n)),
            None => number.as_i64().map(Id::Signed),
        },
        Some(_) => None,
    }
}

fn text_from(member: Option<Value>) -> Option<Text>
    ensures { result ≡ option_and_then as_str (option_map view member) }
{
    match member {
        Some(Value::String(text)) => Some(Text::from_string(text)),
        _ => None,
    }
}

fn params_from(alloc: Global, member: Option<Value>) -> Option<Value>
    ensures { option_map view result ≡ params_of (option_map view member) }
{
    match member {
        None | Some(Value::Null) => Some(Value::Object(Map::new(alloc))),
        Some(Value::Object(members)) => Some(Value::Object(members)),
        Some(Value::Array(items)) => Some(Value::Array(items)),
        Some(_) => None,
    }
}
