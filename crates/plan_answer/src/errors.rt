ghost use Rattle.std.specs.Prelude.{◌≡◌, IfOk};
ghost use Rattle.serde_json.specs.Data.{string};
ghost use Rattle.rpc_lines.specs.Json.{whole};
ghost use Rattle.plan_answer.specs.Errors as spec;

use plan_base::NoMemory;
use rpc_lines::Body;
use serde_json::{Map, Value, json};
use std::alloc::Global;

fn bare_error(alloc: Global, code: i32, message: &str) -> Result<Body, NoMemory>
    ensures { IfOk result (λ body. body ≡ spec.bare_error code message.now) }
{
    Body::error(alloc, code, message, Value::Object(Map::new(alloc)))
}

fn text_error(
    alloc: Global,
    code: i32,
    message: &str,
    key: &str,
    text: &str,
) -> Result<Body, NoMemory>
    ensures { IfOk result (λ body. body ≡ spec.error_with code message.now key.now (string text.now)) }
{
    Body::error(alloc, code, message, json!(in alloc; {key: text})?)
}

fn number_error(
    alloc: Global,
    code: i32,
    message: &str,
    key: &str,
    number: u64,
) -> Result<Body, NoMemory>
    ensures { IfOk result (λ body. body ≡ spec.error_with code message.now key.now (whole number)) }
{
    Body::error(alloc, code, message, json!(in alloc; {key: number})?)
}

/// The line is not a JSON text (JSON-RPC 2.0: -32700).
#[tactic(auto, unfolding(crate::specs::Errors::parse_error))]
pub fn parse_error(alloc: Global) -> Result<Body, NoMemory>
    ensures { IfOk result (λ body. body ≡ spec.parse_error) }
{
    bare_error(alloc, -32700, "parse error")
}

/// The line is not a request (JSON-RPC 2.0: -32600).
#[tactic(auto, unfolding(crate::specs::Errors::invalid_request))]
pub fn invalid_request(alloc: Global) -> Result<Body, NoMemory>
    ensures { IfOk result (λ body. body ≡ spec.invalid_request) }
{
    bare_error(alloc, -32600, "invalid request")
}

/// The method does not exist (JSON-RPC 2.0: -32601).
#[tactic(auto, unfolding(crate::specs::Errors::method_not_found))]
pub fn method_not_found(alloc: Global, method: &str) -> Result<Body, NoMemory>
    ensures { IfOk result (λ body. body ≡ spec.method_not_found method.now) }
{
    text_error(alloc, -32601, "method not found", "method", method)
}

/// A parameter is missing or bad (JSON-RPC 2.0: -32602); `name` names it.
#[tactic(auto, unfolding(crate::specs::Errors::invalid_params))]
pub fn invalid_params(alloc: Global, name: &str) -> Result<Body, NoMemory>
    ensures { IfOk result (λ body. body ≡ spec.invalid_params name.now) }
{
    text_error(alloc, -32602, "invalid params", "name", name)
}

/// The line exceeds the maximum length.
#[tactic(auto, unfolding(crate::specs::Errors::line_too_long))]
pub fn line_too_long(alloc: Global) -> Result<Body, NoMemory>
    ensures { IfOk result (λ body. body ≡ spec.line_too_long) }
{
    bare_error(alloc, 310, "line too long")
}

/// The journal has its maximum number of entries, `length`.
#[tactic(auto, unfolding(crate::specs::Errors::journal_full))]
pub fn journal_full(alloc: Global, length: u64) -> Result<Body, NoMemory>
    ensures { IfOk result (λ body. body ≡ spec.journal_full length) }
{
    number_error(alloc, 306, "journal full", "length", length)
}

/// Out of memory before the command got an entry.
#[tactic(auto, unfolding(crate::specs::Errors::out_of_memory))]
pub fn out_of_memory(alloc: Global) -> Result<Body, NoMemory>
    ensures { IfOk result (λ body. body ≡ spec.out_of_memory) }
{
    bare_error(alloc, 399, "out of memory")
}

/// Out of memory for the reply to the entry at position `at`.
#[tactic(auto, unfolding(crate::specs::Errors::out_of_memory_at))]
pub fn out_of_memory_at(alloc: Global, at: u64) -> Result<Body, NoMemory>
    ensures { IfOk result (λ body. body ≡ spec.out_of_memory_at at) }
{
    number_error(alloc, 399, "out of memory", "at", at)
}
