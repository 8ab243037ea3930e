ghost use Rattle.std.specs.Prelude.{◌≡◌, ◌++◌, ◌∷◌, [], IfOk, false};
ghost use Rattle.serde_json.specs.View.{view, members_view};
ghost use Rattle.serde_json.specs.Written.{comma_if, compact_text, has_float, members_have_float, members_text};
ghost use Rattle.rpc_lines.specs.Reply.{id_data, with_result, with_error, value_in, place_data, reply_line};
ghost use Rattle.rpc_lines.specs.Said.{said_content};
ghost use Rattle.rpc_lines.specs.Tokens.{id_token, result_head, place_tokens, error_head, error_tail};
ghost use Rattle.json.specs.Print.{print, quoted};
ghost use Rattle.json.specs.Written.{Writes};

use crate::request::Id;
use json::Writer;
use plan_base::{NoMemory, Text};
use serde_json::{Map, Value};
use std::alloc::{AllocError, Global};
use std::marker::Model;

/// The capacity that a line starts with. Most replies fit.
const ROOM: usize = 256;

#[derive(Drop)]
enum Said {
    Result(Value),
    Place {
        at: u64,
    },
    Error {
        code: i32,
        message: Text,
        detail: Value,
    },
}

/// The content of a reply: a result or an error. It contains no floating-point number.
#[derive(Drop)]
pub struct Body {
    said: Said,
}

impl Model for Body {
    ghost use Rattle.std.specs.Prelude.{◌≡◌, false};
    ghost use Rattle.serde_json.specs.Written.{has_float};
    ghost use Rattle.rpc_lines.specs.Reply.{Content, value_in};
    ghost use Rattle.rpc_lines.specs.Stored.{content_code};

    ghost Value = { Content };

    ghost coded = { content_code };

    ghost use Rattle.rpc_lines.specs.Said.{said_content};

    ghost view = { λ body. said_content body.said };

    ghost invariant = { λ body. has_float (value_in (said_content body.said)) ≡ false };
}

impl Body {
    /// The result of a command.
    pub fn result(value: Value) -> Body
        requires { has_float (view value) ≡ false }
        ensures { result ≡ with_result (view value) }
    {
        Body {
            said: Said::Result(value),
        }
    }

    /// The result that contains only the position of the command's entry, under the key `at`.
    pub fn place(at: u64) -> Body
        ensures { result ≡ with_result (place_data at) }
    {
        Body {
            said: Said::Place { at },
        }
    }

    /// An error with a copy of the message; `detail` is written under the key `data`.
    pub fn error(alloc: Global, code: i32, message: &str, detail: Value) -> Result<Body, NoMemory>
        requires { has_float (view detail) ≡ false }
        ensures { IfOk result (λ body. body ≡ with_error code message.now (view detail)) }
    {
        let message = Text::from_text(alloc, message)?;
        Ok(Body {
            said: Said::Error {
                code,
                message,
                detail,
            },
        })
    }
}

/// The reply to one request.
#[derive(Drop)]
pub struct Reply {
    pub id: Id,
    pub body: Body,
}

/// The line of a reply, compact and with its LF: `{"id":ID,"jsonrpc":"2.0","result":R}`, or for an error
/// `{"error":{"code":C,"data":D,"message":M},"id":ID,"jsonrpc":"2.0"}`. The keys of every object are in ascending byte
/// order.
pub fn write_reply(alloc: Global, reply: &Reply) -> Result<Vec<u8>, NoMemory>
    ensures { IfOk result (λ line. line.items ≡ reply_line (id_data reply.now.id) reply.now.body) }
{
    let body = &reply.body;
    let line = body_line(alloc, &reply.id, &body.said)?;
    Ok(line)
}

fn body_line(alloc: Global, id: &Id, said: &Said) -> Result<Vec<u8>, NoMemory>
    requires { has_float (value_in (said_content said.now)) ≡ false }
    ensures { IfOk result (λ line. line.items ≡ reply_line (id_data id.now) (said_content said.now)) }
{
    let line = match said {
        Said::Result(value) => result_line(alloc, id, value)?,
        Said::Place { at } => place_line(alloc, id, *at)?,
        Said::Error {
            code,
            message,
            detail,
        } => error_line(alloc, id, *code, message.as_str(), detail)?,
    };
    Ok(line)
}

#[tactic(auto, using(crate::proofs::Lines::result_text))]
fn result_line(alloc: Global, id: &Id, value: &Value) -> Result<Vec<u8>, AllocError>
    requires { has_float (view value.now) ≡ false }
    ensures { IfOk result
        (λ line. line.items ≡ reply_line (id_data id.now) (with_result (view value.now))) }
{
    let line = result_start(alloc, id)?;
    let mut line = write_value(alloc, line, value)?;
    line.extend_from_slice(b"}\n")?;
    Ok(line)
}

#[tactic(auto, using(crate::proofs::Lines::place_text))]
fn place_line(alloc: Global, id: &Id, at: u64) -> Result<Vec<u8>, AllocError>
    ensures { IfOk result
        (λ line. line.items ≡ reply_line (id_data id.now) (with_result (place_data at))) }
{
    let line = result_start(alloc, id)?;
    let mut line = write_place(line, at)?;
    line.extend_from_slice(b"}\n")?;
    Ok(line)
}

#[tactic(auto, using(crate::proofs::Lines::error_text))]
fn error_line(
    alloc: Global,
    id: &Id,
    code: i32,
    message: &str,
    detail: &Value,
) -> Result<Vec<u8>, AllocError>
    requires { has_float (view detail.now) ≡ false }
    ensures { IfOk result
        (λ line. line.items
        ≡ reply_line (id_data id.now) (with_error code message.now (view detail.now))) }
{
    let line = error_start(alloc, code)?;
    let mut line = write_value(alloc, line, detail)?;
    line.push(b',')?;
    let mut line = error_end(line, message, id)?;
    line.push(b'\n')?;
    Ok(line)
}

// The text of a value. What an object contains is written one by one, since a string in it may be long.
fn write_value(alloc: Global, line: Vec<u8>, value: &Value) -> Result<Vec<u8>, AllocError>
    requires { has_float (view value.now) ≡ false }
    ensures { IfOk result (λ whole. whole.items ≡ line.items ++ compact_text (view value.now)) }
{
    match value {
        Value::Object(members) => write_members(alloc, line, members),
        _ => write_member(alloc, line, value),
    }
}

fn write_members(
    alloc: Global,
    mut line: Vec<u8>,
    members: &Map<String, Value>,
) -> Result<Vec<u8>, AllocError>
    requires { members_have_float (members_view members.now.entries) ≡ false }
    ensures { IfOk result
        (λ whole. whole.items ≡ line.items ++ (123 ∷ members_text false (members_view members.now.entries))) }
{
    line.push(b'{')?;
    let mut later = false;
    for (key, member) in members.iter() {
        let comma = write_comma(line, later)?;
        let start = write_key(comma, key.as_str())?;
        line = write_member(alloc, start, member)?;
        later = true;
    }
    line.push(b'}')?;
    Ok(line)
}

fn write_comma(mut line: Vec<u8>, later: bool) -> Result<Vec<u8>, AllocError>
    ensures { IfOk result (λ whole. whole.items ≡ line.items ++ comma_if later) }
{
    if later {
        line.push(b',')?;
    }
    Ok(line)
}

// A key and a colon.
fn write_key(line: Vec<u8>, key: &str) -> Result<Vec<u8>, AllocError>
    ensures { IfOk result (λ whole. whole.items ≡ line.items ++ (quoted key.now ++ 58 ∷ [])) }
{
    let mut out = Writer::new(line);
    out.key(key)?;
    Ok(out.into_inner())
}

// The text of a value, which is copied unless it is a string.
fn write_member(alloc: Global, line: Vec<u8>, value: &Value) -> Result<Vec<u8>, AllocError>
    requires { has_float (view value.now) ≡ false }
    ensures { IfOk result (λ whole. whole.items ≡ line.items ++ compact_text (view value.now)) }
{
    match value {
        Value::String(text) => write_string(line, text.as_str()),
        _ => write_copy(alloc, line, value),
    }
}

fn write_string(line: Vec<u8>, text: &str) -> Result<Vec<u8>, AllocError>
    ensures { IfOk result (λ whole. whole.items ≡ line.items ++ quoted text.now) }
{
    let mut out = Writer::new(line);
    out.string(text)?;
    Ok(out.into_inner())
}

fn write_copy(alloc: Global, mut line: Vec<u8>, value: &Value) -> Result<Vec<u8>, AllocError>
    requires { has_float (view value.now) ≡ false }
    ensures { IfOk result (λ whole. whole.items ≡ line.items ++ compact_text (view value.now)) }
{
    let text = value.to_vec(alloc)?;
    line.extend_from_slice(&text)?;
    Ok(line)
}

fn result_start(alloc: Global, id: &Id) -> Result<Vec<u8>, AllocError>
    ensures { IfOk result (λ line. line.items ≡ print (result_head id.now)) }
{
    let mut out = Writer::new(Vec::with_capacity(alloc, ROOM)?);
    out.begin_object()?;
    out.key("id")?;
    write_id(&mut out, id)?;
    out.key("jsonrpc")?;
    out.string("2.0")?;
    out.key("result")?;
    Ok(out.into_inner())
}

fn write_place(line: Vec<u8>, at: u64) -> Result<Vec<u8>, AllocError>
    ensures { IfOk result (λ whole. whole.items ≡ line.items ++ print (place_tokens at)) }
{
    let mut out = Writer::new(line);
    out.begin_object()?;
    out.key("at")?;
    out.u64(at)?;
    out.end_object()?;
    Ok(out.into_inner())
}

fn error_start(alloc: Global, code: i32) -> Result<Vec<u8>, AllocError>
    ensures { IfOk result (λ line. line.items ≡ print (error_head code)) }
{
    let mut out = Writer::new(Vec::with_capacity(alloc, ROOM)?);
    out.begin_object()?;
    out.key("error")?;
    out.begin_object()?;
    out.key("code")?;
    out.i64(code as i64)?;
    out.key("data")?;
    Ok(out.into_inner())
}

fn error_end(line: Vec<u8>, message: &str, id: &Id) -> Result<Vec<u8>, AllocError>
    ensures { IfOk result (λ whole. whole.items ≡ line.items ++ print (error_tail message.now id.now)) }
{
    let mut out = Writer::new(line);
    out.key("message")?;
    out.string(message)?;
    out.end_object()?;
    out.key("id")?;
    write_id(&mut out, id)?;
    out.key("jsonrpc")?;
    out.string("2.0")?;
    out.end_object()?;
    Ok(out.into_inner())
}

#[tactic(auto, unfolding(crate::specs::Tokens::id_token))]
fn write_id(out: &mut Writer, id: &Id) -> Result<(), AllocError>
    ensures { Writes result out.old out.new (id_token id.now) }
{
    match id {
        Id::Null => out.null(),
        Id::Unsigned(n) => out.u64(*n),
        Id::Signed(n) => out.i64(*n),
        Id::Text(text) => out.string(text.as_str()),
    }
}
