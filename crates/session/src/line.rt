ghost use Rattle.std.specs.Prelude.{◌≡◌};
ghost use Rattle.serde_json.specs.View.{view};
ghost use Rattle.rpc_lines.specs.Request.{request_of};
ghost use Rattle.params.specs.Methods.{command_in};
ghost use Rattle.session.specs.Line.{is_blank_byte, is_blank, meaning_of, meaning_of_reading, meaning_of_method};
ghost use Rattle.session.specs.Text.{IsReadAs, IsWrongRead};

use askrene_state::Command;
use params::{CommandFault, command_of};
use plan_answer::{invalid_params, invalid_request, method_not_found, parse_error};
use plan_base::NoMemory;
use rpc_lines::{Body, Id, Request, RpcFault, read_request};
use std::alloc::Global;

/// How a line was read.
#[derive(Drop)]
pub enum LineRead {
    /// The line is blank, and skipped.
    Blank,
    /// The line gets an error without an entry.
    Wrong { id: Id, body: Body },
    /// The line is a command.
    Command { id: Id, command: Command },
    /// Out of memory after the request was read.
    OutOfMemory { id: Id },
    /// Out of memory before the request was read.
    Unread,
}

/// Reads a line.
#[tactic(auto, unfolding(crate::specs::Line::meaning_of))]
pub fn read_line(alloc: Global, line: &[u8]) -> LineRead
    ensures { IsReadAs result (meaning_of line.now) }
{
    if is_skipped(line) {
        return LineRead::Blank;
    }
    read_request_line(alloc, line)
}

fn is_skipped(line: &[u8]) -> bool
    ensures { result ≡ is_blank line.now }
{
    line.iter().all(|byte| is_blank(*byte))
}

fn is_blank(byte: u8) -> bool
    ensures { result ≡ is_blank_byte byte }
{
    byte == b' ' || byte == b'\t' || byte == b'\r'
}

// Reads a line that isn't blank.
fn read_request_line(alloc: Global, line: &[u8]) -> LineRead
    ensures { IsReadAs result (meaning_of_reading (request_of line.now)) }
{
    match read_request(alloc, line) {
        Ok(request) => read_command(alloc, request),
        Err(RpcFault::NotJson) => wrong(Id::Null, parse_error(alloc)),
        Err(RpcFault::NotRequest { id }) => wrong(id, invalid_request(alloc)),
        Err(RpcFault::NoMemory) => LineRead::Unread,
    }
}

// Reads the command of a request.
fn read_command(alloc: Global, request: Request) -> LineRead
    ensures { IsReadAs result (meaning_of_method request.id request.method (command_in request.method (view request.params))) }
{
    let read = command_of(alloc, &request);
    let Request { id, method, .. } = request;
    match read {
        Ok(command) => LineRead::Command { id, command },
        Err(CommandFault::Method) => wrong(id, method_not_found(alloc, method.as_str())),
        Err(CommandFault::Param { name }) => wrong(id, invalid_params(alloc, name.as_str())),
        Err(CommandFault::NoMemory) => LineRead::OutOfMemory { id },
    }
}

fn wrong(id: Id, body: Result<Body, NoMemory>) -> LineRead
    ensures { IsWrongRead id body result }
{
    match body {
        Ok(body) => LineRead::Wrong { id, body },
        Err(NoMemory) => LineRead::OutOfMemory { id },
    }
}
