ghost use Rattle.std.specs.Prelude.{◌≡◌, Ok, Some, None, IfOk, IfErr};
ghost use Rattle.serde_json.specs.View.{view};
ghost use Rattle.askrene_command.specs.Command.{IsGoodCommand};
ghost use Rattle.askrene_command.specs.declared.command.TheConstants.{PATH_MAX};
ghost use Rattle.params.specs.Methods.{command_in};
ghost use Rattle.params.specs.Fault.{IsCommandFault};
ghost use Rattle.params.specs.Reading.{IsReading, IsSameFault};

use crate::fault::Fault;
use crate::names;
use crate::readers::{
    read_age, read_bias_channel, read_create_channel, read_create_layer, read_disable_node,
    read_get_routes, read_inform_channel, read_list_layers, read_list_reservations,
    read_remove_layer, read_reserve, read_unreserve, read_update_channel,
};
use askrene_command::Command;
use plan_base::Text;
use rpc_lines::Request;
use serde_json::Value;
use std::alloc::Global;

/// Why a request is not a command.
#[derive(Debug, Drop)]
pub enum CommandFault {
    /// The method does not exist.
    Method,
    /// The parameter with this name is refused (JSON-RPC 2.0: invalid params). The name is `params` if an array has more
    /// items than the method has parameters.
    Param { name: Text },
    /// Out of memory.
    NoMemory,
}

#[tactic(auto, unfolding(crate::specs::Methods::command_in))]
fn read_params<'a>(
    alloc: Global,
    method: &str,
    params: &'a Value,
) -> Option<Result<Command, Fault<'a>>>
    ensures { IsReading result (command_in method.now (view params.now)) }
{
    match method {
        names::CREATE_LAYER => Some(read_create_layer(alloc, params)),
        names::REMOVE_LAYER => Some(read_remove_layer(alloc, params)),
        names::LIST_LAYERS => Some(read_list_layers(alloc, params)),
        names::CREATE_CHANNEL => Some(read_create_channel(alloc, params)),
        names::UPDATE_CHANNEL => Some(read_update_channel(alloc, params)),
        names::INFORM_CHANNEL => Some(read_inform_channel(alloc, params)),
        names::BIAS_CHANNEL => Some(read_bias_channel(alloc, params)),
        names::DISABLE_NODE => Some(read_disable_node(alloc, params)),
        names::AGE => Some(read_age(alloc, params)),
        names::RESERVE => Some(read_reserve(alloc, params)),
        names::UNRESERVE => Some(read_unreserve(alloc, params)),
        names::LIST_RESERVATIONS => Some(read_list_reservations(params)),
        names::GET_ROUTES => Some(read_get_routes(alloc, params)),
        _ => None,
    }
}

fn fault_of(alloc: Global, fault: Fault) -> CommandFault
    ensures { IsSameFault fault.entry result }
{
    match fault {
        Fault::Param(name) => match Text::from_text(alloc, name) {
            Ok(name) => CommandFault::Param { name },
            Err(_) => CommandFault::NoMemory,
        },
        Fault::NoMemory => CommandFault::NoMemory,
    }
}

/// Reads the command of a request. Parameters are given by name, or as an array in the order of the method's table. Null
/// for an optional parameter means absent. The first refusal in this order names the parameter: an array with more items
/// than the method has parameters (`params`), the first parameter of the table that is required and missing or that has a
/// bad value, the method's own rule, the least name that is not in the table.
pub fn command_of(alloc: Global, request: &Request) -> Result<Command, CommandFault>
    ensures ok { IfOk result (λ command.
        command_in request.now.method (view request.now.params) ≡ Some (Ok command)) }
    ensures good { IfOk result IsGoodCommand }
    ensures path_limit { PATH_MAX ≡ 1000 }
    ensures err { IfErr result (λ fault.
        IsCommandFault fault (command_in request.now.method (view request.now.params))) }
{
    match read_params(alloc, request.method.as_str(), &request.params) {
        None => Err(CommandFault::Method),
        Some(Ok(command)) => Ok(command),
        Some(Err(fault)) => Err(fault_of(alloc, fault)),
    }
}
