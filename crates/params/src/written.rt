ghost use Rattle.std.specs.Prelude.{◌≡◌, Ok, Some, IfOk};
ghost use Rattle.serde_json.specs.View.{view};
ghost use Rattle.askrene_command.specs.Command.{IsGoodCommand};
ghost use Rattle.params.specs.Methods.{command_in};
ghost use Rattle.params.specs.Printed as spec;
ghost use Rattle.params.specs.Printed.{params_data};

use crate::names;
use crate::writers::{
    write_age, write_bias_channel, write_create_channel, write_disable_node, write_get_routes,
    write_inform_channel, write_layer, write_list_layers, write_no_params, write_path,
    write_update_channel,
};
use askrene_command::Command;
use plan_base::NoMemory;
use serde_json::Value;
use std::alloc::Global;

/// The method of a command.
pub fn method_of(command: &Command) -> &'static str
    ensures { result.now ≡ spec.method_of command.now }
{
    match command {
        Command::CreateLayer { .. } => names::CREATE_LAYER,
        Command::RemoveLayer { .. } => names::REMOVE_LAYER,
        Command::ListLayers { .. } => names::LIST_LAYERS,
        Command::CreateChannel { .. } => names::CREATE_CHANNEL,
        Command::UpdateChannel { .. } => names::UPDATE_CHANNEL,
        Command::InformChannel { .. } => names::INFORM_CHANNEL,
        Command::BiasChannel { .. } => names::BIAS_CHANNEL,
        Command::DisableNode { .. } => names::DISABLE_NODE,
        Command::Age { .. } => names::AGE,
        Command::Reserve { .. } => names::RESERVE,
        Command::Unreserve { .. } => names::UNRESERVE,
        Command::ListReservations => names::LIST_RESERVATIONS,
        Command::GetRoutes(_) => names::GET_ROUTES,
    }
}

/// The parameters of a command, by name. An absent one is left out; amounts are numbers, ids are strings. With the method of
/// the command they are read back as the same command.
#[tactic(auto, unfolding(crate::specs::Methods::command_in))]
pub fn params_of(alloc: Global, command: &Command) -> Result<Value, NoMemory>
    requires { IsGoodCommand command.now }
    ensures value { IfOk result (λ value. view value ≡ params_data command.now) }
    ensures read_back { IfOk result (λ value. command_in (spec.method_of command.now) (view value)
        ≡ Some (Ok command.now)) }
{
    match command {
        Command::CreateLayer { layer } | Command::RemoveLayer { layer } => {
            write_layer(alloc, layer)
        }
        Command::ListLayers { layer } => write_list_layers(alloc, layer),
        Command::CreateChannel { layer, channel } => write_create_channel(alloc, layer, channel),
        Command::UpdateChannel { layer, change } => write_update_channel(alloc, layer, change),
        Command::InformChannel {
            layer,
            dir,
            amount,
            kind,
        } => write_inform_channel(alloc, layer, dir, *amount, *kind),
        Command::BiasChannel { layer, bias } => write_bias_channel(alloc, layer, bias),
        Command::DisableNode { layer, node } => write_disable_node(alloc, layer, node),
        Command::Age { layer, cutoff } => write_age(alloc, layer, *cutoff),
        Command::Reserve { path } | Command::Unreserve { path } => write_path(alloc, path),
        Command::ListReservations => Ok(write_no_params(alloc)),
        Command::GetRoutes(ask) => write_get_routes(alloc, ask),
    }
}
