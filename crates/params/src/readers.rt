ghost use Rattle.std.specs.Prelude.{◌≡◌, Ok, IfOk, IfErr};
ghost use Rattle.serde_json.specs.View.{view};
ghost use Rattle.askrene_command.specs.Command.{IsGoodCommand};
ghost use Rattle.askrene_command.specs.declared.command.Command.TheVariants.{CreateLayer, RemoveLayer, Reserve, Unreserve};
ghost use Rattle.params.specs.Methods.{layer_command, list_layers_command, create_channel_command, update_channel_command, inform_channel_command, bias_channel_command, disable_node_command, age_command, path_command, list_reservations_command, get_routes_command};
ghost use Rattle.params.specs.Reading.{IsFaultIn};

use crate::fault::Fault;
use crate::given::{name_at, optional, refuse_extra_items, refuse_unknown_names, required};
use crate::kind::Flag;
use crate::layers_kind::Layers;
use crate::names::{
    AGE_TABLE, BIAS_TABLE, CHANNEL_TABLE, EMPTY_TABLE, INFORM_TABLE, LAYER_TABLE, NODE_TABLE,
    PATH_TABLE, ROUTES_TABLE, UPDATE_TABLE,
};
use crate::number_kinds::{
    Amount, BaseFee, CltvDelta, Parts, Percent, PositiveAmount, ProportionalFee, Whole,
};
use crate::path_kind::Path;
use crate::text_kinds::{ChannelId, Direction, LayerName, Learnt, Node};
use askrene_command::Command;
use layer::{Ask, Bias, Created, PARTS_MAX, Update};
use serde_json::Value;
use std::alloc::Global;

/// The greatest delay of a part, in blocks, if an ask gives none.
const DEFAULT_DELAY: u16 = 2016;

/// Reads the parameters of `askrene-create-layer`.
#[tactic(auto, unfolding(crate::specs::Methods::layer_command))]
pub fn read_create_layer<'a>(alloc: Global, params: &'a Value) -> Result<Command, Fault<'a>>
    ensures ok { IfOk result (λ command. layer_command CreateLayer (view params.now) ≡ Ok command) }
    ensures good { IfOk result IsGoodCommand }
    ensures err { IfErr result (λ fault. IsFaultIn fault (layer_command CreateLayer (view params.now))) }
{
    refuse_extra_items(params, LAYER_TABLE)?;
    let layer = required::<LayerName>(alloc, params, LAYER_TABLE, 0)?;
    refuse_unknown_names(params, LAYER_TABLE)?;
    Ok(Command::CreateLayer { layer })
}

/// Reads the parameters of `askrene-remove-layer`.
#[tactic(auto, unfolding(crate::specs::Methods::layer_command))]
pub fn read_remove_layer<'a>(alloc: Global, params: &'a Value) -> Result<Command, Fault<'a>>
    ensures ok { IfOk result (λ command. layer_command RemoveLayer (view params.now) ≡ Ok command) }
    ensures good { IfOk result IsGoodCommand }
    ensures err { IfErr result (λ fault. IsFaultIn fault (layer_command RemoveLayer (view params.now))) }
{
    refuse_extra_items(params, LAYER_TABLE)?;
    let layer = required::<LayerName>(alloc, params, LAYER_TABLE, 0)?;
    refuse_unknown_names(params, LAYER_TABLE)?;
    Ok(Command::RemoveLayer { layer })
}

/// Reads the parameters of `askrene-listlayers`.
#[tactic(auto, unfolding(crate::specs::Methods::list_layers_command))]
pub fn read_list_layers<'a>(alloc: Global, params: &'a Value) -> Result<Command, Fault<'a>>
    ensures ok { IfOk result (λ command. list_layers_command (view params.now) ≡ Ok command) }
    ensures good { IfOk result IsGoodCommand }
    ensures err { IfErr result (λ fault. IsFaultIn fault (list_layers_command (view params.now))) }
{
    refuse_extra_items(params, LAYER_TABLE)?;
    let layer = optional::<LayerName>(alloc, params, LAYER_TABLE, 0)?;
    refuse_unknown_names(params, LAYER_TABLE)?;
    Ok(Command::ListLayers { layer })
}

/// Reads the parameters of `askrene-disable-node`.
#[tactic(auto, unfolding(crate::specs::Methods::disable_node_command))]
pub fn read_disable_node<'a>(alloc: Global, params: &'a Value) -> Result<Command, Fault<'a>>
    ensures ok { IfOk result (λ command. disable_node_command (view params.now) ≡ Ok command) }
    ensures good { IfOk result IsGoodCommand }
    ensures err { IfErr result (λ fault. IsFaultIn fault (disable_node_command (view params.now))) }
{
    refuse_extra_items(params, NODE_TABLE)?;
    let layer = required::<LayerName>(alloc, params, NODE_TABLE, 0)?;
    let node = required::<Node>(alloc, params, NODE_TABLE, 1)?;
    refuse_unknown_names(params, NODE_TABLE)?;
    Ok(Command::DisableNode { layer, node })
}

/// Reads the parameters of `askrene-age`.
#[tactic(auto, unfolding(crate::specs::Methods::age_command))]
pub fn read_age<'a>(alloc: Global, params: &'a Value) -> Result<Command, Fault<'a>>
    ensures ok { IfOk result (λ command. age_command (view params.now) ≡ Ok command) }
    ensures good { IfOk result IsGoodCommand }
    ensures err { IfErr result (λ fault. IsFaultIn fault (age_command (view params.now))) }
{
    refuse_extra_items(params, AGE_TABLE)?;
    let layer = required::<LayerName>(alloc, params, AGE_TABLE, 0)?;
    let cutoff = required::<Whole>(alloc, params, AGE_TABLE, 1)?;
    refuse_unknown_names(params, AGE_TABLE)?;
    Ok(Command::Age { layer, cutoff })
}

/// Reads the parameters of `askrene-create-channel`.
#[tactic(auto, unfolding(crate::specs::Methods::create_channel_command))]
pub fn read_create_channel<'a>(alloc: Global, params: &'a Value) -> Result<Command, Fault<'a>>
    ensures ok { IfOk result (λ command. create_channel_command (view params.now) ≡ Ok command) }
    ensures good { IfOk result IsGoodCommand }
    ensures err { IfErr result (λ fault. IsFaultIn fault (create_channel_command (view params.now))) }
{
    refuse_extra_items(params, CHANNEL_TABLE)?;
    let layer = required::<LayerName>(alloc, params, CHANNEL_TABLE, 0)?;
    let source = required::<Node>(alloc, params, CHANNEL_TABLE, 1)?;
    let destination = required::<Node>(alloc, params, CHANNEL_TABLE, 2)?;
    let scid = required::<ChannelId>(alloc, params, CHANNEL_TABLE, 3)?;
    let capacity = required::<PositiveAmount>(alloc, params, CHANNEL_TABLE, 4)?;
    if source == destination {
        return Err(Fault::Param(name_at(CHANNEL_TABLE, 2)));
    }
    refuse_unknown_names(params, CHANNEL_TABLE)?;
    let channel = Created {
        scid,
        source,
        destination,
        capacity,
    };
    Ok(Command::CreateChannel { layer, channel })
}

/// Reads the parameters of `askrene-update-channel`.
#[tactic(auto, unfolding(crate::specs::Methods::update_channel_command))]
pub fn read_update_channel<'a>(alloc: Global, params: &'a Value) -> Result<Command, Fault<'a>>
    ensures ok { IfOk result (λ command. update_channel_command (view params.now) ≡ Ok command) }
    ensures good { IfOk result IsGoodCommand }
    ensures err { IfErr result (λ fault. IsFaultIn fault (update_channel_command (view params.now))) }
{
    refuse_extra_items(params, UPDATE_TABLE)?;
    let layer = required::<LayerName>(alloc, params, UPDATE_TABLE, 0)?;
    let dir = required::<Direction>(alloc, params, UPDATE_TABLE, 1)?;
    let enabled = optional::<Flag>(alloc, params, UPDATE_TABLE, 2)?;
    let htlc_min = optional::<Amount>(alloc, params, UPDATE_TABLE, 3)?;
    let htlc_max = optional::<Amount>(alloc, params, UPDATE_TABLE, 4)?;
    let base = optional::<BaseFee>(alloc, params, UPDATE_TABLE, 5)?;
    let ppm = optional::<ProportionalFee>(alloc, params, UPDATE_TABLE, 6)?;
    let delay = optional::<CltvDelta>(alloc, params, UPDATE_TABLE, 7)?;
    refuse_unknown_names(params, UPDATE_TABLE)?;
    let change = Update {
        dir,
        enabled,
        htlc_min,
        htlc_max,
        base,
        ppm,
        delay,
    };
    Ok(Command::UpdateChannel { layer, change })
}

/// Reads the parameters of `askrene-inform-channel`.
#[tactic(auto, unfolding(crate::specs::Methods::inform_channel_command))]
pub fn read_inform_channel<'a>(alloc: Global, params: &'a Value) -> Result<Command, Fault<'a>>
    ensures ok { IfOk result (λ command. inform_channel_command (view params.now) ≡ Ok command) }
    ensures good { IfOk result IsGoodCommand }
    ensures err { IfErr result (λ fault. IsFaultIn fault (inform_channel_command (view params.now))) }
{
    refuse_extra_items(params, INFORM_TABLE)?;
    let layer = required::<LayerName>(alloc, params, INFORM_TABLE, 0)?;
    let dir = required::<Direction>(alloc, params, INFORM_TABLE, 1)?;
    let amount = required::<Amount>(alloc, params, INFORM_TABLE, 2)?;
    let kind = required::<Learnt>(alloc, params, INFORM_TABLE, 3)?;
    if kind.is_impossible(amount) {
        return Err(Fault::Param(name_at(INFORM_TABLE, 2)));
    }
    refuse_unknown_names(params, INFORM_TABLE)?;
    Ok(Command::InformChannel {
        layer,
        dir,
        amount,
        kind,
    })
}

/// Reads the parameters of `askrene-bias-channel`.
#[tactic(auto, unfolding(crate::specs::Methods::bias_channel_command))]
pub fn read_bias_channel<'a>(alloc: Global, params: &'a Value) -> Result<Command, Fault<'a>>
    ensures ok { IfOk result (λ command. bias_channel_command (view params.now) ≡ Ok command) }
    ensures good { IfOk result IsGoodCommand }
    ensures err { IfErr result (λ fault. IsFaultIn fault (bias_channel_command (view params.now))) }
{
    refuse_extra_items(params, BIAS_TABLE)?;
    let layer = required::<LayerName>(alloc, params, BIAS_TABLE, 0)?;
    let dir = required::<Direction>(alloc, params, BIAS_TABLE, 1)?;
    let bias = required::<Percent>(alloc, params, BIAS_TABLE, 2)?;
    refuse_unknown_names(params, BIAS_TABLE)?;
    let bias = Bias { dir, bias };
    Ok(Command::BiasChannel { layer, bias })
}

/// Reads the parameters of `askrene-reserve`.
#[tactic(auto, unfolding(crate::specs::Methods::path_command))]
pub fn read_reserve<'a>(alloc: Global, params: &'a Value) -> Result<Command, Fault<'a>>
    ensures ok { IfOk result (λ command. path_command Reserve (view params.now) ≡ Ok command) }
    ensures good { IfOk result IsGoodCommand }
    ensures err { IfErr result (λ fault. IsFaultIn fault (path_command Reserve (view params.now))) }
{
    refuse_extra_items(params, PATH_TABLE)?;
    let path = required::<Path>(alloc, params, PATH_TABLE, 0)?;
    refuse_unknown_names(params, PATH_TABLE)?;
    Ok(Command::Reserve { path })
}

/// Reads the parameters of `askrene-unreserve`.
#[tactic(auto, unfolding(crate::specs::Methods::path_command))]
pub fn read_unreserve<'a>(alloc: Global, params: &'a Value) -> Result<Command, Fault<'a>>
    ensures ok { IfOk result (λ command. path_command Unreserve (view params.now) ≡ Ok command) }
    ensures good { IfOk result IsGoodCommand }
    ensures err { IfErr result (λ fault. IsFaultIn fault (path_command Unreserve (view params.now))) }
{
    refuse_extra_items(params, PATH_TABLE)?;
    let path = required::<Path>(alloc, params, PATH_TABLE, 0)?;
    refuse_unknown_names(params, PATH_TABLE)?;
    Ok(Command::Unreserve { path })
}

/// Reads the parameters of `askrene-listreservations`, which has none.
#[tactic(auto, unfolding(crate::specs::Methods::list_reservations_command))]
pub fn read_list_reservations<'a>(params: &'a Value) -> Result<Command, Fault<'a>>
    ensures ok { IfOk result (λ command. list_reservations_command (view params.now) ≡ Ok command) }
    ensures good { IfOk result IsGoodCommand }
    ensures err { IfErr result (λ fault. IsFaultIn fault (list_reservations_command (view params.now))) }
{
    refuse_extra_items(params, EMPTY_TABLE)?;
    refuse_unknown_names(params, EMPTY_TABLE)?;
    Ok(Command::ListReservations)
}

/// Reads the parameters of `getroutes`.
#[tactic(auto, unfolding(crate::specs::Methods::get_routes_command))]
pub fn read_get_routes<'a>(alloc: Global, params: &'a Value) -> Result<Command, Fault<'a>>
    ensures ok { IfOk result (λ command. get_routes_command (view params.now) ≡ Ok command) }
    ensures good { IfOk result IsGoodCommand }
    ensures err { IfErr result (λ fault. IsFaultIn fault (get_routes_command (view params.now))) }
{
    refuse_extra_items(params, ROUTES_TABLE)?;
    let source = required::<Node>(alloc, params, ROUTES_TABLE, 0)?;
    let destination = required::<Node>(alloc, params, ROUTES_TABLE, 1)?;
    let amount = required::<PositiveAmount>(alloc, params, ROUTES_TABLE, 2)?;
    let layers = required::<Layers>(alloc, params, ROUTES_TABLE, 3)?;
    let maxfee = required::<Amount>(alloc, params, ROUTES_TABLE, 4)?;
    let final_cltv = required::<CltvDelta>(alloc, params, ROUTES_TABLE, 5)?;
    let maxdelay = optional::<CltvDelta>(alloc, params, ROUTES_TABLE, 6)?;
    let maxparts = optional::<Parts>(alloc, params, ROUTES_TABLE, 7)?;
    let certificate = optional::<Flag>(alloc, params, ROUTES_TABLE, 8)?;
    if source == destination {
        return Err(Fault::Param(name_at(ROUTES_TABLE, 1)));
    }
    refuse_unknown_names(params, ROUTES_TABLE)?;
    Ok(Command::GetRoutes(Ask {
        source,
        destination,
        amount,
        layers,
        maxfee,
        final_cltv,
        maxdelay: maxdelay.unwrap_or(DEFAULT_DELAY),
        maxparts: maxparts.unwrap_or(PARTS_MAX),
        certificate: certificate.unwrap_or(false),
    }))
}
