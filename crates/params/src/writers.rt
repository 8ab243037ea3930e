ghost use Rattle.std.specs.Prelude.{◌≡◌, Ok, IfOk, IfSome, OnOk};
ghost use Rattle.serde_json.specs.View.{view};
ghost use Rattle.askrene_command.specs.Command.{IsGoodName, IsGoodInform, IsGoodPath};
ghost use Rattle.askrene_command.specs.declared.command.Command.TheVariants.{CreateLayer, RemoveLayer, ListLayers, CreateChannel, UpdateChannel, InformChannel, BiasChannel, DisableNode, Age, Reserve, Unreserve, ListReservations, GetRoutes};
ghost use Rattle.layer.specs.Ask.{IsGoodAsk};
ghost use Rattle.layer.specs.Bias.{IsGoodBias};
ghost use Rattle.layer.specs.Created.{IsGoodCreated};
ghost use Rattle.layer.specs.Update.{IsGoodUpdate};
ghost use Rattle.params.specs.Methods.{layer_command, list_layers_command, create_channel_command, update_channel_command, inform_channel_command, bias_channel_command, disable_node_command, age_command, path_command, list_reservations_command, get_routes_command};
ghost use Rattle.params.specs.Printed.{params_data};

use crate::kind::Flag;
use crate::layers_kind::Layers;
use crate::named::{put_optional, put_required};
use crate::names::{
    AGE_TABLE, BIAS_TABLE, CHANNEL_TABLE, INFORM_TABLE, LAYER_TABLE, NODE_TABLE, PATH_TABLE,
    ROUTES_TABLE, UPDATE_TABLE,
};
use crate::number_kinds::{
    Amount, BaseFee, CltvDelta, Parts, Percent, PositiveAmount, ProportionalFee, Whole,
};
use crate::path_kind::Path;
use crate::text_kinds::{ChannelId, Direction, LayerName, Learnt, Node};
use askrene_command::Inform;
use layer::{Ask, Bias, Created, Name, Update};
use plan_base::{Dir, Held, Items, NoMemory, NodeId};
use serde_json::{Map, Value};
use std::alloc::Global;

/// Writes the parameters of `askrene-create-layer` and `askrene-remove-layer`.
#[tactic(auto, unfolding(crate::specs::Printed::put_all))]
pub fn write_layer(alloc: Global, layer: &Name) -> Result<Value, NoMemory>
    requires { IsGoodName layer.now }
    ensures value { IfOk result (λ value. view value ≡ params_data (CreateLayer layer.now)) }
    ensures created { OnOk result (layer_command CreateLayer (params_data (CreateLayer layer.now)) ≡ Ok (CreateLayer layer.now)) }
    ensures removed { OnOk result (layer_command RemoveLayer (params_data (RemoveLayer layer.now)) ≡ Ok (RemoveLayer layer.now)) }
{
    let mut members = Map::new(alloc);
    put_required::<LayerName>(alloc, &mut members, LAYER_TABLE, 0, layer)?;
    Ok(Value::Object(members))
}

/// Writes the parameters of `askrene-listlayers`.
#[tactic(auto, unfolding(crate::specs::Printed::put_all))]
pub fn write_list_layers(alloc: Global, layer: &Option<Name>) -> Result<Value, NoMemory>
    requires { IfSome layer.now IsGoodName }
    ensures value { IfOk result (λ value. view value ≡ params_data (ListLayers layer.now)) }
    ensures back { OnOk result (list_layers_command (params_data (ListLayers layer.now)) ≡ Ok (ListLayers layer.now)) }
{
    let mut members = Map::new(alloc);
    put_optional::<LayerName>(alloc, &mut members, LAYER_TABLE, 0, layer)?;
    Ok(Value::Object(members))
}

/// Writes the parameters of `askrene-disable-node`.
#[tactic(auto, unfolding(crate::specs::Printed::put_all))]
pub fn write_disable_node(alloc: Global, layer: &Name, node: &NodeId) -> Result<Value, NoMemory>
    requires { IsGoodName layer.now }
    ensures value { IfOk result (λ value. view value ≡ params_data (DisableNode layer.now node.now)) }
    ensures back { OnOk result (disable_node_command (params_data (DisableNode layer.now node.now)) ≡ Ok (DisableNode layer.now node.now)) }
{
    let mut members = Map::new(alloc);
    put_required::<LayerName>(alloc, &mut members, NODE_TABLE, 0, layer)?;
    put_required::<Node>(alloc, &mut members, NODE_TABLE, 1, node)?;
    Ok(Value::Object(members))
}

/// Writes the parameters of `askrene-age`.
#[tactic(auto, unfolding(crate::specs::Printed::put_all))]
pub fn write_age(alloc: Global, layer: &Name, cutoff: u64) -> Result<Value, NoMemory>
    requires { IsGoodName layer.now }
    ensures value { IfOk result (λ value. view value ≡ params_data (Age layer.now cutoff)) }
    ensures back { OnOk result (age_command (params_data (Age layer.now cutoff)) ≡ Ok (Age layer.now cutoff)) }
{
    let mut members = Map::new(alloc);
    put_required::<LayerName>(alloc, &mut members, AGE_TABLE, 0, layer)?;
    put_required::<Whole>(alloc, &mut members, AGE_TABLE, 1, &cutoff)?;
    Ok(Value::Object(members))
}

/// Writes the parameters of `askrene-create-channel`.
#[tactic(auto, unfolding(crate::specs::Printed::put_all))]
pub fn write_create_channel(
    alloc: Global,
    layer: &Name,
    channel: &Created,
) -> Result<Value, NoMemory>
    requires name { IsGoodName layer.now }
    requires channel { IsGoodCreated channel.now }
    ensures value { IfOk result (λ value. view value ≡ params_data (CreateChannel layer.now channel.now)) }
    ensures back { OnOk result (create_channel_command (params_data (CreateChannel layer.now channel.now)) ≡ Ok (CreateChannel layer.now channel.now)) }
{
    let mut members = Map::new(alloc);
    put_required::<LayerName>(alloc, &mut members, CHANNEL_TABLE, 0, layer)?;
    put_required::<Node>(alloc, &mut members, CHANNEL_TABLE, 1, &channel.source)?;
    put_required::<Node>(alloc, &mut members, CHANNEL_TABLE, 2, &channel.destination)?;
    put_required::<ChannelId>(alloc, &mut members, CHANNEL_TABLE, 3, &channel.scid)?;
    put_required::<PositiveAmount>(alloc, &mut members, CHANNEL_TABLE, 4, &channel.capacity)?;
    Ok(Value::Object(members))
}

/// Writes the parameters of `askrene-update-channel`.
#[tactic(auto, unfolding(crate::specs::Printed::put_all))]
pub fn write_update_channel(alloc: Global, layer: &Name, change: &Update) -> Result<Value, NoMemory>
    requires name { IsGoodName layer.now }
    requires change { IsGoodUpdate change.now }
    ensures value { IfOk result (λ value. view value ≡ params_data (UpdateChannel layer.now change.now)) }
    ensures back { OnOk result (update_channel_command (params_data (UpdateChannel layer.now change.now)) ≡ Ok (UpdateChannel layer.now change.now)) }
{
    let mut members = Map::new(alloc);
    put_required::<LayerName>(alloc, &mut members, UPDATE_TABLE, 0, layer)?;
    put_required::<Direction>(alloc, &mut members, UPDATE_TABLE, 1, &change.dir)?;
    put_optional::<Flag>(alloc, &mut members, UPDATE_TABLE, 2, &change.enabled)?;
    put_optional::<Amount>(alloc, &mut members, UPDATE_TABLE, 3, &change.htlc_min)?;
    put_optional::<Amount>(alloc, &mut members, UPDATE_TABLE, 4, &change.htlc_max)?;
    put_optional::<BaseFee>(alloc, &mut members, UPDATE_TABLE, 5, &change.base)?;
    put_optional::<ProportionalFee>(alloc, &mut members, UPDATE_TABLE, 6, &change.ppm)?;
    put_optional::<CltvDelta>(alloc, &mut members, UPDATE_TABLE, 7, &change.delay)?;
    Ok(Value::Object(members))
}

/// Writes the parameters of `askrene-inform-channel`.
#[tactic(auto, unfolding(crate::specs::Printed::put_all))]
pub fn write_inform_channel(
    alloc: Global,
    layer: &Name,
    dir: &Dir,
    amount: u64,
    kind: Inform,
) -> Result<Value, NoMemory>
    requires name { IsGoodName layer.now }
    requires inform { IsGoodInform amount kind }
    ensures value { IfOk result (λ value. view value ≡ params_data (InformChannel layer.now dir.now amount kind)) }
    ensures back { OnOk result (inform_channel_command (params_data (InformChannel layer.now dir.now amount kind)) ≡ Ok (InformChannel layer.now dir.now amount kind)) }
{
    let mut members = Map::new(alloc);
    put_required::<LayerName>(alloc, &mut members, INFORM_TABLE, 0, layer)?;
    put_required::<Direction>(alloc, &mut members, INFORM_TABLE, 1, dir)?;
    put_required::<Amount>(alloc, &mut members, INFORM_TABLE, 2, &amount)?;
    put_required::<Learnt>(alloc, &mut members, INFORM_TABLE, 3, &kind)?;
    Ok(Value::Object(members))
}

/// Writes the parameters of `askrene-bias-channel`.
#[tactic(auto, unfolding(crate::specs::Printed::put_all))]
pub fn write_bias_channel(alloc: Global, layer: &Name, bias: &Bias) -> Result<Value, NoMemory>
    requires name { IsGoodName layer.now }
    requires bias { IsGoodBias bias.now }
    ensures value { IfOk result (λ value. view value ≡ params_data (BiasChannel layer.now bias.now)) }
    ensures back { OnOk result (bias_channel_command (params_data (BiasChannel layer.now bias.now)) ≡ Ok (BiasChannel layer.now bias.now)) }
{
    let mut members = Map::new(alloc);
    put_required::<LayerName>(alloc, &mut members, BIAS_TABLE, 0, layer)?;
    put_required::<Direction>(alloc, &mut members, BIAS_TABLE, 1, &bias.dir)?;
    put_required::<Percent>(alloc, &mut members, BIAS_TABLE, 2, &bias.bias)?;
    Ok(Value::Object(members))
}

/// Writes the parameters of `askrene-reserve` and `askrene-unreserve`.
#[tactic(auto, unfolding(crate::specs::Printed::put_all))]
pub fn write_path(alloc: Global, path: &Items<Held>) -> Result<Value, NoMemory>
    requires { IsGoodPath path.now }
    ensures value { IfOk result (λ value. view value ≡ params_data (Reserve path.now)) }
    ensures reserved { OnOk result (path_command Reserve (params_data (Reserve path.now)) ≡ Ok (Reserve path.now)) }
    ensures unreserved { OnOk result (path_command Unreserve (params_data (Unreserve path.now)) ≡ Ok (Unreserve path.now)) }
{
    let mut members = Map::new(alloc);
    put_required::<Path>(alloc, &mut members, PATH_TABLE, 0, path)?;
    Ok(Value::Object(members))
}

/// Writes the parameters of `askrene-listreservations`, which has none; allocates nothing.
#[tactic(auto, using(crate::proofs::Trips::list_reservations_trip), unfolding(crate::specs::Printed::put_all))]
pub fn write_no_params(alloc: Global) -> Value
    ensures value { view result ≡ params_data ListReservations }
    ensures back { list_reservations_command (params_data ListReservations) ≡ Ok ListReservations }
{
    Value::Object(Map::new(alloc))
}

/// Writes the parameters of `getroutes`, all nine of them.
#[tactic(auto, unfolding(crate::specs::Printed::put_all))]
pub fn write_get_routes(alloc: Global, ask: &Ask) -> Result<Value, NoMemory>
    requires { IsGoodAsk ask.now }
    ensures value { IfOk result (λ value. view value ≡ params_data (GetRoutes ask.now)) }
    ensures back { OnOk result (get_routes_command (params_data (GetRoutes ask.now)) ≡ Ok (GetRoutes ask.now)) }
{
    let mut members = Map::new(alloc);
    put_required::<Node>(alloc, &mut members, ROUTES_TABLE, 0, &ask.source)?;
    put_required::<Node>(alloc, &mut members, ROUTES_TABLE, 1, &ask.destination)?;
    put_required::<PositiveAmount>(alloc, &mut members, ROUTES_TABLE, 2, &ask.amount)?;
    put_required::<Layers>(alloc, &mut members, ROUTES_TABLE, 3, &ask.layers)?;
    put_required::<Amount>(alloc, &mut members, ROUTES_TABLE, 4, &ask.maxfee)?;
    put_required::<CltvDelta>(alloc, &mut members, ROUTES_TABLE, 5, &ask.final_cltv)?;
    put_required::<CltvDelta>(alloc, &mut members, ROUTES_TABLE, 6, &ask.maxdelay)?;
    put_required::<Parts>(alloc, &mut members, ROUTES_TABLE, 7, &ask.maxparts)?;
    put_required::<Flag>(alloc, &mut members, ROUTES_TABLE, 8, &ask.certificate)?;
    Ok(Value::Object(members))
}
