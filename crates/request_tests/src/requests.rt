ghost use Rattle.std.specs.Prelude.{IfSome};
ghost use Rattle.askrene_command.specs.Command.{IsGoodCommand};

use askrene_command::Command;
use layer::Update;
use params::{CommandFault, command_of};
use plan_base::NoMemory;
use rpc_lines::{Request, read_request};
use std::alloc::Global;

/// How a request is to be answered.
#[derive(Clone, Copy)]
enum Wanted {
    Good,
    Method,
    Param(&'static str),
}

fn request_of(alloc: Global, method: &str, params: &str) -> Result<Request, NoMemory> {
    let line = format!(in alloc; "{{\"method\":\"{method}\",\"params\":{params}}}")?;
    read_request(alloc, line.as_bytes()).map_err(|_| NoMemory)
}

fn is_answer(answer: &Result<Command, CommandFault>, wanted: Wanted) -> bool {
    match answer {
        Ok(_) => matches!(wanted, Wanted::Good),
        Err(CommandFault::Method) => matches!(wanted, Wanted::Method),
        Err(CommandFault::Param { name }) => {
            matches!(wanted, Wanted::Param(wanted) if name.as_str() == wanted)
        }
        Err(CommandFault::NoMemory) => false,
    }
}

fn is_answered(alloc: Global, method: &str, params: &str, wanted: Wanted) -> bool {
    match request_of(alloc, method, params) {
        Ok(request) => is_answer(&command_of(alloc, &request), wanted),
        Err(_) => false,
    }
}

const ROWS: &[(&str, &str, Wanted)] = &[
    ("askrene-nothing", r#"{"layer":"x"}"#, Wanted::Method),
    ("create-layer", r#"{"layer":"x"}"#, Wanted::Method),
    ("askrene-create-layer", r#"{"layer":"x"}"#, Wanted::Good),
    ("askrene-create-layer", r#"{"layer":"auto"}"#, Wanted::Good),
    (
        "askrene-create-layer",
        r#"["nnnnnnnnnnnnnnnnnnnnnnnnnnnnnnnnnnnnnnnnnnnnnnnnnnnnnnnnnnnnnnnn"]"#,
        Wanted::Good,
    ),
    (
        "askrene-create-layer",
        r#"["nnnnnnnnnnnnnnnnnnnnnnnnnnnnnnnnnnnnnnnnnnnnnnnnnnnnnnnnnnnnnnnnn"]"#,
        Wanted::Param("layer"),
    ),
    (
        "askrene-create-layer",
        r#"{"layer":""}"#,
        Wanted::Param("layer"),
    ),
    (
        "askrene-create-layer",
        r#"{"layer":"auto."}"#,
        Wanted::Param("layer"),
    ),
    ("askrene-create-layer", "{}", Wanted::Param("layer")),
    ("askrene-create-layer", "[null]", Wanted::Param("layer")),
    (
        "askrene-create-layer",
        r#"{"layer":5}"#,
        Wanted::Param("layer"),
    ),
    (
        "askrene-create-layer",
        r#"{"layer":"x","layer":5}"#,
        Wanted::Param("layer"),
    ),
    ("askrene-create-layer", "[5,6]", Wanted::Param("params")),
    (
        "askrene-create-layer",
        r#"{"b":1,"layer":"x","a":null}"#,
        Wanted::Param("a"),
    ),
    (
        "askrene-create-layer",
        r#"{"a":1,"layer":5}"#,
        Wanted::Param("layer"),
    ),
    ("askrene-remove-layer", r#"["x"]"#, Wanted::Good),
    (
        "askrene-remove-layer",
        r#"{"name":"x"}"#,
        Wanted::Param("layer"),
    ),
    ("askrene-listlayers", "{}", Wanted::Good),
    ("askrene-listlayers", "[null]", Wanted::Good),
    ("askrene-listlayers", r#"["x"]"#, Wanted::Good),
    (
        "askrene-listlayers",
        r#"{"layer":false}"#,
        Wanted::Param("layer"),
    ),
    ("askrene-listlayers", "[null,null]", Wanted::Param("params")),
    ("askrene-listlayers", r#"{"x":null}"#, Wanted::Param("x")),
    (
        "askrene-update-channel",
        r#"{"layer":"x","short_channel_id_dir":"100x3x0/0"}"#,
        Wanted::Good,
    ),
    (
        "askrene-update-channel",
        r#"["x","100x3x0/0",null,null,null,null,null,null]"#,
        Wanted::Good,
    ),
    (
        "askrene-update-channel",
        r#"["x","0100x003x00/1",true,"0005msat",2100000000000000000,"4294967295",4294967295,65535]"#,
        Wanted::Good,
    ),
    (
        "askrene-update-channel",
        r#"["x","100x3x0/0",null,null,null,null,null,null,null]"#,
        Wanted::Param("params"),
    ),
    (
        "askrene-update-channel",
        r#"{"layer":"x"}"#,
        Wanted::Param("short_channel_id_dir"),
    ),
    (
        "askrene-update-channel",
        r#"["x","100x3x0/2"]"#,
        Wanted::Param("short_channel_id_dir"),
    ),
    (
        "askrene-update-channel",
        r#"["x","100x3x0//0"]"#,
        Wanted::Param("short_channel_id_dir"),
    ),
    (
        "askrene-update-channel",
        r#"{"layer":"x","short_channel_id_dir":"100x3x0/0","enabled":1}"#,
        Wanted::Param("enabled"),
    ),
    (
        "askrene-update-channel",
        r#"{"layer":"x","short_channel_id_dir":"100x3x0/0","cltv_expiry_delta":-1,"enabled":"true"}"#,
        Wanted::Param("enabled"),
    ),
    (
        "askrene-update-channel",
        r#"{"layer":"x","short_channel_id_dir":"100x3x0/0","htlc_minimum_msat":-0}"#,
        Wanted::Param("htlc_minimum_msat"),
    ),
    (
        "askrene-update-channel",
        r#"{"layer":"x","short_channel_id_dir":"100x3x0/0","htlc_maximum_msat":2100000000000000001}"#,
        Wanted::Param("htlc_maximum_msat"),
    ),
    (
        "askrene-update-channel",
        r#"{"layer":"x","short_channel_id_dir":"100x3x0/0","fee_base_msat":4294967296}"#,
        Wanted::Param("fee_base_msat"),
    ),
    (
        "askrene-update-channel",
        r#"{"layer":"x","short_channel_id_dir":"100x3x0/0","fee_base_msat":"4294967296msat"}"#,
        Wanted::Param("fee_base_msat"),
    ),
    (
        "askrene-update-channel",
        r#"{"layer":"x","short_channel_id_dir":"100x3x0/0","fee_proportional_millionths":"5"}"#,
        Wanted::Param("fee_proportional_millionths"),
    ),
    (
        "askrene-update-channel",
        r#"{"layer":"x","short_channel_id_dir":"100x3x0/0","fee_proportional_millionths":4294967296}"#,
        Wanted::Param("fee_proportional_millionths"),
    ),
    (
        "askrene-update-channel",
        r#"{"layer":"x","short_channel_id_dir":"100x3x0/0","cltv_expiry_delta":65536}"#,
        Wanted::Param("cltv_expiry_delta"),
    ),
    (
        "askrene-update-channel",
        r#"{"layer":"x","short_channel_id_dir":"100x3x0/0","cltv_expiry_delta":1.0}"#,
        Wanted::Param("cltv_expiry_delta"),
    ),
    (
        "askrene-update-channel",
        r#"{"layer":"x","short_channel_id_dir":"100x3x0/0","fee_base_msat":1,"fee":null}"#,
        Wanted::Param("fee"),
    ),
    (
        "askrene-inform-channel",
        r#"{"layer":"x","short_channel_id_dir":"100x3x0/0","amount_msat":1,"inform":"constrained"}"#,
        Wanted::Good,
    ),
    (
        "askrene-inform-channel",
        r#"{"layer":"x","short_channel_id_dir":"100x3x0/0","amount_msat":"0msat","inform":"unconstrained"}"#,
        Wanted::Good,
    ),
    (
        "askrene-inform-channel",
        r#"["x","100x3x0/0",0,"succeeded"]"#,
        Wanted::Good,
    ),
    (
        "askrene-inform-channel",
        r#"{"layer":"x","short_channel_id_dir":"100x3x0/0","amount_msat":0,"inform":"constrained"}"#,
        Wanted::Param("amount_msat"),
    ),
    (
        "askrene-inform-channel",
        r#"{"layer":"x","short_channel_id_dir":"100x3x0/0","amount_msat":"0","inform":"constrained","a":1}"#,
        Wanted::Param("amount_msat"),
    ),
    (
        "askrene-inform-channel",
        r#"{"layer":"x","short_channel_id_dir":"100x3x0/0","amount_msat":0,"inform":"failed"}"#,
        Wanted::Param("inform"),
    ),
    (
        "askrene-inform-channel",
        r#"{"layer":"x","short_channel_id_dir":"100x3x0/0","amount_msat":null,"inform":"failed"}"#,
        Wanted::Param("amount_msat"),
    ),
    (
        "askrene-bias-channel",
        r#"["x","100x3x0/0",100]"#,
        Wanted::Good,
    ),
    (
        "askrene-bias-channel",
        r#"["x","100x3x0/0",-100]"#,
        Wanted::Good,
    ),
    (
        "askrene-bias-channel",
        r#"["x","100x3x0/0",101]"#,
        Wanted::Param("bias"),
    ),
    (
        "askrene-bias-channel",
        r#"["x","100x3x0/0",-101]"#,
        Wanted::Param("bias"),
    ),
    (
        "askrene-bias-channel",
        r#"["x","100x3x0/0",18446744073709551615]"#,
        Wanted::Param("bias"),
    ),
    (
        "askrene-bias-channel",
        r#"["x","100x3x0/0",1e2]"#,
        Wanted::Param("bias"),
    ),
    (
        "askrene-disable-node",
        r#"["x","02BBBBBBBBBBBBBBBBBBBBBBBBBBBBBBBBBBBBBBBBBBBBBBBBBBBBBBBBBBBBBBBB"]"#,
        Wanted::Good,
    ),
    (
        "askrene-disable-node",
        r#"["x","02aaaaaaaaaaaaaaaaaaaaaaaaaaaaaaaaaaaaaaaaaaaaaaaaaaaaaaaaaaaaaaa"]"#,
        Wanted::Param("node"),
    ),
    (
        "askrene-disable-node",
        r#"{"layer":"x","node":"04aaaaaaaaaaaaaaaaaaaaaaaaaaaaaaaaaaaaaaaaaaaaaaaaaaaaaaaaaaaaaaaa"}"#,
        Wanted::Param("node"),
    ),
    (
        "askrene-disable-node",
        r#"{"node":5}"#,
        Wanted::Param("layer"),
    ),
    ("askrene-age", r#"["x",0]"#, Wanted::Good),
    ("askrene-age", r#"["x",18446744073709551615]"#, Wanted::Good),
    (
        "askrene-age",
        r#"["x",18446744073709551616]"#,
        Wanted::Param("cutoff"),
    ),
    ("askrene-age", r#"["x","5"]"#, Wanted::Param("cutoff")),
    ("askrene-age", r#"["x"]"#, Wanted::Param("cutoff")),
    (
        "askrene-reserve",
        r#"{"path":[{"short_channel_id_dir":"100x3x0/0","amount_msat":5}]}"#,
        Wanted::Good,
    ),
    (
        "askrene-reserve",
        r#"{"path":[{"short_channel_id_dir":"0100x003x00/1","amount_msat":"0005msat"}]}"#,
        Wanted::Good,
    ),
    (
        "askrene-reserve",
        r#"{"path":[{"short_channel_id_dir":"100x3x0/0","amount_msat":0},{"short_channel_id_dir":"100x3x0/0","amount_msat":"0"}]}"#,
        Wanted::Good,
    ),
    (
        "askrene-reserve",
        r#"{"path":[{"short_channel_id_dir":"100x3x0/0","amount_msat":2100000000000000000}]}"#,
        Wanted::Good,
    ),
    (
        "askrene-reserve",
        r#"{"path":[{"short_channel_id_dir":"100x3x0/0","amount_msat":5,"a":null,"layer":[1]}]}"#,
        Wanted::Good,
    ),
    (
        "askrene-reserve",
        r#"{"path":[{"short_channel_id_dir":5,"amount_msat":-1,"short_channel_id_dir":"100x3x0/0","amount_msat":5}]}"#,
        Wanted::Good,
    ),
    (
        "askrene-reserve",
        r#"[[{"short_channel_id_dir":"100x3x0/0","amount_msat":5}]]"#,
        Wanted::Good,
    ),
    ("askrene-reserve", "{}", Wanted::Param("path")),
    ("askrene-reserve", "[null]", Wanted::Param("path")),
    (
        "askrene-reserve",
        r#"{"path":{"short_channel_id_dir":"100x3x0/0","amount_msat":5}}"#,
        Wanted::Param("path"),
    ),
    ("askrene-reserve", "[[]]", Wanted::Param("path")),
    ("askrene-reserve", "[[5]]", Wanted::Param("path")),
    ("askrene-reserve", "[[null]]", Wanted::Param("path")),
    (
        "askrene-reserve",
        r#"[[["100x3x0/0",5]]]"#,
        Wanted::Param("path"),
    ),
    (
        "askrene-reserve",
        r#"[[{"short_channel_id_dir":"100x3x0/0","amount_msat":5},"100x3x0/0"]]"#,
        Wanted::Param("path"),
    ),
    (
        "askrene-reserve",
        r#"[[{"amount_msat":5}]]"#,
        Wanted::Param("path"),
    ),
    (
        "askrene-reserve",
        r#"[[{"short_channel_id_dir":"100x3x0/2","amount_msat":5}]]"#,
        Wanted::Param("path"),
    ),
    (
        "askrene-reserve",
        r#"[[{"short_channel_id_dir":"100x3x0","amount_msat":5}]]"#,
        Wanted::Param("path"),
    ),
    (
        "askrene-reserve",
        r#"[[{"short_channel_id_dir":null,"amount_msat":5}]]"#,
        Wanted::Param("path"),
    ),
    (
        "askrene-reserve",
        r#"[[{"short_channel_id_dir":"100x3x0/0"}]]"#,
        Wanted::Param("path"),
    ),
    (
        "askrene-reserve",
        r#"[[{"short_channel_id_dir":"100x3x0/0","amount_msat":null}]]"#,
        Wanted::Param("path"),
    ),
    (
        "askrene-reserve",
        r#"[[{"short_channel_id_dir":"100x3x0/0","amount_msat":-1}]]"#,
        Wanted::Param("path"),
    ),
    (
        "askrene-reserve",
        r#"[[{"short_channel_id_dir":"100x3x0/0","amount_msat":1.0}]]"#,
        Wanted::Param("path"),
    ),
    (
        "askrene-reserve",
        r#"[[{"short_channel_id_dir":"100x3x0/0","amount_msat":2100000000000000001}]]"#,
        Wanted::Param("path"),
    ),
    (
        "askrene-reserve",
        r#"[[{"short_channel_id_dir":"100x3x0/0","amount_msat":"5sat"}]]"#,
        Wanted::Param("path"),
    ),
    (
        "askrene-reserve",
        r#"[[{"short_channel_id_dir":"100x3x0/0","amount_msat":5,"amount_msat":null}]]"#,
        Wanted::Param("path"),
    ),
    (
        "askrene-reserve",
        r#"[[{"short_channel_id_dir":"100x3x0/0","amount_msat":5},{"short_channel_id_dir":"100x3x0/0"}]]"#,
        Wanted::Param("path"),
    ),
    (
        "askrene-reserve",
        r#"[[{"short_channel_id_dir":"100x3x0/0","amount_msat":5}],null]"#,
        Wanted::Param("params"),
    ),
    (
        "askrene-reserve",
        r#"{"path":[{"short_channel_id_dir":"100x3x0/0","amount_msat":5}],"layer":"x"}"#,
        Wanted::Param("layer"),
    ),
    (
        "askrene-reserve",
        r#"{"path":[],"layer":"x"}"#,
        Wanted::Param("path"),
    ),
    (
        "askrene-unreserve",
        r#"[[{"short_channel_id_dir":"100x3x0/1","amount_msat":"7"}]]"#,
        Wanted::Good,
    ),
    (
        "askrene-unreserve",
        r#"{"path":[{"short_channel_id_dir":"100x3x0/0","amount_msat":5,"now":1}]}"#,
        Wanted::Good,
    ),
    ("askrene-unreserve", "[]", Wanted::Param("path")),
    ("askrene-unreserve", "[[]]", Wanted::Param("path")),
    (
        "askrene-unreserve",
        r#"[[{"short_channel_id_dir":"100x3x0/0","amount_msat":"x"}]]"#,
        Wanted::Param("path"),
    ),
    (
        "askrene-unreserve",
        r#"{"path":[{"short_channel_id_dir":"100x3x0/0","amount_msat":5}],"b":1,"a":2}"#,
        Wanted::Param("a"),
    ),
    ("askrene-listreservations", "null", Wanted::Good),
    ("askrene-listreservations", "{}", Wanted::Good),
    ("askrene-listreservations", "[]", Wanted::Good),
    (
        "askrene-listreservations",
        "[null]",
        Wanted::Param("params"),
    ),
    (
        "askrene-listreservations",
        r#"{"path":null}"#,
        Wanted::Param("path"),
    ),
    (
        "askrene-listreservations",
        r#"{"now":1,"a":null,"layer":"x"}"#,
        Wanted::Param("a"),
    ),
];

const CHANNELS: &[(&str, &str, Wanted)] = &[
    (
        "askrene-create-channel",
        r#"["x","02aaaaaaaaaaaaaaaaaaaaaaaaaaaaaaaaaaaaaaaaaaaaaaaaaaaaaaaaaaaaaaaa","02dddddddddddddddddddddddddddddddddddddddddddddddddddddddddddddddd","100x3x0",1]"#,
        Wanted::Good,
    ),
    (
        "askrene-create-channel",
        r#"{"layer":"x","source":"02dddddddddddddddddddddddddddddddddddddddddddddddddddddddddddddddd","destination":"02aaaaaaaaaaaaaaaaaaaaaaaaaaaaaaaaaaaaaaaaaaaaaaaaaaaaaaaaaaaaaaaa","short_channel_id":"0100x3x0","capacity_msat":"2100000000000000000msat"}"#,
        Wanted::Good,
    ),
    (
        "askrene-create-channel",
        r#"["auto.x","02aaaaaaaaaaaaaaaaaaaaaaaaaaaaaaaaaaaaaaaaaaaaaaaaaaaaaaaaaaaaaaaa","02dddddddddddddddddddddddddddddddddddddddddddddddddddddddddddddddd","100x3x0",1]"#,
        Wanted::Param("layer"),
    ),
    (
        "askrene-create-channel",
        r#"["x","04","02dddddddddddddddddddddddddddddddddddddddddddddddddddddddddddddddd","100x3x0",1]"#,
        Wanted::Param("source"),
    ),
    (
        "askrene-create-channel",
        r#"["x","02aaaaaaaaaaaaaaaaaaaaaaaaaaaaaaaaaaaaaaaaaaaaaaaaaaaaaaaaaaaaaaaa"]"#,
        Wanted::Param("destination"),
    ),
    (
        "askrene-create-channel",
        r#"["x","02aaaaaaaaaaaaaaaaaaaaaaaaaaaaaaaaaaaaaaaaaaaaaaaaaaaaaaaaaaaaaaaa","02dddddddddddddddddddddddddddddddddddddddddddddddddddddddddddddddd","100x3x0/0",1]"#,
        Wanted::Param("short_channel_id"),
    ),
    (
        "askrene-create-channel",
        r#"["x","02aaaaaaaaaaaaaaaaaaaaaaaaaaaaaaaaaaaaaaaaaaaaaaaaaaaaaaaaaaaaaaaa","02dddddddddddddddddddddddddddddddddddddddddddddddddddddddddddddddd","100x3x0",0]"#,
        Wanted::Param("capacity_msat"),
    ),
    (
        "askrene-create-channel",
        r#"["x","02aaaaaaaaaaaaaaaaaaaaaaaaaaaaaaaaaaaaaaaaaaaaaaaaaaaaaaaaaaaaaaaa","02dddddddddddddddddddddddddddddddddddddddddddddddddddddddddddddddd","100x3x0",2100000000000000001]"#,
        Wanted::Param("capacity_msat"),
    ),
    (
        "askrene-create-channel",
        r#"["x","02dddddddddddddddddddddddddddddddddddddddddddddddddddddddddddddddd","02DDDDDDDDDDDDDDDDDDDDDDDDDDDDDDDDDDDDDDDDDDDDDDDDDDDDDDDDDDDDDDDD","100x3x0",1]"#,
        Wanted::Param("destination"),
    ),
    (
        "askrene-create-channel",
        r#"["x","02dddddddddddddddddddddddddddddddddddddddddddddddddddddddddddddddd","02DDDDDDDDDDDDDDDDDDDDDDDDDDDDDDDDDDDDDDDDDDDDDDDDDDDDDDDDDDDDDDDD","100x3x0",0]"#,
        Wanted::Param("capacity_msat"),
    ),
    (
        "askrene-create-channel",
        r#"["x","02aaaaaaaaaaaaaaaaaaaaaaaaaaaaaaaaaaaaaaaaaaaaaaaaaaaaaaaaaaaaaaaa","02dddddddddddddddddddddddddddddddddddddddddddddddddddddddddddddddd","100x3x0",1,2]"#,
        Wanted::Param("params"),
    ),
    (
        "askrene-create-channel",
        r#"{"layer":"x","source":"02dddddddddddddddddddddddddddddddddddddddddddddddddddddddddddddddd","destination":"02aaaaaaaaaaaaaaaaaaaaaaaaaaaaaaaaaaaaaaaaaaaaaaaaaaaaaaaaaaaaaaaa","short_channel_id":"100x3x0","capacity_msat":1,"b":1}"#,
        Wanted::Param("b"),
    ),
];

const ASKS: &[(&str, &str, Wanted)] = &[
    (
        "getroutes",
        r#"["02aaaaaaaaaaaaaaaaaaaaaaaaaaaaaaaaaaaaaaaaaaaaaaaaaaaaaaaaaaaaaaaa","02dddddddddddddddddddddddddddddddddddddddddddddddddddddddddddddddd",1,[],0,18]"#,
        Wanted::Good,
    ),
    (
        "getroutes",
        r#"["02aaaaaaaaaaaaaaaaaaaaaaaaaaaaaaaaaaaaaaaaaaaaaaaaaaaaaaaaaaaaaaaa","02dddddddddddddddddddddddddddddddddddddddddddddddddddddddddddddddd","5msat",["x","auto.localchans","auto","auto.sourcefree","auto.no_mpp_support"],"0",65535,null,null,null]"#,
        Wanted::Good,
    ),
    (
        "getroutes",
        r#"{"source":"02aaaaaaaaaaaaaaaaaaaaaaaaaaaaaaaaaaaaaaaaaaaaaaaaaaaaaaaaaaaaaaaa","destination":"02dddddddddddddddddddddddddddddddddddddddddddddddddddddddddddddddd","amount_msat":2100000000000000000,"layers":["x","x"],"maxfee_msat":2100000000000000000,"final_cltv":0,"maxdelay":65535,"maxparts":1,"certificate":true}"#,
        Wanted::Good,
    ),
    (
        "getroutes",
        r#"[5,"02dddddddddddddddddddddddddddddddddddddddddddddddddddddddddddddddd",1,[],0,18]"#,
        Wanted::Param("source"),
    ),
    (
        "getroutes",
        r#"{"source":"02aaaaaaaaaaaaaaaaaaaaaaaaaaaaaaaaaaaaaaaaaaaaaaaaaaaaaaaaaaaaaaaa"}"#,
        Wanted::Param("destination"),
    ),
    (
        "getroutes",
        r#"["02aaaaaaaaaaaaaaaaaaaaaaaaaaaaaaaaaaaaaaaaaaaaaaaaaaaaaaaaaaaaaaaa","02dddddddddddddddddddddddddddddddddddddddddddddddddddddddddddddddd",0,[],0,18]"#,
        Wanted::Param("amount_msat"),
    ),
    (
        "getroutes",
        r#"["02aaaaaaaaaaaaaaaaaaaaaaaaaaaaaaaaaaaaaaaaaaaaaaaaaaaaaaaaaaaaaaaa","02dddddddddddddddddddddddddddddddddddddddddddddddddddddddddddddddd",2100000000000000001,[],0,18]"#,
        Wanted::Param("amount_msat"),
    ),
    (
        "getroutes",
        r#"["02aaaaaaaaaaaaaaaaaaaaaaaaaaaaaaaaaaaaaaaaaaaaaaaaaaaaaaaaaaaaaaaa","02dddddddddddddddddddddddddddddddddddddddddddddddddddddddddddddddd",1,null,0,18]"#,
        Wanted::Param("layers"),
    ),
    (
        "getroutes",
        r#"["02aaaaaaaaaaaaaaaaaaaaaaaaaaaaaaaaaaaaaaaaaaaaaaaaaaaaaaaaaaaaaaaa","02dddddddddddddddddddddddddddddddddddddddddddddddddddddddddddddddd",1,["auto."],0,18]"#,
        Wanted::Param("layers"),
    ),
    (
        "getroutes",
        r#"["02aaaaaaaaaaaaaaaaaaaaaaaaaaaaaaaaaaaaaaaaaaaaaaaaaaaaaaaaaaaaaaaa","02dddddddddddddddddddddddddddddddddddddddddddddddddddddddddddddddd",1,["x",5],0,18]"#,
        Wanted::Param("layers"),
    ),
    (
        "getroutes",
        r#"["02aaaaaaaaaaaaaaaaaaaaaaaaaaaaaaaaaaaaaaaaaaaaaaaaaaaaaaaaaaaaaaaa","02dddddddddddddddddddddddddddddddddddddddddddddddddddddddddddddddd",1,["x","x","x","x","x","x","x","x","x","x","x","x","x","x","x","x","x","x","x","x","x","x","x","x","x","x","x","x","x","x","x","x","x","x","x","x","x","x","x","x","x","x","x","x","x","x","x","x","x","x","x","x","x","x","x","x","x","x","x","x","x","x","x","x"],0,18]"#,
        Wanted::Good,
    ),
    (
        "getroutes",
        r#"["02aaaaaaaaaaaaaaaaaaaaaaaaaaaaaaaaaaaaaaaaaaaaaaaaaaaaaaaaaaaaaaaa","02dddddddddddddddddddddddddddddddddddddddddddddddddddddddddddddddd",1,["x","x","x","x","x","x","x","x","x","x","x","x","x","x","x","x","x","x","x","x","x","x","x","x","x","x","x","x","x","x","x","x","x","x","x","x","x","x","x","x","x","x","x","x","x","x","x","x","x","x","x","x","x","x","x","x","x","x","x","x","x","x","x","x","x"],0,18]"#,
        Wanted::Param("layers"),
    ),
    (
        "getroutes",
        r#"["02aaaaaaaaaaaaaaaaaaaaaaaaaaaaaaaaaaaaaaaaaaaaaaaaaaaaaaaaaaaaaaaa","02dddddddddddddddddddddddddddddddddddddddddddddddddddddddddddddddd",1,[],-1,18]"#,
        Wanted::Param("maxfee_msat"),
    ),
    (
        "getroutes",
        r#"["02aaaaaaaaaaaaaaaaaaaaaaaaaaaaaaaaaaaaaaaaaaaaaaaaaaaaaaaaaaaaaaaa","02dddddddddddddddddddddddddddddddddddddddddddddddddddddddddddddddd",1,[],0,65536]"#,
        Wanted::Param("final_cltv"),
    ),
    (
        "getroutes",
        r#"["02aaaaaaaaaaaaaaaaaaaaaaaaaaaaaaaaaaaaaaaaaaaaaaaaaaaaaaaaaaaaaaaa","02dddddddddddddddddddddddddddddddddddddddddddddddddddddddddddddddd",1,[],0,18,65536]"#,
        Wanted::Param("maxdelay"),
    ),
    (
        "getroutes",
        r#"["02aaaaaaaaaaaaaaaaaaaaaaaaaaaaaaaaaaaaaaaaaaaaaaaaaaaaaaaaaaaaaaaa","02dddddddddddddddddddddddddddddddddddddddddddddddddddddddddddddddd",1,[],0,18,null,0]"#,
        Wanted::Param("maxparts"),
    ),
    (
        "getroutes",
        r#"["02aaaaaaaaaaaaaaaaaaaaaaaaaaaaaaaaaaaaaaaaaaaaaaaaaaaaaaaaaaaaaaaa","02dddddddddddddddddddddddddddddddddddddddddddddddddddddddddddddddd",1,[],0,18,null,101]"#,
        Wanted::Param("maxparts"),
    ),
    (
        "getroutes",
        r#"["02aaaaaaaaaaaaaaaaaaaaaaaaaaaaaaaaaaaaaaaaaaaaaaaaaaaaaaaaaaaaaaaa","02dddddddddddddddddddddddddddddddddddddddddddddddddddddddddddddddd",1,[],0,18,null,null,1]"#,
        Wanted::Param("certificate"),
    ),
    (
        "getroutes",
        r#"["02dddddddddddddddddddddddddddddddddddddddddddddddddddddddddddddddd","02DDDDDDDDDDDDDDDDDDDDDDDDDDDDDDDDDDDDDDDDDDDDDDDDDDDDDDDDDDDDDDDD",1,[],0,18]"#,
        Wanted::Param("destination"),
    ),
    (
        "getroutes",
        r#"["02dddddddddddddddddddddddddddddddddddddddddddddddddddddddddddddddd","02DDDDDDDDDDDDDDDDDDDDDDDDDDDDDDDDDDDDDDDDDDDDDDDDDDDDDDDDDDDDDDDD",1,[],0,18,null,101]"#,
        Wanted::Param("maxparts"),
    ),
    (
        "getroutes",
        r#"["02aaaaaaaaaaaaaaaaaaaaaaaaaaaaaaaaaaaaaaaaaaaaaaaaaaaaaaaaaaaaaaaa","02dddddddddddddddddddddddddddddddddddddddddddddddddddddddddddddddd",1,[],0,18,null,null,null,null]"#,
        Wanted::Param("params"),
    ),
    (
        "getroutes",
        r#"{"source":"02dddddddddddddddddddddddddddddddddddddddddddddddddddddddddddddddd","destination":"02dddddddddddddddddddddddddddddddddddddddddddddddddddddddddddddddd","amount_msat":1,"layers":[],"maxfee_msat":0,"final_cltv":18,"b":1}"#,
        Wanted::Param("destination"),
    ),
    (
        "getroutes",
        r#"{"source":"02aaaaaaaaaaaaaaaaaaaaaaaaaaaaaaaaaaaaaaaaaaaaaaaaaaaaaaaaaaaaaaaa","destination":"02dddddddddddddddddddddddddddddddddddddddddddddddddddddddddddddddd","amount_msat":1,"layers":[],"maxfee_msat":0,"final_cltv":18,"b":null}"#,
        Wanted::Param("b"),
    ),
];

#[test]
fn requests_are_read_or_refused(rt: HostRuntime) {
    for (method, params, wanted) in ROWS {
        assert!(rt;
            is_answered(rt.alloc(), method, params, *wanted),
            "{method} {params}"
        );
    }
}

#[test]
fn channels_are_read_or_refused(rt: HostRuntime) {
    for (method, params, wanted) in CHANNELS {
        assert!(rt;
            is_answered(rt.alloc(), method, params, *wanted),
            "{method} {params}"
        );
    }
}

#[test]
fn asks_are_read_or_refused(rt: HostRuntime) {
    for (method, params, wanted) in ASKS {
        assert!(rt;
            is_answered(rt.alloc(), method, params, *wanted),
            "{method} {params}"
        );
    }
}

/// The command of a request, if it is one.
pub(crate) fn command_in(alloc: Global, method: &str, params: &str) -> Option<Command>
    ensures { IfSome result IsGoodCommand }
{
    let request = request_of(alloc, method, params).ok()?;
    command_of(alloc, &request).ok()
}

fn has_every_field(command: &Command) -> bool {
    matches!(
        command,
        Command::UpdateChannel {
            change: Update {
                enabled: Some(false),
                htlc_min: Some(1),
                htlc_max: Some(2),
                base: Some(3),
                ppm: Some(4),
                delay: Some(5),
                ..
            },
            ..
        }
    )
}

#[test]
fn every_field_of_an_update_is_read(rt: HostRuntime) {
    let params = r#"["x","100x3x0/1",false,1,"2msat",3,4,5]"#;
    let command = command_in(rt.alloc(), "askrene-update-channel", params);
    assert!(rt; command.is_some_and(|command| has_every_field(&command)));
}

// The parameters of a reservation of so many items.
fn long_path(alloc: Global, count: usize) -> Result<String, NoMemory> {
    let mut params = "[[".to_string(alloc)?;
    for at in 0..count {
        if at > 0 {
            params.push(',')?;
        }
        params.push_str(r#"{"short_channel_id_dir":"100x3x0/0","amount_msat":5}"#)?;
    }
    params.push_str("]]")?;
    Ok(params)
}

fn is_long_answered(alloc: Global, method: &str, count: usize, wanted: Wanted) -> bool {
    long_path(alloc, count).is_ok_and(|params| is_answered(alloc, method, params.as_str(), wanted))
}

const LONG: &[(&str, usize, Wanted)] = &[
    ("askrene-reserve", 1_000, Wanted::Good),
    ("askrene-reserve", 1_001, Wanted::Param("path")),
    ("askrene-unreserve", 1_000, Wanted::Good),
    ("askrene-unreserve", 1_001, Wanted::Param("path")),
];

#[test]
fn a_path_has_at_most_1000_items(rt: HostRuntime) {
    for (method, count, wanted) in LONG {
        assert!(rt;
            is_long_answered(rt.alloc(), method, *count, *wanted),
            "{method} {count}"
        );
    }
}
