//! Commands as they are written, and read back.
ghost use Rattle.askrene_command.specs.Command.{IsGoodCommand};

use crate::requests::command_in;
use askrene_command::Command;
use params::{method_of, params_of};
use plan_base::NoMemory;
use std::alloc::Global;

fn text_of(alloc: Global, command: &Command) -> Result<String, NoMemory>
    requires { IsGoodCommand command.now }
{
    let params = params_of(alloc, command)?;
    Ok(params.to_string(alloc)?)
}

fn shown(alloc: Global, command: &Command) -> Result<String, NoMemory> {
    Ok(format!(in alloc; "{command:?}")?)
}

// Two commands are shown as the same text.
fn is_same(alloc: Global, command: &Command, other: &Command) -> bool {
    match (shown(alloc, command), shown(alloc, other)) {
        (Ok(text), Ok(other)) => text.as_str() == other.as_str(),
        _ => false,
    }
}

// The command is written as this text, which is read as the same command.
fn is_written_as(alloc: Global, command: &Command, wanted: &str) -> bool
    requires { IsGoodCommand command.now }
{
    let Ok(text) = text_of(alloc, command) else {
        return false;
    };
    match command_in(alloc, method_of(command), text.as_str()) {
        Some(again) => text.as_str() == wanted && is_same(alloc, command, &again),
        None => false,
    }
}

fn is_written(alloc: Global, method: &str, params: &str, wanted: &str) -> bool {
    match command_in(alloc, method, params) {
        Some(command) => is_written_as(alloc, &command, wanted),
        None => false,
    }
}

const WRITTEN: &[(&str, &str, &str)] = &[
    ("askrene-create-layer", r#"["x"]"#, r#"{"layer":"x"}"#),
    ("askrene-remove-layer", r#"["x"]"#, r#"{"layer":"x"}"#),
    ("askrene-listlayers", "[null]", "{}"),
    ("askrene-listlayers", r#"["x"]"#, r#"{"layer":"x"}"#),
    (
        "askrene-update-channel",
        r#"["x","0100x3x0/1",false,"0msat",null,"7",9]"#,
        r#"{"enabled":false,"fee_base_msat":7,"fee_proportional_millionths":9,"htlc_minimum_msat":0,"layer":"x","short_channel_id_dir":"100x3x0/1"}"#,
    ),
    (
        "askrene-inform-channel",
        r#"["x","100x3x0/0","1msat","constrained"]"#,
        r#"{"amount_msat":1,"inform":"constrained","layer":"x","short_channel_id_dir":"100x3x0/0"}"#,
    ),
    (
        "askrene-inform-channel",
        r#"["x","100x3x0/0",7,"unconstrained"]"#,
        r#"{"amount_msat":7,"inform":"unconstrained","layer":"x","short_channel_id_dir":"100x3x0/0"}"#,
    ),
    (
        "askrene-inform-channel",
        r#"["x","100x3x0/0",0,"succeeded"]"#,
        r#"{"amount_msat":0,"inform":"succeeded","layer":"x","short_channel_id_dir":"100x3x0/0"}"#,
    ),
    (
        "askrene-bias-channel",
        r#"["x","100x3x0/0",-5]"#,
        r#"{"bias":-5,"layer":"x","short_channel_id_dir":"100x3x0/0"}"#,
    ),
    (
        "askrene-disable-node",
        r#"["x","02BBBBBBBBBBBBBBBBBBBBBBBBBBBBBBBBBBBBBBBBBBBBBBBBBBBBBBBBBBBBBBBB"]"#,
        r#"{"layer":"x","node":"02bbbbbbbbbbbbbbbbbbbbbbbbbbbbbbbbbbbbbbbbbbbbbbbbbbbbbbbbbbbbbbbb"}"#,
    ),
    (
        "askrene-age",
        r#"["x",101]"#,
        r#"{"cutoff":101,"layer":"x"}"#,
    ),
    (
        "askrene-reserve",
        r#"[[{"short_channel_id_dir":"0100x3x0/1","b":1,"amount_msat":"5msat"},{"amount_msat":0,"short_channel_id_dir":"99x0x1/0"}]]"#,
        r#"{"path":[{"amount_msat":5,"short_channel_id_dir":"100x3x0/1"},{"amount_msat":0,"short_channel_id_dir":"99x0x1/0"}]}"#,
    ),
    (
        "askrene-unreserve",
        r#"[[{"short_channel_id_dir":"100x3x0/0","amount_msat":2100000000000000000}]]"#,
        r#"{"path":[{"amount_msat":2100000000000000000,"short_channel_id_dir":"100x3x0/0"}]}"#,
    ),
    ("askrene-listreservations", "[]", "{}"),
    (
        "askrene-create-channel",
        r#"["x","02aaaaaaaaaaaaaaaaaaaaaaaaaaaaaaaaaaaaaaaaaaaaaaaaaaaaaaaaaaaaaaaa","02dddddddddddddddddddddddddddddddddddddddddddddddddddddddddddddddd","0100x3x0","1000msat"]"#,
        r#"{"capacity_msat":1000,"destination":"02dddddddddddddddddddddddddddddddddddddddddddddddddddddddddddddddd","layer":"x","short_channel_id":"100x3x0","source":"02aaaaaaaaaaaaaaaaaaaaaaaaaaaaaaaaaaaaaaaaaaaaaaaaaaaaaaaaaaaaaaaa"}"#,
    ),
    (
        "getroutes",
        r#"["02aaaaaaaaaaaaaaaaaaaaaaaaaaaaaaaaaaaaaaaaaaaaaaaaaaaaaaaaaaaaaaaa","02dddddddddddddddddddddddddddddddddddddddddddddddddddddddddddddddd","5msat",["x","auto.sourcefree","x"],0,18]"#,
        r#"{"amount_msat":5,"certificate":false,"destination":"02dddddddddddddddddddddddddddddddddddddddddddddddddddddddddddddddd","final_cltv":18,"layers":["x","auto.sourcefree"],"maxdelay":2016,"maxfee_msat":0,"maxparts":100,"source":"02aaaaaaaaaaaaaaaaaaaaaaaaaaaaaaaaaaaaaaaaaaaaaaaaaaaaaaaaaaaaaaaa"}"#,
    ),
];

#[test]
fn commands_are_written_and_read_back(rt: HostRuntime) {
    for (method, params, wanted) in WRITTEN {
        assert!(rt;
            is_written(rt.alloc(), method, params, wanted),
            "{method} {params}"
        );
    }
}
