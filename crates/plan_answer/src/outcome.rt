ghost use Rattle.std.specs.Prelude.{◌≡◌, All, IfOk, OnOk, codes, false, length};
ghost use Rattle.serde_json.specs.Data.{member, no_members, string};
ghost use Rattle.serde_json.specs.View.{members_view, view as data_of};
ghost use Rattle.serde_json.specs.Written.{has_float};
ghost use Rattle.flow_model.specs.Instance.{Net};
ghost use Rattle.plan_answer.specs.EventReply.{at_place};
ghost use Rattle.plan_answer.specs.Order.{IsBefore};
ghost use Rattle.plan_answer.specs.Records.{member_if};
ghost use Rattle.plan_answer.specs.RoutesReply.{no_flow_content, outcome_content, over_delay_content, over_fee_content, routes_content, too_large_content};
ghost use Rattle.plan_answer.specs.Within.{IsOutcomeOf, IsRoundOf};

use crate::certified::{cut_text, flow_text};
use crate::in_view::{fee_value, list_value_in};
use crate::printed::put_value;
use crate::routes::{cut_value, route_list};
use certificate::CertRefusal;
use layer::Ask;
use plan_base::{NoMemory, Text};
use round_rules::{Outcome, Run};
use rpc_lines::Body;
use serde_json::{Map, Value, put};
use std::alloc::Global;
use view_build::View;

/// What a run of rounds and its outcome answer at a position of the history.
#[tactic(auto, using(crate::proofs::Floats::rounds_none, crate::proofs::Floats::routes_none, crate::proofs::Floats::nodes_none))]
pub(crate) fn outcome_body(
    alloc: Global,
    view: &View,
    ask: &Ask,
    at: u64,
    run: &Run,
) -> Result<Body, NoMemory>
    requires rounds { All (IsRoundOf view.now) run.now.rounds }
    requires outcome { IsOutcomeOf view.now run.now.outcome }
    ensures { IfOk result (λ body. body ≡ outcome_content view.now ask.now at run.now.rounds run.now.outcome) }
{
    let rounds = list_value_in(alloc, view, run.rounds.as_slice())?;
    match &run.outcome {
        Outcome::Parts {
            routes,
            fee,
            ppm,
            instance,
            flow,
            potentials,
        } => {
            let routes = route_list(alloc, view, ask, routes.as_slice())?;
            match flow_text(alloc, ask, instance, flow, potentials.as_slice()) {
                Ok(certificate) => routes_body(alloc, at, certificate, *fee, *ppm, rounds, routes),
                Err(CertRefusal::TooLarge { arcs, nodes }) => {
                    too_large_body(alloc, at, arcs, nodes, rounds)
                }
                Err(CertRefusal::NoMemory) => Err(NoMemory),
            }
        }
        Outcome::NoFlow { instance, side } => {
            let cut = cut_value(alloc, view, side.as_slice())?;
            let certificate = cut_text(alloc, ask, instance, side.as_slice())?;
            no_flow_body(alloc, at, certificate, cut, rounds)
        }
        Outcome::OverFee { fee } => over_fee_body(alloc, at, *fee, rounds),
        Outcome::OverDelay { part, delay } => over_delay_body(alloc, at, *part, *delay, rounds),
    }
}

#[tactic(auto, unfolding(crate::specs::RoutesReply::routes_content, crate::specs::Order::IsBefore), using(crate::proofs::Floats::certified_none))]
fn routes_body(
    alloc: Global,
    at: u64,
    certificate: Option<Text>,
    fee: u128,
    ppm: u64,
    rounds: Value,
    routes: Value,
) -> Result<Body, NoMemory>
    requires rounds { has_float (data_of rounds) ≡ false }
    requires routes { has_float (data_of routes) ≡ false }
    ensures { IfOk result (λ body. body ≡ routes_content at certificate fee ppm (data_of rounds) (data_of routes)) }
{
    let mut members = Map::new(alloc);
    put(&mut members, alloc, "fee_msat", fee_value(alloc, fee)?)?;
    put(&mut members, alloc, "probability_ppm", Value::from(ppm))?;
    put(&mut members, alloc, "rounds", rounds)?;
    put(&mut members, alloc, "routes", routes)?;
    let object = with_certificate(alloc, at, certificate, members)?;
    Ok(Body::result(object))
}

// An object of `at`, the certificate if there is one, and the other members, whose keys come later.
fn with_certificate(
    alloc: Global,
    at: u64,
    certificate: Option<Text>,
    mut members: Map<String, Value>,
) -> Result<Value, NoMemory>
    requires { IsBefore (codes "certificate") (members_view members.entries) }
    ensures { IfOk result (λ object. data_of object ≡ at_place at (member_if (codes "certificate") string certificate (members_view members.entries))) }
{
    put_certificate(&mut members, alloc, certificate)?;
    put_value(&mut members, alloc, "at", &at)?;
    Ok(Value::Object(members))
}

// Adds the certificate before all other members, if there is one.
fn put_certificate(
    members: &mut Map<String, Value>,
    alloc: Global,
    certificate: Option<Text>,
) -> Result<(), NoMemory>
    requires { IsBefore (codes "certificate") (members_view members.old.entries) }
    ensures { OnOk result (members_view members.new.entries ≡ member_if (codes "certificate") string certificate (members_view members.old.entries)) }
{
    if let Some(text) = certificate {
        put(members, alloc, "certificate", text_value(text))?;
    }
    Ok(())
}

// The text is moved, since a certificate may be long.
fn text_value(text: Text) -> Value
    ensures { data_of result ≡ string text }
{
    Value::String(text.into_string())
}

#[tactic(auto, unfolding(crate::specs::RoutesReply::too_large_content))]
fn too_large_body(
    alloc: Global,
    at: u64,
    arcs: u64,
    nodes: u64,
    rounds: Value,
) -> Result<Body, NoMemory>
    requires { has_float (data_of rounds) ≡ false }
    ensures { IfOk result (λ body. (net : Net) → arcs ≡ length net.arcs → nodes ≡ net.nodes → body ≡ too_large_content at net (data_of rounds)) }
{
    let mut members = Map::new(alloc);
    put_value(&mut members, alloc, "arcs", &arcs)?;
    put_value(&mut members, alloc, "at", &at)?;
    put_value(&mut members, alloc, "nodes", &nodes)?;
    put(&mut members, alloc, "rounds", rounds)?;
    Body::error(alloc, 309, "certificate too large", Value::Object(members))
}

#[tactic(auto, unfolding(crate::specs::RoutesReply::no_flow_content, crate::specs::Order::IsBefore), using(crate::proofs::Floats::certified_none))]
fn no_flow_body(
    alloc: Global,
    at: u64,
    certificate: Option<Text>,
    cut: Value,
    rounds: Value,
) -> Result<Body, NoMemory>
    requires cut { has_float (data_of cut) ≡ false }
    requires rounds { has_float (data_of rounds) ≡ false }
    ensures { IfOk result (λ body. body ≡ no_flow_content at certificate (data_of cut) (data_of rounds)) }
{
    let mut members = Map::new(alloc);
    put(&mut members, alloc, "cut", cut)?;
    put(
        &mut members,
        alloc,
        "limit",
        Value::try_from_str(alloc, "flow")?,
    )?;
    put(&mut members, alloc, "rounds", rounds)?;
    let detail = with_certificate(alloc, at, certificate, members)?;
    Body::error(alloc, 205, "no flow", detail)
}

#[tactic(auto, unfolding(crate::specs::RoutesReply::over_fee_content))]
fn over_fee_body(alloc: Global, at: u64, fee: u128, rounds: Value) -> Result<Body, NoMemory>
    requires { has_float (data_of rounds) ≡ false }
    ensures { IfOk result (λ body. body ≡ over_fee_content at fee (data_of rounds)) }
{
    let mut members = Map::new(alloc);
    put_value(&mut members, alloc, "at", &at)?;
    put(&mut members, alloc, "fee_msat", fee_value(alloc, fee)?)?;
    put(
        &mut members,
        alloc,
        "limit",
        Value::try_from_str(alloc, "maxfee")?,
    )?;
    put(&mut members, alloc, "rounds", rounds)?;
    Body::error(alloc, 206, "fee too high", Value::Object(members))
}

#[tactic(auto, unfolding(crate::specs::RoutesReply::over_delay_content))]
fn over_delay_body(
    alloc: Global,
    at: u64,
    part: u32,
    delay: u64,
    rounds: Value,
) -> Result<Body, NoMemory>
    requires { has_float (data_of rounds) ≡ false }
    ensures { IfOk result (λ body. body ≡ over_delay_content at part delay (data_of rounds)) }
{
    let mut members = Map::new(alloc);
    put_value(&mut members, alloc, "at", &at)?;
    put_value(&mut members, alloc, "delay", &delay)?;
    put(
        &mut members,
        alloc,
        "limit",
        Value::try_from_str(alloc, "maxdelay")?,
    )?;
    put_value(&mut members, alloc, "part", &part)?;
    put(&mut members, alloc, "rounds", rounds)?;
    Body::error(alloc, 205, "delay too high", Value::Object(members))
}
