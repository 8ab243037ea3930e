ghost use Rattle.std.specs.Prelude.{◌≡◌, IfOk};
ghost use Rattle.layer.specs.Ask.{IsGoodAsk};
ghost use Rattle.plan_answer.specs.RoutesReply.{AnswersAsk, TellsRunOn, unknown_end};

use crate::outcome::outcome_body;
use channel_map::{ChannelMap, Local};
use flow_model::Solve;
use layer::{Ask, Snapshot};
use limit_rounds::plan;
use plan_base::NoMemory;
use rpc_lines::Body;
use serde_json::json;
use std::alloc::Global;
use view_build::{View, ViewFault, build};

/// The body of the reply to the ask of a snapshot, which was taken at a position of the history: the routes of a run of
/// rounds on the view of the ask, over the channels of the map and of the local file, or why there are none.
///
/// A result has `at`, `fee_msat`, `probability_ppm`, `rounds`, `routes`, and `certificate` if the ask wants one. A
/// refusal is an error with `at` and more keys: `limit` for 205 `unknown source` and 205 `unknown destination`; with
/// `rounds` also `cut`, `limit`, and a `certificate` that is wanted and not too large for 205 `no flow`, `delay`, `limit`
/// and `part` for 205 `delay too high`, `fee_msat` and `limit` for 206 `fee too high`, `arcs` and `nodes` for 309
/// `certificate too large`.
pub fn answer<S: Solve>(
    alloc: Global,
    snapshot: Snapshot,
    at: u64,
    map: &ChannelMap,
    local: &Local,
    solver: &S,
) -> Result<Body, NoMemory>
    ensures { IfOk result (λ body. AnswersAsk map.now local.now snapshot at body) }
{
    match build(alloc, &snapshot, map, local) {
        Ok(view) => run_body(alloc, &view, snapshot.ask(), at, solver),
        Err(ViewFault::SourceUnknown) => end_body(alloc, "unknown source", "source", at),
        Err(ViewFault::DestinationUnknown) => {
            end_body(alloc, "unknown destination", "destination", at)
        }
        Err(ViewFault::NoMemory) => Err(NoMemory),
    }
}

// What a run of rounds on a view answers.
#[tactic(auto, using(crate::proofs::Runs::rounds_of_run, crate::proofs::Runs::outcome_of_run))]
fn run_body<S: Solve>(
    alloc: Global,
    view: &View,
    ask: &Ask,
    at: u64,
    solver: &S,
) -> Result<Body, NoMemory>
    requires { IsGoodAsk ask.now }
    ensures { IfOk result (λ body. TellsRunOn view.now ask.now at body) }
{
    // A view's invariant is known once the view is read.
    let _ = view.dirs();
    let run = plan(alloc, view, ask, solver)?;
    outcome_body(alloc, view, ask, at, &run)
}

// The error for an end of the ask that the view does not touch.
fn end_body(alloc: Global, message: &str, limit: &str, at: u64) -> Result<Body, NoMemory>
    ensures { IfOk result (λ body. body ≡ unknown_end message.now limit.now at) }
{
    let detail = json!(in alloc; {"at": at, "limit": limit})?;
    Body::error(alloc, 205, message, detail)
}
