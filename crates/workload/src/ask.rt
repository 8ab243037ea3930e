ghost use Rattle.std.specs.Prelude.{◌≡◌, ◌≤◌, ◌++◌, ℕ, List, IfOk};
ghost use Rattle.json.specs.Print.{print};
ghost use Rattle.serde_json.specs.Written.{compact_text};
ghost use Rattle.workload.specs.Request.{ask_params, request_line, lines_text_of};
ghost use Rattle.workload.specs.Tokens.{request_tokens, params_tokens};

use crate::draws::Draws;
use crate::limits::{ASKS_MAX, CHANNELS_MAX, NODES_MAX, NODES_MIN};
use crate::members::{write_no_items, write_number, write_string};
use crate::node::node_text;
use crate::payment::{Payment, draw_payment};
use json::Writer;
use plan_base::{MAX, NoMemory};
use std::alloc::{AllocError, Global};

/// The draws of one channel.
const CHANNEL_DRAWS: u32 = 8;

/// The lines of the requests for routes, with ids from 0. Their draws follow those of the channels.
#[tactic(auto, using(crate::proofs::Turns::one_more_request), unfolding(crate::specs::Request::lines_text_of))]
pub fn ask_lines(
    alloc: Global,
    number: u64,
    nodes: u32,
    channels: u32,
    asks: u32,
) -> Result<Vec<u8>, NoMemory>
    requires some_nodes { NODES_MIN ≤ nodes }
    requires few_nodes { nodes ≤ NODES_MAX }
    requires few_channels { channels ≤ CHANNELS_MAX }
    requires few_asks { asks ≤ ASKS_MAX }
    ensures { IfOk result (λ text. text.items ≡ lines_text_of number nodes channels asks) }
{
    let mut draws = Draws::new(number);
    draws.skip(CHANNEL_DRAWS * channels);
    let mut text = Vec::new(alloc);
    for id in 0..asks {
        let payment = draw_payment(&mut draws, nodes);
        text = write_request(alloc, text, id, &payment)?;
    }
    Ok(text)
}

/// Appends the line of a request.
#[tactic(auto, using(crate::proofs::Texts::request_text))]
fn write_request(
    alloc: Global,
    text: Vec<u8>,
    id: u32,
    payment: &Payment,
) -> Result<Vec<u8>, NoMemory>
    ensures { IfOk result (λ whole. whole.items ≡ text.items ++ request_line id payment.now) }
{
    let text = write_start(text, u64::from(id))?;
    let mut text = write_params(alloc, text, payment)?;
    text.extend_from_slice(b"}\n")?;
    Ok(text)
}

/// Appends what comes before the parameters.
fn write_start(text: Vec<u8>, id: u64) -> Result<Vec<u8>, AllocError>
    ensures { IfOk result (λ whole. whole.items ≡ text.items ++ print (request_tokens id)) }
{
    let mut out = Writer::new(text);
    out.begin_object()?;
    write_number(&mut out, "id", id)?;
    write_string(&mut out, "method", "getroutes")?;
    out.key("params")?;
    Ok(out.into_inner())
}

/// Appends the parameters.
#[tactic(auto, using(crate::proofs::Texts::params_text))]
fn write_params(alloc: Global, text: Vec<u8>, payment: &Payment) -> Result<Vec<u8>, NoMemory>
    ensures { IfOk result (λ whole. whole.items ≡ text.items ++ compact_text (ask_params payment.now)) }
{
    let source = node_text(alloc, payment.source)?;
    let destination = node_text(alloc, payment.destination)?;
    let whole = write_members(text, source.as_str(), destination.as_str(), payment.amount)?;
    Ok(whole)
}

fn write_members(
    text: Vec<u8>,
    source: &str,
    destination: &str,
    amount: u64,
) -> Result<Vec<u8>, AllocError>
    ensures { IfOk result (λ whole. whole.items ≡ text.items
        ++ print (params_tokens source.now destination.now amount)) }
{
    let mut out = Writer::new(text);
    out.begin_object()?;
    write_number(&mut out, "amount_msat", amount)?;
    write_string(&mut out, "destination", destination)?;
    write_number(&mut out, "final_cltv", 18)?;
    write_no_items(&mut out, "layers")?;
    write_number(&mut out, "maxdelay", 65_535)?;
    write_number(&mut out, "maxfee_msat", MAX)?;
    write_number(&mut out, "maxparts", 100)?;
    write_string(&mut out, "source", source)?;
    out.end_object()?;
    Ok(out.into_inner())
}
