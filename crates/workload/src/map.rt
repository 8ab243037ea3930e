ghost use Rattle.std.specs.Prelude.{◌≡◌, ◌≤◌, ◌<◌, ◌^◌, ◌++◌, ◌∷◌, ℕ, List, IfOk, OnOk, nat_lt, string_bytes};
ghost use Rattle.json.specs.Print.{print};
ghost use Rattle.serde_json.specs.Written.{compact_text, comma_if};
ghost use Rattle.plan_base.specs.Scid.{scid_number, scid_text};
ghost use Rattle.workload.specs.Map.{entry_data, forward_data, backward_data, map_text_of};
ghost use Rattle.workload.specs.Tokens.{entry_tokens};

use crate::channel::{Channel, Policy, draw_channel};
use crate::draws::Draws;
use crate::limits::{CHANNELS_MAX, NODES_MAX, NODES_MIN};
use crate::members::{write_number, write_string};
use crate::node::node_text;
use json::Writer;
use plan_base::{NoMemory, Scid};
use std::alloc::{AllocError, Global};

/// The text of the map, as `listchannels` prints channels: two entries for each channel, the one from its first end before
/// the one back.
#[tactic(auto, using(crate::proofs::Turns::one_more_channel), unfolding(crate::specs::Map::map_text_of))]
pub fn map_text(alloc: Global, number: u64, nodes: u32, channels: u32) -> Result<Vec<u8>, NoMemory>
    requires some_nodes { NODES_MIN ≤ nodes }
    requires few_nodes { nodes ≤ NODES_MAX }
    requires few_channels { channels ≤ CHANNELS_MAX }
    ensures { IfOk result (λ text. text.items ≡ map_text_of number nodes channels) }
{
    let mut draws = Draws::new(number);
    let mut text = Vec::new(alloc);
    text.extend_from_slice(b"{\"channels\":[")?;
    for place in 0..channels {
        let channel = draw_channel(&mut draws, nodes, place);
        text = write_channel(alloc, text, place, &channel)?;
    }
    text.extend_from_slice(b"]}")?;
    Ok(text)
}

/// Appends the two entries of a channel, with a comma before each but the first of the map.
#[tactic(auto, using(crate::proofs::Texts::two_entries))]
fn write_channel(
    alloc: Global,
    text: Vec<u8>,
    place: u32,
    channel: &Channel,
) -> Result<Vec<u8>, NoMemory>
    requires { place < 2 ^ 24 }
    ensures { IfOk result (λ whole. whole.items ≡ text.items ++ (comma_if (nat_lt 0 place)
        ++ (compact_text (forward_data place channel.now) ++ (44 ∷ compact_text (backward_data place channel.now))))) }
{
    let first = channel.first;
    let second = channel.second;
    let capacity = channel.capacity;
    let text = comma(text, place > 0)?;
    let text = write_entry(alloc, text, place, first, second, capacity, channel.forward)?;
    let text = comma(text, true)?;
    write_entry(
        alloc,
        text,
        place,
        second,
        first,
        capacity,
        channel.backward,
    )
}

/// Appends a comma if something comes before.
fn comma(mut text: Vec<u8>, later: bool) -> Result<Vec<u8>, NoMemory>
    ensures { IfOk result (λ whole. whole.items ≡ text.items ++ comma_if later) }
{
    if later {
        text.push(b',')?;
    }
    Ok(text)
}

/// Appends the entry of a direction.
#[tactic(auto, using(crate::proofs::Texts::entry_text))]
fn write_entry(
    alloc: Global,
    text: Vec<u8>,
    place: u32,
    source: u32,
    destination: u32,
    capacity: u64,
    policy: Policy,
) -> Result<Vec<u8>, NoMemory>
    requires { place < 2 ^ 24 }
    ensures { IfOk result (λ whole. whole.items ≡ text.items
        ++ compact_text (entry_data place source destination capacity policy)) }
{
    let channel = channel_text(alloc, place)?;
    let source = node_text(alloc, source)?;
    let destination = node_text(alloc, destination)?;
    let whole = write_members(
        text,
        source.as_str(),
        destination.as_str(),
        channel.as_str(),
        capacity,
        policy,
    )?;
    Ok(whole)
}

fn write_members(
    text: Vec<u8>,
    source: &str,
    destination: &str,
    channel: &str,
    capacity: u64,
    policy: Policy,
) -> Result<Vec<u8>, AllocError>
    ensures { IfOk result (λ whole. whole.items ≡ text.items
        ++ print (entry_tokens source.now destination.now channel.now capacity policy)) }
{
    let mut out = Writer::new(text);
    out.begin_object()?;
    write_number(&mut out, "amount_msat", capacity)?;
    write_number(&mut out, "base_fee_millisatoshi", policy.base)?;
    write_number(&mut out, "delay", policy.delay)?;
    write_string(&mut out, "destination", destination)?;
    write_number(&mut out, "fee_per_millionth", policy.ppm)?;
    write_string(&mut out, "short_channel_id", channel)?;
    write_string(&mut out, "source", source)?;
    out.end_object()?;
    Ok(out.into_inner())
}

/// The text of the short channel id of a place: block 1, this transaction, output 0.
#[tactic(auto, unfolding(plan_base::specs::Scid::scid_new))]
fn channel_text(alloc: Global, place: u32) -> Result<String, NoMemory>
    requires { place < 2 ^ 24 }
    ensures { IfOk result (λ text. string_bytes text ≡ scid_text (scid_number 1 place 0)) }
{
    let channel = Scid::new(1, place, 0).unwrap();
    channel.write(alloc)
}
