ghost use Rattle.std.specs.Prelude.{◌≡◌, ◌<◌, ◌≤◌, ◌∷◌, length, map, Some, None, MatchResult, OnOk};
ghost use Rattle.json.specs.Reads.{token_of};
ghost use Rattle.json_pass.specs.Members.{slot_data};
ghost use Rattle.json_pass.specs.Value.{value_as};
ghost use Rattle.channel_map.specs.Entry.{edge_of, entry_of};
ghost use Rattle.channel_map.specs.Slots.{values_at};
ghost use Rattle.channel_map.specs.Edge.{side_between};

use crate::edge::Edge;
use crate::fault::Field;
use crate::key::{
    read_active, read_amount, read_amount_or, read_node, read_other_node, read_scid, read_side,
    read_u16, read_u32,
};
use json::{Invalid, Reader, Token};
use json_pass::{Leaf, read_object_after};
use plan_base::{Dir, NodeId};

fn side_between(source: &NodeId, destination: &NodeId) -> u8
    ensures { result ≡ side_between source.now destination.now }
{
    if source.compare(destination).is_lt() {
        0
    } else {
        1
    }
}

fn edge_of(slots: &[Option<Leaf<'_>>]) -> Result<Edge, Field>
    requires { length slots.now ≡ 11 }
    ensures { result ≡ edge_of (values_at (map slot_data slots.now)) }
{
    let source = read_node(slots[0]).ok_or(Field::Source)?;
    let destination = read_other_node(source, slots[1]).ok_or(Field::Destination)?;
    let scid = read_scid(slots[2]).ok_or(Field::ShortChannelId)?;
    let side = read_side(side_between(&source, &destination), slots[3]).ok_or(Field::Direction)?;
    let capacity = read_amount(slots[4]).ok_or(Field::Amount)?;
    let enabled = read_active(slots[5]).ok_or(Field::Active)?;
    let base = read_u32(slots[6]).ok_or(Field::BaseFee)?;
    let ppm = read_u32(slots[7]).ok_or(Field::FeePerMillionth)?;
    let delay = read_u16(slots[8]).ok_or(Field::Delay)?;
    let htlc_min = read_amount_or(0, slots[9]).ok_or(Field::HtlcMinimum)?;
    let htlc_max = read_amount_or(capacity, slots[10]).ok_or(Field::HtlcMaximum)?;
    Ok(Edge {
        dir: Dir { scid, side },
        source,
        destination,
        capacity,
        htlc_min,
        htlc_max,
        base,
        ppm,
        delay,
        enabled,
    })
}

/// Takes one value from the reader as an entry of a map: its direction, or the first key that is bad.
pub(crate) fn read_entry(
    reader: &mut Reader<'_>,
    depth: usize,
) -> Result<Result<Edge, Field>, Invalid>
    ensures value { MatchResult result
        (λ entry. value_as entry_of depth reader.old ≡ Some (entry, reader.new))
        (λ _. value_as entry_of depth reader.old ≡ None) }
    ensures shorter { OnOk result (length reader.new < length reader.old) }
{
    let token = reader.next().ok_or(Invalid)?;
    read_entry_after(token, reader, depth)
}

/// Takes the rest of an entry whose first token has been taken, as `read_entry` does.
pub(crate) fn read_entry_after<'a>(
    token: Token<'a>,
    reader: &mut Reader<'a>,
    depth: usize,
) -> Result<Result<Edge, Field>, Invalid>
    ensures value { MatchResult result
        (λ entry. value_as entry_of depth (token_of token.entry ∷ reader.old) ≡ Some (entry, reader.new))
        (λ _. value_as entry_of depth (token_of token.entry ∷ reader.old) ≡ None) }
    ensures shorter { OnOk result (length reader.new ≤ length reader.old) }
{
    let names = [
        "source",
        "destination",
        "short_channel_id",
        "direction",
        "amount_msat",
        "active",
        "base_fee_millisatoshi",
        "fee_per_millionth",
        "delay",
        "htlc_minimum_msat",
        "htlc_maximum_msat",
    ];
    let mut slots = [None; 11];
    if !read_object_after(token, reader, depth, &names, &mut slots)? {
        return Ok(Err(Field::NotObject));
    }
    Ok(edge_of(&slots))
}
