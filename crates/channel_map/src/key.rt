// The values of an entry's keys, one function for each kind of value.
ghost use Rattle.std.specs.Prelude.{◌≡◌};
ghost use Rattle.json_pass.specs.Members.{slot_data};
ghost use Rattle.channel_map.specs.Keys.{node_value, other_node_value, scid_value, side_value, amount_value, amount_or, active_value, whole_value};

use json_pass::Leaf;
use plan_base::{MAX, NodeId, Scid, read_msat};

pub(crate) fn read_node(slot: Option<Leaf<'_>>) -> Option<NodeId>
    ensures { result ≡ node_value (slot_data slot.entry) }
{
    match slot {
        Some(Leaf::Text(text)) => NodeId::read(text).ok(),
        _ => None,
    }
}

pub(crate) fn read_other_node(source: NodeId, slot: Option<Leaf<'_>>) -> Option<NodeId>
    ensures { result ≡ other_node_value source (slot_data slot.entry) }
{
    let node = read_node(slot)?;
    if node == source { None } else { Some(node) }
}

pub(crate) fn read_scid(slot: Option<Leaf<'_>>) -> Option<Scid>
    ensures { result ≡ scid_value (slot_data slot.entry) }
{
    match slot {
        Some(Leaf::Text(text)) => Scid::read(text).ok(),
        _ => None,
    }
}

// `side` is the only good value. It is also the default.
pub(crate) fn read_side(side: u8, slot: Option<Leaf<'_>>) -> Option<u8>
    ensures { result ≡ side_value side (slot_data slot.entry) }
{
    match slot {
        None => Some(side),
        Some(Leaf::Number(number)) if number.as_u64()? == u64::from(side) => Some(side),
        Some(_) => None,
    }
}

pub(crate) fn read_amount(slot: Option<Leaf<'_>>) -> Option<u64>
    ensures { result ≡ amount_value (slot_data slot.entry) }
{
    match slot {
        Some(Leaf::Text(text)) => read_msat(text).ok(),
        Some(Leaf::Number(number)) => number.as_u64().filter(|amount| *amount <= MAX),
        _ => None,
    }
}

pub(crate) fn read_amount_or(default: u64, slot: Option<Leaf<'_>>) -> Option<u64>
    ensures { result ≡ amount_or default (slot_data slot.entry) }
{
    match slot {
        None => Some(default),
        Some(leaf) => read_amount(Some(leaf)),
    }
}

pub(crate) fn read_active(slot: Option<Leaf<'_>>) -> Option<bool>
    ensures { result ≡ active_value (slot_data slot.entry) }
{
    match slot {
        None => Some(true),
        Some(Leaf::Bool(active)) => Some(active),
        Some(_) => None,
    }
}

pub(crate) fn read_u32(slot: Option<Leaf<'_>>) -> Option<u32>
    ensures { result ≡ whole_value 4294967295 (slot_data slot.entry) }
{
    match slot {
        Some(Leaf::Number(number)) => u32::try_from(number.as_u64()?).ok(),
        _ => None,
    }
}

pub(crate) fn read_u16(slot: Option<Leaf<'_>>) -> Option<u16>
    ensures { result ≡ whole_value 65535 (slot_data slot.entry) }
{
    match slot {
        Some(Leaf::Number(number)) => u16::try_from(number.as_u64()?).ok(),
        _ => None,
    }
}
