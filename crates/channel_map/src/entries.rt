ghost use Rattle.std.specs.Prelude.{◌≡◌, ◌≢◌, ◌<◌, length, Some, None, Err, IfOk, OnOk};
ghost use Rattle.json.specs.Json.{parse_map, value, items};
ghost use Rattle.serde_json.specs.Read.{of_items, converted};
ghost use Rattle.json_pass.specs.Value.{value_as};
ghost use Rattle.channel_map.specs.Channels.{gathered_of, array_entries};
ghost use Rattle.channel_map.specs.Found.{gathered_in, found_in, with_entry};

use crate::edge::Edge;
use crate::entry::read_entry;
use crate::fault::{Field, MapFault};
use json::{Invalid, Reader};
use json_pass::{is_array, pass_after};
use std::alloc::{AllocError, Global};

/// Why the entries of a text cannot be read.
#[derive(Clone, Copy, Debug, PartialEq, Eq)]
pub(crate) enum Unread {
    NotJson,
    NoMemory,
}

impl From<Invalid> for Unread {
    ghost from_gives = { λ _ e. e ≡ NotJson };

    ghost use Rattle.channel_map.specs.declared.entries.Unread.TheVariants.{NotJson};

    fn from(_: Invalid) -> Unread {
        Unread::NotJson
    }
}

impl From<AllocError> for Unread {
    ghost from_gives = { λ _ e. e ≡ NoMemory };

    ghost use Rattle.channel_map.specs.declared.entries.Unread.TheVariants.{NoMemory};

    fn from(_: AllocError) -> Unread {
        Unread::NoMemory
    }
}

/// The directions of the entries before the first bad one, and the bad key of that one if there is one.
#[derive(Drop)]
pub(crate) struct Entries {
    pub(crate) edges: Vec<Edge>,
    pub(crate) bad: Option<Field>,
}

// An entry after the first bad one counts no more.
pub(crate) fn add(
    edges: &mut Vec<Edge>,
    bad: Option<Field>,
    entry: Result<Edge, Field>,
) -> Result<Option<Field>, Unread>
    ensures ok { IfOk result (λ now. (edges.new.items, now) ≡ with_entry (edges.old.items, bad) entry) }
    ensures err { result ≢ Err Unread.NotJson }
{
    match (bad, entry) {
        (None, Ok(edge)) => match edges.push(edge) {
            Ok(()) => Ok(None),
            Err(_) => Err(Unread::NoMemory),
        },
        (None, Err(field)) => Ok(Some(field)),
        (Some(field), _) => Ok(Some(field)),
    }
}

fn read_items(alloc: Global, reader: &mut Reader<'_>, depth: usize) -> Result<Entries, Unread>
    ensures ok { IfOk result
        (λ found. parse_map gathered_of (converted of_items (items (value depth) (length reader.old) reader.old))
        ≡ Some (gathered_in found, reader.new)) }
    ensures err { result ≡ Err Unread.NotJson
        → converted of_items (items (value depth) (length reader.old) reader.old) ≡ None }
    ensures shorter { OnOk result (length reader.new < length reader.old) }
{
    let mut edges = Vec::new(alloc);
    let mut bad = None;
    'items: while !reader.take_end_array() {
        let entry = read_entry(reader, depth)?;
        bad = add(&mut edges, bad, entry)?;
    }
    Ok(Entries { edges, bad })
}

/// Takes one value from the reader: the entries if it is an array.
pub(crate) fn read_array(
    alloc: Global,
    reader: &mut Reader<'_>,
    depth: usize,
) -> Result<Option<Entries>, Unread>
    ensures ok { IfOk result
        (λ found. value_as array_entries depth reader.old ≡ Some (found_in found, reader.new)) }
    ensures err { result ≡ Err Unread.NotJson → value_as array_entries depth reader.old ≡ None }
    ensures shorter { OnOk result (length reader.new < length reader.old) }
{
    let token = reader.next().ok_or(Invalid)?;
    if is_array(&token) {
        if depth == 0 {
            return Err(Unread::NotJson);
        }
        Ok(Some(read_items(alloc, reader, depth - 1)?))
    } else {
        pass_after(token, reader, depth)?;
        Ok(None)
    }
}
