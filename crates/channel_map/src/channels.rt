ghost use Rattle.std.specs.Prelude.{◌≡◌, ◌≢◌, ◌<◌, length, option_map, Some, None, Err, IfOk, OnOk};
ghost use Rattle.std.specs.Option.{option_or};
ghost use Rattle.std.specs.Bool.{MatchBool};
ghost use Rattle.serde_json.specs.Read.{read};
ghost use Rattle.json_pass.specs.Value.{value_as};
ghost use Rattle.json_pass.specs.Members.{members_as};
ghost use Rattle.channel_map.specs.Channels.{channels_in, channels_within, listed_in, listed_entries};
ghost use Rattle.channel_map.specs.Found.{found_in};
ghost use Rattle.channel_map.specs.Reading.{json_value};

use crate::entries::{Entries, Unread, read_array};
use crate::pieces::read_pieces;
use json::{Invalid, Reader, Scratch};
use json_pass::{is_object, pass_after, pass_value};
use std::alloc::Global;

#[tactic(auto, using(json_pass::proofs::Slots::equal_texts))]
pub(crate) fn is_same(text: &str, other: &str) -> bool
    ensures { MatchBool result (text.now ≡ other.now) (text.now ≢ other.now) }
{
    text == other
}

fn read_inner_members(
    alloc: Global,
    reader: &mut Reader<'_>,
    depth: usize,
) -> Result<Option<Entries>, Unread>
    ensures ok { IfOk result
        (λ found. members_as channels_in depth reader.old ≡ Some (found_in found, reader.new)) }
    ensures err { result ≡ Err Unread.NotJson → members_as channels_in depth reader.old ≡ None }
    ensures shorter { OnOk result (length reader.new < length reader.old) }
{
    let mut channels = None;
    'members: while let Some(key) = reader.next_key()? {
        if is_same(key, "channels") {
            channels = read_array(alloc, reader, depth)?;
        } else {
            pass_value(reader, depth)?;
        }
    }
    Ok(channels)
}

fn read_inner(
    alloc: Global,
    reader: &mut Reader<'_>,
    depth: usize,
) -> Result<Option<Entries>, Unread>
    ensures ok { IfOk result
        (λ found. value_as channels_within depth reader.old ≡ Some (found_in found, reader.new)) }
    ensures err { result ≡ Err Unread.NotJson → value_as channels_within depth reader.old ≡ None }
    ensures shorter { OnOk result (length reader.new < length reader.old) }
{
    let token = reader.next().ok_or(Invalid)?;
    if is_object(&token) {
        if depth == 0 {
            return Err(Unread::NotJson);
        }
        read_inner_members(alloc, reader, depth - 1)
    } else {
        pass_after(token, reader, depth)?;
        Ok(None)
    }
}

fn first_found(channels: Option<Entries>, inner: Option<Entries>) -> Option<Entries>
    ensures { found_in result ≡ option_or (found_in channels) (found_in inner) }
{
    match channels {
        Some(entries) => Some(entries),
        None => inner,
    }
}

fn read_outer_members(
    alloc: Global,
    reader: &mut Reader<'_>,
    depth: usize,
) -> Result<Option<Entries>, Unread>
    ensures ok { IfOk result
        (λ found. members_as listed_in depth reader.old ≡ Some (found_in found, reader.new)) }
    ensures err { result ≡ Err Unread.NotJson → members_as listed_in depth reader.old ≡ None }
    ensures shorter { OnOk result (length reader.new < length reader.old) }
{
    let mut channels = None;
    let mut inner = None;
    'members: while let Some(key) = reader.next_key()? {
        if is_same(key, "channels") {
            channels = read_array(alloc, reader, depth)?;
        } else if is_same(key, "result") {
            inner = read_inner(alloc, reader, depth)?;
        } else {
            pass_value(reader, depth)?;
        }
    }
    Ok(first_found(channels, inner))
}

fn read_outer(
    alloc: Global,
    reader: &mut Reader<'_>,
    depth: usize,
) -> Result<Option<Entries>, Unread>
    ensures ok { IfOk result
        (λ found. value_as listed_entries depth reader.old ≡ Some (found_in found, reader.new)) }
    ensures err { result ≡ Err Unread.NotJson → value_as listed_entries depth reader.old ≡ None }
    ensures shorter { OnOk result (length reader.new < length reader.old) }
{
    let token = reader.next().ok_or(Invalid)?;
    if is_object(&token) {
        if depth == 0 {
            return Err(Unread::NotJson);
        }
        read_outer_members(alloc, reader, depth - 1)
    } else {
        pass_after(token, reader, depth)?;
        Ok(None)
    }
}

fn read_text(alloc: Global, text: &str) -> Result<Option<Entries>, Unread>
    ensures ok { IfOk result (λ found. option_map listed_entries (read text.now) ≡ Some (found_in found)) }
    ensures err { result ≡ Err Unread.NotJson → read text.now ≡ None }
{
    if let Some(found) = read_pieces(alloc, text)? {
        return Ok(Some(found));
    }
    let mut scratch = Scratch::new(alloc);
    let mut reader = Reader::new(text, &mut scratch)?;
    let found = read_outer(alloc, &mut reader, 127)?;
    if reader.next().is_some() {
        return Err(Unread::NotJson);
    }
    Ok(found)
}

/// The entries that a text lists, if it has a list.
#[tactic(auto, using(crate::proofs::Texts::value_of_text, crate::proofs::Texts::no_value_of_bytes))]
pub(crate) fn read_listed(alloc: Global, text: &[u8]) -> Result<Option<Entries>, Unread>
    ensures ok { IfOk result (λ found. option_map listed_entries (json_value text.now) ≡ Some (found_in found)) }
    ensures err { result ≡ Err Unread.NotJson → json_value text.now ≡ None }
{
    match simdutf8::basic::from_utf8(text) {
        Ok(text) => read_text(alloc, text),
        Err(_) => Err(Unread::NotJson),
    }
}
