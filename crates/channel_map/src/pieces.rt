// A long text is read in pieces, since the JSON crate needs as much memory beside a text as the text has.
ghost use Rattle.std.specs.Prelude.{◌≡◌, ◌≢◌, ◌<◌, ◌≤◌, ◌+◌, ◌∷◌, [], ℕ, List, length, slice_index, codes, option_map, Some, None, Err, IfSome, IfOk, IsTrue, true};
ghost use Rattle.json.specs.Token.{begin_object, end_object, begin_array, key};
ghost use Rattle.json.specs.Token as spec;
ghost use Rattle.json.specs.Lex.{tokens};
ghost use Rattle.serde_json.specs.Read.{read};
ghost use Rattle.channel_map.specs.Channels.{listed_entries};
ghost use Rattle.channel_map.specs.Found.{gathered_in};
ghost use Rattle.channel_map.specs.Pieces.{GoesOn, IsCut, Opens, entries_from};

use crate::channels::is_same;
use crate::entries::{Entries, Unread, add};
use crate::entry::read_entry_after;
use json::{Reader, Scratch, Token};
use json_pass::is_object;
use std::alloc::Global;

// The least length of each piece but the last.
const PIECE: usize = 65_536;

// The depth at which the entries of a map stand in its text.
const DEPTH: usize = 125;

// How the reading of a piece ended.
#[derive(Clone, Copy)]
enum PieceEnd {
    // After an entry, with all tokens taken.
    Whole,
    // After the bracket that closes the array.
    Closed,
    // Elsewhere.
    Other,
}

// The place of a closing brace that a comma follows.
fn find_cut(bytes: &[u8]) -> Option<usize>
    ensures within { IfSome result (λ at. at + 1 < length bytes.now) }
    ensures is { IfSome result (λ at. (slice_index bytes.now at ≡ 125) × (slice_index bytes.now (at + 1) ≡ 44)) }
{
    for at in PIECE..bytes.len().saturating_sub(1) {
        if bytes[at] == b'}' && bytes[at + 1] == b',' {
            return Some(at);
        }
    }
    None
}

// The text up to a closing brace that a comma follows, and the text after that comma.
fn cut(text: &str) -> Option<(&str, &str)>
    ensures { IfSome result (λ parts. IsCut text.now parts.0.now parts.1.now) }
{
    let at = find_cut(text.as_bytes())?;
    let (piece, more) = text.split_at_checked(at + 1)?;
    let (_, rest) = more.split_at_checked(1)?;
    Some((piece, rest))
}

// Reads entries, the first of which is an object, as far as they go.
fn read_piece<'a>(
    reader: &mut Reader<'a>,
    depth: usize,
    found: &mut Entries,
) -> Result<PieceEnd, Unread>
    ensures opens { IfOk result (λ end. end ≢ PieceEnd.Other → Opens reader.old) }
    ensures whole { IfOk result (λ end. end ≡ PieceEnd.Whole
        → GoesOn depth (gathered_in found.old) reader.old (gathered_in found.new)) }
    ensures closed { IfOk result (λ end. end ≡ PieceEnd.Closed → (n : ℕ) → length reader.old ≤ n
        → entries_from depth (gathered_in found.old) n reader.old ≡ Some (gathered_in found.new, reader.new)) }
    ensures err { result ≢ Err Unread.NotJson }
{
    let Some(first) = reader.next() else {
        return Ok(PieceEnd::Other);
    };
    if !is_object(&first) {
        return Ok(PieceEnd::Other);
    }
    let mut token = first;
    'entries: loop {
        let Ok(entry) = read_entry_after(token, reader, depth) else {
            return Ok(PieceEnd::Other);
        };
        found.bad = add(&mut found.edges, found.bad, entry)?;
        match reader.next() {
            None => return Ok(PieceEnd::Whole),
            Some(Token::EndArray) => return Ok(PieceEnd::Closed),
            Some(next) => token = next,
        }
    }
}

// Whether an object with the array `channels` comes first. Takes its tokens up to the array's bracket.
fn read_front(reader: &mut Reader<'_>) -> bool
    ensures { IsTrue result → reader.old ≡ begin_object ∷ key (codes "channels") ∷ begin_array ∷ reader.new }
{
    let Some(Token::BeginObject) = reader.next() else {
        return false;
    };
    let Some(Token::Key(name)) = reader.next() else {
        return false;
    };
    let Some(Token::BeginArray) = reader.next() else {
        return false;
    };
    is_same(name, "channels")
}

// Whether nothing but the end of an object comes.
fn read_back(reader: &mut Reader<'_>) -> bool
    ensures { IsTrue result → reader.old ≡ end_object ∷ [] }
{
    let Some(Token::EndObject) = reader.next() else {
        return false;
    };
    reader.next().is_none()
}

fn read_first(piece: &str, scratch: &mut Scratch, found: &mut Entries) -> Result<bool, Unread>
    ensures ok { IfOk result (λ done. IsTrue done → (more : List spec.Token)
        × (tokens piece.now ≡ begin_object ∷ key (codes "channels") ∷ begin_array ∷ more)
        × GoesOn DEPTH (gathered_in found.old) more (gathered_in found.new)) }
    ensures err { result ≢ Err Unread.NotJson }
{
    let mut reader = Reader::new(piece, scratch)?;
    if !read_front(&mut reader) {
        return Ok(false);
    }
    let end = read_piece(&mut reader, DEPTH, found)?;
    Ok(matches!(end, PieceEnd::Whole))
}

fn read_next(piece: &str, scratch: &mut Scratch, found: &mut Entries) -> Result<bool, Unread>
    ensures opens { IfOk result (λ done. IsTrue done → Opens (tokens piece.now)) }
    ensures ok { IfOk result (λ done. IsTrue done
        → GoesOn DEPTH (gathered_in found.old) (tokens piece.now) (gathered_in found.new)) }
    ensures err { result ≢ Err Unread.NotJson }
{
    let mut reader = Reader::new(piece, scratch)?;
    let end = read_piece(&mut reader, DEPTH, found)?;
    Ok(matches!(end, PieceEnd::Whole))
}

fn read_last(piece: &str, scratch: &mut Scratch, found: &mut Entries) -> Result<bool, Unread>
    ensures opens { IfOk result (λ done. IsTrue done → Opens (tokens piece.now)) }
    ensures ok { IfOk result (λ done. IsTrue done → (n : ℕ) → length (tokens piece.now) ≤ n
        → entries_from DEPTH (gathered_in found.old) n (tokens piece.now) ≡ Some (gathered_in found.new, end_object ∷ [])) }
    ensures err { result ≢ Err Unread.NotJson }
{
    let mut reader = Reader::new(piece, scratch)?;
    match read_piece(&mut reader, DEPTH, found)? {
        PieceEnd::Closed => Ok(read_back(&mut reader)),
        PieceEnd::Whole | PieceEnd::Other => Ok(false),
    }
}

/// The entries of a long text whose object has the key `channels` alone, as nodes print it. None of most other texts, and
/// of a text in which a cut falls into an entry: they are to be read whole.
pub(crate) fn read_pieces(alloc: Global, text: &str) -> Result<Option<Entries>, Unread>
    ensures ok { IfOk result (λ found. IfSome found
        (λ entries. option_map listed_entries (read text.now) ≡ Some (Some (gathered_in entries)))) }
    ensures err { result ≢ Err Unread.NotJson }
{
    let Some((first, mut rest)) = cut(text) else {
        return Ok(None);
    };
    let mut scratch = Scratch::new(alloc);
    let mut found = Entries {
        edges: Vec::new(alloc),
        bad: None,
    };
    if !read_first(first, &mut scratch, &mut found)? {
        return Ok(None);
    }
    'pieces: while let Some((piece, more)) = cut(rest) {
        if !read_next(piece, &mut scratch, &mut found)? {
            return Ok(None);
        }
        rest = more;
    }
    if read_last(rest, &mut scratch, &mut found)? {
        Ok(Some(found))
    } else {
        Ok(None)
    }
}
