ghost use Rattle.std.specs.Prelude.{◌≡◌, ◌<◌, ◌≤◌, ◌∷◌, length, Some, None, is_some, MatchResult, IfOk, OnOk};
ghost use Rattle.serde_json.specs.Find.{as_object, as_array};
ghost use Rattle.json.specs.Reads.{token_of};
ghost use Rattle.json_pass.specs.Leaf.{leaf_data};
ghost use Rattle.json_pass.specs.Value.{value_outline, opens_object, opens_array};
ghost use Rattle.json_pass.specs.Loops.{after_items, after_members};

use crate::leaf::Leaf;
use crate::number::read_number;
use json::{Invalid, Reader, Token};

/// Takes one value from the reader and returns its outline. At most `depth` arrays and objects may be open at a place
/// in the value. An `Err` means that no such value comes next; the reader has then taken some of its tokens.
#[cycle(pass)]
#[inline(always)]
pub fn pass_value<'a>(reader: &mut Reader<'a>, depth: usize) -> Result<Leaf<'a>, Invalid>
    ensures value { MatchResult result
        (λ leaf. value_outline depth reader.old ≡ Some (leaf_data leaf, reader.new))
        (λ _. value_outline depth reader.old ≡ None) }
    ensures shorter { OnOk result (length reader.new < length reader.old) }
{
    let token = reader.next().ok_or(Invalid)?;
    pass_after(token, reader, depth)
}

/// Takes the rest of a value whose first token has been taken, as `pass_value` does.
#[cycle(pass)]
#[inline(always)]
pub fn pass_after<'a>(
    token: Token<'a>,
    reader: &mut Reader<'a>,
    depth: usize,
) -> Result<Leaf<'a>, Invalid>
    ensures value { MatchResult result
        (λ leaf. value_outline depth (token_of token.entry ∷ reader.old) ≡ Some (leaf_data leaf, reader.new))
        (λ _. value_outline depth (token_of token.entry ∷ reader.old) ≡ None) }
    ensures object { IfOk result
        (λ leaf. is_some (as_object (leaf_data leaf)) ≡ opens_object (token_of token.entry)) }
    ensures array { IfOk result
        (λ leaf. is_some (as_array (leaf_data leaf)) ≡ opens_array (token_of token.entry)) }
    ensures shorter { OnOk result (length reader.new ≤ length reader.old) }
{
    match token {
        Token::String(text) => Ok(Leaf::Text(text)),
        Token::Number(text) => match read_number(text) {
            Some(number) => Ok(Leaf::Number(number)),
            None => Err(Invalid),
        },
        Token::Bool(b) => Ok(Leaf::Bool(b)),
        Token::Null => Ok(Leaf::Null),
        Token::EndObject | Token::EndArray | Token::Key(_) | Token::Bad => Err(Invalid),
        Token::BeginArray => {
            if depth == 0 {
                return Err(Invalid);
            }
            pass_items(reader, depth - 1)?;
            Ok(Leaf::Array)
        }
        Token::BeginObject => {
            if depth == 0 {
                return Err(Invalid);
            }
            pass_members(reader, depth - 1)?;
            Ok(Leaf::Object)
        }
    }
}

#[cycle(pass)]
#[inline(never)]
fn pass_items(reader: &mut Reader<'_>, depth: usize) -> Result<(), Invalid>
    ensures value { MatchResult result (λ _. after_items depth reader.old ≡ Some reader.new)
        (λ _. after_items depth reader.old ≡ None) }
    ensures shorter { OnOk result (length reader.new < length reader.old) }
{
    'items: while !reader.take_end_array() {
        pass_value(reader, depth)?;
    }
    Ok(())
}

#[cycle(pass)]
#[inline(never)]
fn pass_members(reader: &mut Reader<'_>, depth: usize) -> Result<(), Invalid>
    ensures value { MatchResult result (λ _. after_members depth reader.old ≡ Some reader.new)
        (λ _. after_members depth reader.old ≡ None) }
    ensures shorter { OnOk result (length reader.new < length reader.old) }
{
    'members: while let Some(_) = reader.next_key()? {
        pass_value(reader, depth)?;
    }
    Ok(())
}

/// Whether the token opens an object.
pub fn is_object(token: &Token<'_>) -> bool
    ensures { result ≡ opens_object (token_of token.now) }
{
    matches!(token, Token::BeginObject)
}

/// Whether the token opens an array.
pub fn is_array(token: &Token<'_>) -> bool
    ensures { result ≡ opens_array (token_of token.now) }
{
    matches!(token, Token::BeginArray)
}
