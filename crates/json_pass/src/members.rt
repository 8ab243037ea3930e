ghost use Rattle.std.specs.Prelude.{◌≡◌, ◌≢◌, ◌<◌, ◌≤◌, ◌∷◌, ℕ, List, length, map, replicate, get_or, [], true, Some, None, MatchOption, MatchResult, OnOk, All, if◌then◌else◌};
ghost use Rattle.std.specs.Bool.{MatchBool};
ghost use Rattle.json.specs.Reads.{token_of};
ghost use Rattle.json_pass.specs.Value.{value_as};
ghost use Rattle.json_pass.specs.Members.{texts, slot_data, are_distinct, last_values, wanted_values, members_as};

use crate::leaf::Leaf;
use crate::pass::{is_object, pass_after, pass_value};
use json::{Invalid, Reader, Token};

/// Takes one value from the reader, with at most `depth` arrays and objects open at a place in it. If it is an object,
/// the answer is true, and the slot at the place of each name has the outline of the last value under that name, or
/// None if the object has no such key. Other keys are ignored. If the value is no object, the answer is false.
/// An `Err` means that no such value comes next.
pub fn read_object<'a>(
    reader: &mut Reader<'a>,
    depth: usize,
    names: &[&str],
    slots: &mut [Option<Leaf<'a>>],
) -> Result<bool, Invalid>
    requires same { length slots.old ≡ length names.now }
    requires distinct { are_distinct (texts names.now) ≡ true }
    ensures value { MatchResult result
        (λ found. value_as (wanted_values (texts names.now)) depth reader.old
        ≡ Some (if found then Some (map slot_data slots.new) else None, reader.new))
        (λ _. value_as (wanted_values (texts names.now)) depth reader.old ≡ None) }
    ensures shorter { OnOk result (length reader.new < length reader.old) }
    ensures same { length slots.new ≡ length slots.old }
{
    let token = reader.next().ok_or(Invalid)?;
    read_object_after(token, reader, depth, names, slots)
}

/// Takes the rest of a value whose first token has been taken, as `read_object` does.
pub fn read_object_after<'a>(
    token: Token<'a>,
    reader: &mut Reader<'a>,
    depth: usize,
    names: &[&str],
    slots: &mut [Option<Leaf<'a>>],
) -> Result<bool, Invalid>
    requires same { length slots.old ≡ length names.now }
    requires distinct { are_distinct (texts names.now) ≡ true }
    ensures value { MatchResult result
        (λ found. value_as (wanted_values (texts names.now)) depth (token_of token.entry ∷ reader.old)
        ≡ Some (if found then Some (map slot_data slots.new) else None, reader.new))
        (λ _. value_as (wanted_values (texts names.now)) depth (token_of token.entry ∷ reader.old) ≡ None) }
    ensures shorter { OnOk result (length reader.new ≤ length reader.old) }
    ensures same { length slots.new ≡ length slots.old }
{
    if is_object(&token) {
        if depth == 0 {
            return Err(Invalid);
        }
        read_members(reader, depth - 1, names, slots)?;
        Ok(true)
    } else {
        pass_after(token, reader, depth)?;
        Ok(false)
    }
}

fn read_members<'a>(
    reader: &mut Reader<'a>,
    depth: usize,
    names: &[&str],
    slots: &mut [Option<Leaf<'a>>],
) -> Result<(), Invalid>
    requires same { length slots.old ≡ length names.now }
    requires distinct { are_distinct (texts names.now) ≡ true }
    ensures value { MatchResult result
        (λ _. members_as (last_values (texts names.now)) depth reader.old
        ≡ Some (map slot_data slots.new, reader.new))
        (λ _. members_as (last_values (texts names.now)) depth reader.old ≡ None) }
    ensures shorter { OnOk result (length reader.new < length reader.old) }
    ensures same { length slots.new ≡ length slots.old }
{
    clear(slots);
    let mut next = 0;
    'members: while let Some(key) = reader.next_key()? {
        let leaf = pass_value(reader, depth)?;
        if let Some(place) = place_of(names, key, next) {
            slots[place] = Some(leaf);
            next = place + 1;
        }
    }
    Ok(())
}

fn clear(slots: &mut [Option<Leaf<'_>>])
    ensures { slots.new ≡ replicate (length slots.old) None }
{
    slots.fill(None);
}

// The place of a name. `likely` is tried first.
#[inline(always)]
fn place_of(names: &[&str], name: &str, likely: usize) -> Option<usize>
    ensures { MatchOption result (All (λ other. other ≢ name.now) (texts names.now))
        (λ place. (place < length names.now) × (get_or (texts names.now) place [] ≡ name.now)) }
{
    if likely < names.len() && is_at(names, likely, name) {
        return Some(likely);
    }
    for place in 0..names.len() {
        if is_at(names, place, name) {
            return Some(place);
        }
    }
    None
}

#[inline(always)]
#[tactic(auto, using(crate::proofs::Slots::name_at))]
fn is_at(names: &[&str], place: usize, name: &str) -> bool
    requires { place < length names.now }
    ensures { MatchBool result (get_or (texts names.now) place [] ≡ name.now)
        (get_or (texts names.now) place [] ≢ name.now) }
{
    names[place] == name
}
