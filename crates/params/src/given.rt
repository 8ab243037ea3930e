ghost use Rattle.std.specs.Prelude.{◌≡◌, ◌<◌, List, [], ℕ, length, get_or, map, IfOk, IfErr, OnOk, OnErr, IfSome, Some, None, true, false, bytes_eq, option_map};
ghost use Rattle.std.specs.List.{list_any};
ghost use Rattle.serde_json.specs.View.{view, members_view};
ghost use Rattle.params.specs.Parameters as spec;
ghost use Rattle.params.specs.Parameters.{is_too_long, needed, given_for, unknown_member, unknown_name};
ghost use Rattle.params.specs.Reading.{IsBad, IsTooLong, IsUnknown};

use crate::fault::Fault;
use crate::kind::Kind;
use serde_json::{Map, Value};
use std::alloc::Global;

#[tactic(auto, unfolding(crate::specs::Parameters::given))]
fn find<'a>(params: &'a Value, place: usize, name: &str) -> Option<&'a Value>
    ensures { option_map (λ value. view value.now) result ≡ spec.given (view params.now) place name.now }
{
    match params {
        Value::Array(_) => params.get(place),
        Value::Object(_) => params.get(name),
        _ => None,
    }
}

/// The name of the parameter at a place of a table.
pub fn name_at(table: &'static [&'static str], place: usize) -> &'static str
    requires { place < length table.now }
    ensures { result.now ≡ get_or (map (λ name. name.now) table.now) place [] }
{
    table[place]
}

/// The parameter at a place of a table, which must be present and good.
#[tactic(auto, unfolding(crate::specs::Parameters::required))]
pub fn required<'a, K: Kind>(
    alloc: Global,
    params: &Value,
    table: &'static [&'static str],
    place: usize,
) -> Result<K::Good, Fault<'a>>
    requires { place < length table.now }
    ensures ok { IfOk result (λ good. needed K.reads (map (λ name. name.now) table.now) (view params.now) place ≡ Some good) }
    ensures good { IfOk result K.is_good }
    ensures err { IfErr result (λ fault.
        IsBad fault (get_or (map (λ name. name.now) table.now) place []) (needed K.reads (map (λ name. name.now) table.now) (view params.now) place)) }
{
    let name = name_at(table, place);
    let Some(value) = find(params, place, name) else {
        return Err(Fault::Param(name));
    };
    match K::read(alloc, value)? {
        Some(good) => Ok(good),
        None => Err(Fault::Param(name)),
    }
}

/// The parameter at a place of a table, which must be absent, null or good.
#[tactic(auto, unfolding(crate::specs::Parameters::optional))]
pub fn optional<'a, K: Kind>(
    alloc: Global,
    params: &Value,
    table: &'static [&'static str],
    place: usize,
) -> Result<Option<K::Good>, Fault<'a>>
    requires { place < length table.now }
    ensures ok { IfOk result (λ good. given_for K.reads (map (λ name. name.now) table.now) (view params.now) place ≡ Some good) }
    ensures good { IfOk result (λ good. IfSome good K.is_good) }
    ensures err { IfErr result (λ fault.
        IsBad fault (get_or (map (λ name. name.now) table.now) place []) (given_for K.reads (map (λ name. name.now) table.now) (view params.now) place)) }
{
    let name = name_at(table, place);
    let Some(value) = find(params, place, name) else {
        return Ok(None);
    };
    if value.is_null() {
        return Ok(None);
    }
    match K::read(alloc, value)? {
        Some(good) => Ok(Some(good)),
        None => Err(Fault::Param(name)),
    }
}

/// Refuses an array with more items than the table has parameters.
#[tactic(auto, using(crate::proofs::Values::count_of_items), unfolding(crate::specs::Parameters::is_too_long))]
pub fn refuse_extra_items<'a>(params: &Value, table: &[&str]) -> Result<(), Fault<'a>>
    ensures ok { OnOk result (is_too_long (length table.now) (view params.now) ≡ false) }
    ensures err { OnErr result (is_too_long (length table.now) (view params.now) ≡ true) }
    ensures fault { IfErr result IsTooLong }
{
    if let Some(items) = params.as_array() {
        if items.len() > table.len() {
            return Err(Fault::Param("params"));
        }
    }
    Ok(())
}

fn is_listed(name: &str, table: &[&str]) -> bool
    ensures { result ≡ list_any (bytes_eq name.now) (map (λ other. other.now) table.now) }
{
    for other in table {
        if name == *other {
            return true;
        }
    }
    false
}

fn unknown_in<'a>(members: &'a Map<String, Value>, table: &[&str]) -> Option<&'a str>
    ensures { option_map (λ name. name.now) result
        ≡ unknown_member (map (λ other. other.now) table.now) (members_view members.now.entries) }
{
    for (name, _value) in members {
        if !is_listed(name, table) {
            return Some(name);
        }
    }
    None
}

/// Refuses the least name that is not in the table.
#[tactic(auto, unfolding(crate::specs::Parameters::unknown_name))]
pub fn refuse_unknown_names<'a>(params: &'a Value, table: &[&str]) -> Result<(), Fault<'a>>
    ensures ok { OnOk result (unknown_name (map (λ other. other.now) table.now) (view params.now) ≡ None) }
    ensures err { IfErr result (λ fault. IsUnknown fault (unknown_name (map (λ other. other.now) table.now) (view params.now))) }
{
    let Some(members) = params.as_object() else {
        return Ok(());
    };
    match unknown_in(members, table) {
        Some(name) => Err(Fault::Param(name)),
        None => Ok(()),
    }
}
