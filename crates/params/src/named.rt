ghost use Rattle.std.specs.Prelude.{◌≡◌, ◌<◌, [], length, get_or, map, Some, IfSome, OnOk, option_map};
ghost use Rattle.serde_json.specs.View.{members_view};
ghost use Rattle.params.specs.Parameters as spec;
ghost use Rattle.params.specs.Printed.{put_given};

use crate::given::name_at;
use crate::kind::Kind;
use plan_base::NoMemory;
use serde_json::{Map, Value};
use std::alloc::Global;

/// Adds the parameter at a place of a table. It is read back as the same.
#[tactic(auto, unfolding(crate::specs::Parameters::required))]
pub fn put_required<K: Kind>(
    alloc: Global,
    members: &mut Map<String, Value>,
    table: &'static [&'static str],
    place: usize,
    good: &K::Good,
) -> Result<(), NoMemory>
    requires place { place < length table.now }
    requires good { K.is_good good.now }
    ensures members { OnOk result (members_view members.new.entries
        ≡ put_given (get_or (map (λ name. name.now) table.now) place []) (Some (K.prints good.now)) (members_view members.old.entries)) }
    ensures back { OnOk result (spec.required K.reads (Some (K.prints good.now)) ≡ Some good.now) }
{
    let value = K::write(alloc, good)?;
    serde_json::put(members, alloc, name_at(table, place), value)?;
    Ok(())
}

/// Adds the parameter at a place of a table, if its value is given. It is read back as the same.
#[tactic(auto, unfolding(crate::specs::Parameters::optional))]
pub fn put_optional<K: Kind>(
    alloc: Global,
    members: &mut Map<String, Value>,
    table: &'static [&'static str],
    place: usize,
    given: &Option<K::Good>,
) -> Result<(), NoMemory>
    requires place { place < length table.now }
    requires good { IfSome given.now K.is_good }
    ensures members { OnOk result (members_view members.new.entries
        ≡ put_given (get_or (map (λ name. name.now) table.now) place []) (option_map K.prints given.now) (members_view members.old.entries)) }
    ensures back { OnOk result (spec.optional K.reads (option_map K.prints given.now) ≡ Some given.now) }
{
    match given {
        None => Ok(()),
        Some(good) => {
            let value = K::write(alloc, good)?;
            serde_json::put(members, alloc, name_at(table, place), value)?;
            Ok(())
        }
    }
}
