ghost use Rattle.std.specs.Prelude.{◌≡◌, ℕ, List, IfOk, OnOk};
ghost use Rattle.serde_json.specs.Data.{Data, put as with_member};
ghost use Rattle.serde_json.specs.View.{view, members_view};
ghost use Rattle.plan_answer.specs.Records.{list_data, member_if};
ghost use Rattle.plan_answer.specs.Order.{IsBefore, IsBelow};

use plan_base::NoMemory;
use serde_json::{Map, Value, put};
use std::alloc::Global;

/// A value that is written as one JSON value.
pub trait Printed {
    ghost prints: { Self → Data };

    /// The JSON value. Amounts are numbers in msat, ids are strings.
    fn value(&self, alloc: Global) -> Result<Value, NoMemory>
        ensures { IfOk result (λ value. view value ≡ prints self.now) };
}

/// A list, in the same order.
pub fn list_value<T: Printed>(alloc: Global, list: &[T]) -> Result<Value, NoMemory>
    ensures { IfOk result (λ value. view value ≡ list_data T.prints list.now) }
{
    let mut values = Vec::new(alloc);
    for item in list {
        let value = item.value(alloc)?;
        values.push(value)?;
    }
    Ok(Value::Array(values))
}

/// Adds a member.
pub fn put_value<T: Printed>(
    members: &mut Map<String, Value>,
    alloc: Global,
    key: &str,
    value: &T,
) -> Result<(), NoMemory>
    ensures { OnOk result
        (members_view members.new.entries
        ≡ with_member key.now (T.prints value.now) (members_view members.old.entries)) }
{
    let value = value.value(alloc)?;
    put(members, alloc, key, value)?;
    Ok(())
}

/// Adds a list as a member, in the same order.
pub fn put_list<T: Printed>(
    members: &mut Map<String, Value>,
    alloc: Global,
    key: &str,
    list: &[T],
) -> Result<(), NoMemory>
    ensures { OnOk result
        (members_view members.new.entries
        ≡ with_member key.now (list_data T.prints list.now) (members_view members.old.entries)) }
{
    let value = list_value(alloc, list)?;
    put(members, alloc, key, value)?;
    Ok(())
}

/// Adds a member before all others, if its value is given.
#[tactic(auto, using(crate::proofs::Order::put_before))]
pub fn put_given<T: Printed>(
    members: &mut Map<String, Value>,
    alloc: Global,
    key: &str,
    given: &Option<T>,
) -> Result<(), NoMemory>
    requires { IsBefore key.now (members_view members.old.entries) }
    ensures below { OnOk result ((lower : List ℕ) → IsBelow lower key.now
        → IsBefore lower (members_view members.new.entries)) }
    ensures value { OnOk result (members_view members.new.entries
        ≡ member_if key.now T.prints given.now (members_view members.old.entries)) }
{
    if let Some(given) = given {
        let value = given.value(alloc)?;
        put(members, alloc, key, value)?;
    }
    Ok(())
}
