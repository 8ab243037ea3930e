ghost use Rattle.std.specs.Prelude.{◌≡◌, Option, Some, IfOk, IfSome, OnOk, false, is_some};
ghost use Rattle.serde_json.specs.Data.{Data, boolean};
ghost use Rattle.serde_json.specs.Find.{as_null};
ghost use Rattle.serde_json.specs.View.{view};
ghost use Rattle.params.specs.Kinds.{flag_value};

use plan_base::NoMemory;
use serde_json::Value;
use std::alloc::Global;

/// A kind of parameter: its good values, and what they mean.
pub trait Kind {
    /// What a good value means.
    type Good: Drop;

    // The meaning of a good value.
    ghost reads: { Data → Option Self.Good };

    // The value written for a meaning.
    ghost prints: { Self.Good → Data };

    // A fact about each meaning.
    ghost is_good: { Self.Good → Type 0 };

    /// Reads a value. None: it is not good.
    fn read(alloc: Global, value: &Value) -> Result<Option<Self::Good>, NoMemory>
        ensures value { IfOk result (λ good. good ≡ reads (view value.now)) }
        ensures good { IfOk result (λ good. IfSome good is_good) };

    /// Writes a value. It is not null, and it is read back as the same.
    fn write(alloc: Global, good: &Self::Good) -> Result<Value, NoMemory>
        requires { is_good good.now }
        ensures value { IfOk result (λ value. view value ≡ prints good.now) }
        ensures back { OnOk result (reads (prints good.now) ≡ Some good.now) }
        ensures there { OnOk result (is_some (as_null (prints good.now)) ≡ false) };
}

/// True or false.
pub struct Flag;

impl Kind for Flag {
    type Good = bool;

    ghost reads = { flag_value };

    ghost prints = { boolean };

    ghost is_good = { λ _. Unit {0} };

    #[tactic(auto, unfolding(crate::specs::Kinds::flag_value))]
    fn read(_alloc: Global, value: &Value) -> Result<Option<bool>, NoMemory> {
        Ok(value.as_bool())
    }

    #[tactic(auto, unfolding(crate::specs::Kinds::flag_value))]
    fn write(_alloc: Global, good: &bool) -> Result<Value, NoMemory> {
        Ok(Value::Bool(*good))
    }
}
