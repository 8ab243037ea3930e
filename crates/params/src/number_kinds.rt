ghost use Rattle.std.specs.Prelude.{◌≡◌, ◌≤◌, ◌≤ℤ◌, pos, negsuc, IfSome};
ghost use Rattle.serde_json.specs.View.{view};
ghost use Rattle.plan_base.specs.Amount.{at_most_max};
ghost use Rattle.plan_base.specs.declared.amount.TheConstants.{MAX};
ghost use Rattle.layer.specs.declared.ask.TheConstants.{PARTS_MAX};
ghost use Rattle.params.specs.Kinds.{whole_value, whole_up_to, amount_value, amount_up_to, parts_value, percent_value, positive_value};
ghost use Rattle.params.specs.Methods.{fee_max, delay_max};
ghost use Rattle.rpc_lines.specs.Json.{whole};
ghost use Rattle.params.specs.Printed.{percent_data};

use crate::kind::Kind;
use layer::PARTS_MAX;
use plan_base::{MAX, NoMemory, read_msat};
use serde_json::Value;
use std::alloc::Global;

#[tactic(auto, unfolding(crate::specs::Kinds::whole_value))]
fn read_whole(value: &Value) -> Option<u64>
    ensures { result ≡ whole_value (view value.now) }
{
    value.as_u64()
}

fn as_amount(number: u64) -> Option<u64>
    ensures { result ≡ at_most_max number }
{
    if number <= MAX { Some(number) } else { None }
}

/// Reads an amount in msat, given as an integer or a text.
#[tactic(auto, unfolding(crate::specs::Kinds::amount_value))]
pub fn read_amount(value: &Value) -> Option<u64>
    ensures value { result ≡ amount_value (view value.now) }
    ensures most { IfSome result (λ amount. amount ≤ MAX) }
{
    match value {
        Value::String(text) => read_msat(text.as_str()).ok(),
        _ => as_amount(read_whole(value)?),
    }
}

/// An integer that fits u64.
pub struct Whole;

impl Kind for Whole {
    type Good = u64;

    ghost reads = { whole_value };

    ghost prints = { whole };

    ghost is_good = { λ _. Unit {0} };

    fn read(_alloc: Global, value: &Value) -> Result<Option<u64>, NoMemory> {
        Ok(read_whole(value))
    }

    #[tactic(auto, unfolding(crate::specs::Kinds::whole_value))]
    fn write(_alloc: Global, good: &u64) -> Result<Value, NoMemory> {
        Ok(Value::from(*good))
    }
}

/// An amount in msat.
pub struct Amount;

impl Kind for Amount {
    type Good = u64;

    ghost reads = { amount_value };

    ghost prints = { whole };

    ghost is_good = { λ amount. amount ≤ MAX };

    fn read(_alloc: Global, value: &Value) -> Result<Option<u64>, NoMemory> {
        Ok(read_amount(value))
    }

    #[tactic(auto, unfolding(crate::specs::Kinds::amount_value, crate::specs::Kinds::whole_value))]
    fn write(_alloc: Global, good: &u64) -> Result<Value, NoMemory> {
        Ok(Value::from(*good))
    }
}

/// An amount in msat of at least 1.
pub struct PositiveAmount;

impl Kind for PositiveAmount {
    type Good = u64;

    ghost reads = { positive_value };

    ghost prints = { whole };

    ghost is_good = { λ amount. (1 ≤ amount) × (amount ≤ MAX) };

    #[tactic(auto, unfolding(crate::specs::Kinds::positive_value))]
    fn read(_alloc: Global, value: &Value) -> Result<Option<u64>, NoMemory> {
        match read_amount(value) {
            Some(amount) if amount >= 1 => Ok(Some(amount)),
            _ => Ok(None),
        }
    }

    #[tactic(auto, unfolding(crate::specs::Kinds::positive_value, crate::specs::Kinds::amount_value, crate::specs::Kinds::whole_value))]
    fn write(_alloc: Global, good: &u64) -> Result<Value, NoMemory> {
        Ok(Value::from(*good))
    }
}

/// The most parts of an ask: an integer from 1 to `PARTS_MAX`.
pub struct Parts;

impl Kind for Parts {
    type Good = u8;

    ghost reads = { parts_value };

    ghost prints = { whole };

    ghost is_good = { λ parts. (1 ≤ parts) × (parts ≤ PARTS_MAX) };

    #[tactic(auto, unfolding(crate::specs::Kinds::parts_value))]
    fn read(_alloc: Global, value: &Value) -> Result<Option<u8>, NoMemory> {
        match read_whole(value) {
            Some(number) if 1 <= number && number <= u64::from(PARTS_MAX) => {
                Ok(Some(number as u8))
            }
            _ => Ok(None),
        }
    }

    #[tactic(auto, unfolding(crate::specs::Kinds::parts_value, crate::specs::Kinds::whole_value))]
    fn write(_alloc: Global, good: &u8) -> Result<Value, NoMemory> {
        Ok(Value::from(*good))
    }
}

/// A base fee in msat: an amount of at most 4294967295.
pub struct BaseFee;

impl Kind for BaseFee {
    type Good = u32;

    ghost reads = { amount_up_to fee_max };

    ghost prints = { whole };

    ghost is_good = { λ _. Unit {0} };

    #[tactic(auto, unfolding(crate::specs::Kinds::amount_up_to))]
    fn read(_alloc: Global, value: &Value) -> Result<Option<u32>, NoMemory> {
        match read_amount(value) {
            Some(amount) => Ok(u32::try_from(amount).ok()),
            None => Ok(None),
        }
    }

    #[tactic(auto, unfolding(crate::specs::Kinds::amount_up_to, crate::specs::Kinds::amount_value, crate::specs::Kinds::whole_value))]
    fn write(_alloc: Global, good: &u32) -> Result<Value, NoMemory> {
        Ok(Value::from(*good))
    }
}

/// A proportional fee in parts per million: an integer of at most 4294967295.
pub struct ProportionalFee;

impl Kind for ProportionalFee {
    type Good = u32;

    ghost reads = { whole_up_to fee_max };

    ghost prints = { whole };

    ghost is_good = { λ _. Unit {0} };

    #[tactic(auto, unfolding(crate::specs::Kinds::whole_up_to))]
    fn read(_alloc: Global, value: &Value) -> Result<Option<u32>, NoMemory> {
        match read_whole(value) {
            Some(number) => Ok(u32::try_from(number).ok()),
            None => Ok(None),
        }
    }

    #[tactic(auto, unfolding(crate::specs::Kinds::whole_up_to, crate::specs::Kinds::whole_value))]
    fn write(_alloc: Global, good: &u32) -> Result<Value, NoMemory> {
        Ok(Value::from(*good))
    }
}

/// A CLTV delta in blocks: an integer of at most 65535.
pub struct CltvDelta;

impl Kind for CltvDelta {
    type Good = u16;

    ghost reads = { whole_up_to delay_max };

    ghost prints = { whole };

    ghost is_good = { λ _. Unit {0} };

    #[tactic(auto, unfolding(crate::specs::Kinds::whole_up_to))]
    fn read(_alloc: Global, value: &Value) -> Result<Option<u16>, NoMemory> {
        match read_whole(value) {
            Some(number) => Ok(u16::try_from(number).ok()),
            None => Ok(None),
        }
    }

    #[tactic(auto, unfolding(crate::specs::Kinds::whole_up_to, crate::specs::Kinds::whole_value))]
    fn write(_alloc: Global, good: &u16) -> Result<Value, NoMemory> {
        Ok(Value::from(*good))
    }
}

/// An integer from -100 to 100.
pub struct Percent;

impl Kind for Percent {
    type Good = i8;

    ghost reads = { percent_value };

    ghost prints = { percent_data };

    ghost is_good = { λ z. (negsuc 99 ≤ℤ z) × (z ≤ℤ pos 100) };

    #[tactic(auto, unfolding(crate::specs::Kinds::percent_value))]
    fn read(_alloc: Global, value: &Value) -> Result<Option<i8>, NoMemory> {
        match value.as_i64() {
            Some(number) if -100 <= number && number <= 100 => Ok(Some(number as i8)),
            _ => Ok(None),
        }
    }

    #[tactic(auto, unfolding(crate::specs::Kinds::percent_value))]
    fn write(_alloc: Global, good: &i8) -> Result<Value, NoMemory> {
        Ok(Value::from(*good))
    }
}
