ghost use Rattle.std.specs.Prelude.{◌≡◌, ◌≤◌, ◌<◌, ◌↔◌, decimal, string_bytes, None, Some, IfOk, IsErrOf, IsSomeAnd};
ghost use Rattle.std.specs.Result.{result_ok};
ghost use Rattle.plan_base.specs.Amount.{msat_number, msat_of, without_unit};

use crate::NoMemory;
use crate::number::read_number;
use std::alloc::Global;
use std::error::Error;
use std::fmt;

/// The greatest amount, in msat: 21 million bitcoin.
pub const MAX: u64 = 2_100_000_000_000_000_000;

/// Why a text is not an amount.
#[derive(Clone, Copy, Debug, PartialEq, Eq)]
pub enum MsatFault {
    /// The text is not one to twenty digits, with or without `msat` after them.
    Syntax,
    /// The text has that form, and its number is above `MAX`.
    TooLarge,
}

impl fmt::Display for MsatFault {
    fn fmt<W: fmt::Write>(&self, f: &mut fmt::Formatter<W>) -> fmt::Result {
        match self {
            MsatFault::Syntax => f.write_str("not an amount in msat"),
            MsatFault::TooLarge => f.write_str("amount too large"),
        }
    }
}

impl Error for MsatFault {}

fn digits_of(text: &str) -> &str
    ensures { result.now ≡ without_unit text.now }
{
    match text.strip_suffix("msat") {
        Some(digits) => digits,
        None => text,
    }
}

/// Reads an amount in msat: a number of at most `MAX`, with or without `msat` after it. Takes no memory.
pub fn read_msat(text: &str) -> Result<u64, MsatFault>
    ensures value { result_ok result ≡ msat_of text.now }
    ensures limit { MAX ≡ 2100000000000000000 }
    ensures syntax { IsErrOf result MsatFault.Syntax ↔ (msat_number text.now ≡ None) }
    ensures too_large { IsErrOf result MsatFault.TooLarge ↔ IsSomeAnd (msat_number text.now) (λ number. MAX < number) }
{
    let number = read_number(digits_of(text)).ok_or(MsatFault::Syntax)?;
    match u64::try_from(number) {
        Ok(value) if value <= MAX => Ok(value),
        Ok(_) | Err(_) => Err(MsatFault::TooLarge),
    }
}

/// Writes an amount in msat as digits only. They are read back as the same value if it is at most `MAX`.
#[tactic(auto, using(crate::proofs::Amounts::written_msat))]
pub fn write_msat(alloc: Global, value: u64) -> Result<String, NoMemory>
    ensures text { IfOk result (λ text. string_bytes text ≡ decimal value) }
    ensures read_back { value ≤ MAX → IfOk result (λ text. msat_of (string_bytes text) ≡ Some value) }
{
    Ok(value.to_string(alloc)?)
}
