ghost use Rattle.std.specs.Prelude.{◌≡◌, ◌++◌, ◌∷◌, ◌<◌, [], ℕ, List, IfOk, IfSome, length, option_map};
ghost use Rattle.serde_json.specs.Events.{items_len};
ghost use Rattle.serde_json.specs.View.{view, items_view};
ghost use Rattle.line_cut.specs.Lines.{lines_of};
ghost use Rattle.rpc_lines.specs.Request.{value_of};
ghost use Rattle.workload.specs.Totals as totals;

use memchr::memchr;
use plan_base::NoMemory;
use serde_json::Value;
use std::alloc::Global;

/// The error code of a reply that had no memory.
const OUT_OF_MEMORY: u64 = 399;

/// What the replies of a session add up to.
#[derive(Clone, Copy, Debug, PartialEq, Eq)]
pub struct Totals {
    /// The replies with a result.
    pub routed: u64,
    /// The replies with an error.
    pub refused: u64,
    /// The replies with the error that there was no memory.
    pub out_of_memory: u64,
    /// The routes of all results.
    pub parts: u64,
    /// What all routes deliver.
    pub amount_msat: u128,
    /// The fees of all results.
    pub fee_msat: u128,
}

/// Adds up the replies that a session wrote. A sum that does not fit, which takes more replies than fit in memory, counts as
/// out of memory.
#[tactic(auto, unfolding(crate::specs::Totals::totals_of))]
pub fn count_replies(alloc: Global, written: &[u8]) -> Result<Totals, NoMemory>
    ensures { IfOk result (λ it. it ≡ totals.totals_of written.now) }
{
    let mut counted = Totals {
        routed: 0,
        refused: 0,
        out_of_memory: 0,
        parts: 0,
        amount_msat: 0,
        fee_msat: 0,
    };
    let mut rest = written;
    while !rest.is_empty() {
        let (line, after) = cut_line(rest);
        counted = counted.with_line(alloc, line)?;
        rest = after;
    }
    Ok(counted)
}

/// The first line without its LF, and the bytes after it.
fn cut_line(bytes: &[u8]) -> (&[u8], &[u8])
    requires { 0 < length bytes.now }
    ensures lines { lines_of bytes.now ≡ result.0.now ∷ lines_of result.1.now }
    ensures fewer { length result.1.now < length bytes.now }
{
    match memchr(b'\n', bytes) {
        Some(end) => (&bytes[..end], &bytes[end + 1..]),
        None => (bytes, &[]),
    }
}

impl Totals {
    /// The totals with one more reply.
    fn with_line(self, alloc: Global, line: &[u8]) -> Result<Totals, NoMemory>
        ensures { IfOk result (λ it. it ≡ totals.with_reply self (value_of line.now)) }
    {
        match read_value(alloc, line)? {
            Some(reply) => self.with_reply(&reply),
            None => Ok(self),
        }
    }

    fn with_reply(self, reply: &Value) -> Result<Totals, NoMemory>
        ensures { IfOk result (λ it. it ≡ totals.with_reply self (Some (view reply.now))) }
    {
        if let Some(outcome) = reply.get("result") {
            return self.with_result(outcome);
        }
        match reply.get("error") {
            Some(fault) => self.with_error(fault),
            None => Ok(self),
        }
    }

    fn with_result(self, outcome: &Value) -> Result<Totals, NoMemory>
        ensures { IfOk result (λ it. it ≡ totals.with_result self (view outcome.now)) }
    {
        let (count, sum) = routes_in(outcome)?;
        let fee = u128::from(whole_under(outcome, "fee_msat"));
        Ok(Totals {
            routed: self.routed.checked_add(1).ok_or(NoMemory)?,
            parts: self.parts.checked_add(count).ok_or(NoMemory)?,
            amount_msat: self.amount_msat.checked_add(sum).ok_or(NoMemory)?,
            fee_msat: self.fee_msat.checked_add(fee).ok_or(NoMemory)?,
            ..self
        })
    }

    fn with_error(self, fault: &Value) -> Result<Totals, NoMemory>
        ensures { IfOk result (λ it. it ≡ totals.with_error self (view fault.now)) }
    {
        let out_of_memory = if whole_under(fault, "code") == OUT_OF_MEMORY {
            1
        } else {
            0
        };
        Ok(Totals {
            refused: self.refused.checked_add(1).ok_or(NoMemory)?,
            out_of_memory: self
                .out_of_memory
                .checked_add(out_of_memory)
                .ok_or(NoMemory)?,
            ..self
        })
    }
}

/// The value of a line, if it has one.
#[tactic(auto, using(rpc_lines::proofs::Values::value_of_read, rpc_lines::proofs::Values::value_of_unread))]
fn read_value(alloc: Global, line: &[u8]) -> Result<Option<Value>, NoMemory>
    ensures { IfOk result (λ value. option_map view value ≡ value_of line.now) }
{
    match Value::from_slice(alloc, line) {
        Ok(value) => Ok(Some(value)),
        Err(fault) if fault.is_memory() => Err(NoMemory),
        Err(_) => Ok(None),
    }
}

/// The number of routes in a result, and what they deliver.
fn routes_in(outcome: &Value) -> Result<(u64, u128), NoMemory>
    ensures count { IfOk result (λ it. it.0 ≡ items_len (totals.result_routes (view outcome.now))) }
    ensures sum { IfOk result (λ it. it.1 ≡ totals.amounts_in (totals.result_routes (view outcome.now))) }
{
    match list_under(outcome, "routes") {
        Some(routes) => Ok((count_of(routes), amounts_in(routes)?)),
        None => Ok((0, 0)),
    }
}

#[tactic(auto, using(crate::proofs::Turns::route_count))]
fn count_of(routes: &[Value]) -> u64
    ensures { result ≡ items_len (items_view routes.now) }
{
    routes.len() as u64
}

/// What routes deliver.
#[tactic(auto, using(crate::proofs::Turns::one_more_route))]
fn amounts_in(routes: &[Value]) -> Result<u128, NoMemory>
    ensures { IfOk result (λ sum. sum ≡ totals.amounts_in (items_view routes.now)) }
{
    let mut sum: u128 = 0;
    for route in routes {
        let amount = u128::from(whole_under(route, "amount_msat"));
        sum = sum.checked_add(amount).ok_or(NoMemory)?;
    }
    Ok(sum)
}

/// The array under a key.
fn list_under<'a>(value: &'a Value, key: &str) -> Option<&'a [Value]>
    ensures { option_map (λ list. items_view list.now) result ≡ totals.list_under key.now (view value.now) }
{
    match value.get(key)?.as_array() {
        Some(list) => Some(list.as_slice()),
        None => None,
    }
}

/// The whole number under a key, or 0.
fn whole_under(value: &Value, key: &str) -> u64
    ensures { result ≡ totals.whole_under key.now (view value.now) }
{
    match value.get(key) {
        Some(found) => found.as_u64().unwrap_or(0),
        None => 0,
    }
}
