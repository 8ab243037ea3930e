use plan_base::{NoMemory, Text};
use serde_json::Value;

/// The id of a request, which its reply repeats (JSON-RPC 2.0). An absent id is `Null`.
#[derive(Debug, Drop)]
pub enum Id {
    /// No id, or null.
    Null,
    /// An integer that is not below 0.
    Unsigned(u64),
    /// An integer below 0.
    Signed(i64),
    /// A string.
    Text(Text),
}

/// A request: the name of a method, and its parameters.
#[derive(Drop)]
pub struct Request {
    pub id: Id,
    pub method: Text,
    /// An object or an array; an empty object if the line has none.
    pub params: Value,
}

/// Why a line is not a request.
#[derive(Debug, Drop)]
pub enum RpcFault {
    /// The line is not a JSON text (JSON-RPC 2.0: parse error).
    NotJson,
    /// The line is a JSON text and not a request (JSON-RPC 2.0: invalid request). The id is the line's own if it is of a
    /// valid kind, else null.
    NotRequest { id: Id },
    /// Out of memory.
    NoMemory,
}

impl From<NoMemory> for RpcFault {
    ghost use Rattle.std.specs.Prelude.{◌≡◌};
    ghost use Rattle.rpc_lines.specs.declared.request.RpcFault.TheVariants.{NoMemory};

    ghost from_gives = { λ _ fault. fault ≡ NoMemory };

    fn from(_: NoMemory) -> Self {
        RpcFault::NoMemory
    }
}
