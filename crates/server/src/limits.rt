/// How many workers a server may have.
pub const WORKERS_MAX: usize = 64;

/// How many connections a server may serve.
pub const CONNECTIONS_MAX: u64 = 65_000;

/// How many turns the pass of a connection can draw at least when its serving begins.
pub const SERVING_TURNS: u32 = 1_000_000;
