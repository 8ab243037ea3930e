/// The most arcs of a certificate.
pub const CERT_ARCS_MAX: u64 = 1_048_576;

/// The most arcs of a certificate of version 1.
pub const VERSION_ONE_ARCS_MAX: u64 = 262_144;

/// The most nodes of a certificate.
pub const CERT_NODES_MAX: u64 = 262_144;

/// The greatest number of a direction: one less than 2^32.
pub(crate) const DIRECTION_MAX: u64 = 4_294_967_295;

/// The most digits of an amount.
pub(crate) const AMOUNT_DIGITS_MAX: usize = 19;

/// The most digits of a potential.
pub(crate) const POTENTIAL_DIGITS_MAX: usize = 24;
