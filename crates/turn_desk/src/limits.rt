/// The greatest number of passes and notes that one desk makes, pass 0 included.
pub const PASSES_MAX: u32 = 65_536;

/// The greatest number of turns that one pass draws.
pub const TURNS_MAX: u32 = 4_294_967_295;
