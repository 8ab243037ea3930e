ghost use Rattle.std.specs.Prelude.{◌≡◌};

use plan_base::{Dir, NoMemory};

/// What is bad of an entry. The variants stand in the order in which an entry is checked.
#[derive(Clone, Copy, Debug, PartialEq, Eq)]
pub enum Field {
    /// The entry is no object.
    NotObject,
    /// `source` is not the text of a node id.
    Source,
    /// `destination` is not the text of a node id, or it is the source's.
    Destination,
    /// `short_channel_id` is not the text of a short channel id.
    ShortChannelId,
    /// `direction` is given and is not the side from source to destination.
    Direction,
    /// `amount_msat` is not an amount.
    Amount,
    /// `active` is given and is neither true nor false.
    Active,
    /// `base_fee_millisatoshi` is not a whole number of 32 bits.
    BaseFee,
    /// `fee_per_millionth` is not a whole number of 32 bits.
    FeePerMillionth,
    /// `delay` is not a whole number of 16 bits.
    Delay,
    /// `htlc_minimum_msat` is given and is not an amount.
    HtlcMinimum,
    /// `htlc_maximum_msat` is given and is not an amount.
    HtlcMaximum,
}

/// Why a text is not a map, or not a local file.
#[derive(Clone, Copy, Debug, PartialEq, Eq)]
pub enum MapFault {
    /// The text is not a JSON text.
    NotJson,
    /// Neither the text's object nor the object at its key `result` has an array `channels`.
    NoChannels,
    /// The first bad entry.
    Entry {
        /// Its place in the array, from 0.
        index: usize,
        /// The first of its keys that is bad.
        field: Field,
    },
    /// An earlier entry has the same direction.
    Twice {
        /// The direction of the first such entry.
        dir: Dir,
    },
    /// The text lists more directions or more nodes than the limits allow.
    TooMany {
        /// How many directions it lists.
        directions: usize,
        /// How many nodes are ends of those directions.
        nodes: usize,
    },
    /// The file is longer than a loader reads. The calls of this crate never return it.
    Long,
    /// Out of memory.
    NoMemory,
}

impl From<NoMemory> for MapFault {
    ghost from_gives = { λ _ e. e ≡ NoMemory };

    ghost use Rattle.channel_map.specs.declared.fault.MapFault.TheVariants.{NoMemory};

    fn from(_: NoMemory) -> MapFault {
        MapFault::NoMemory
    }
}
