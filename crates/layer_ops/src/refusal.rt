ghost use Rattle.std.specs.Prelude.{◌≡◌};
ghost use Rattle.layer_ops.specs.declared.refusal.LayerRefusal.TheVariants.{NoMemory as no_memory};

use plan_base::{NoMemory, Scid};
use std::error::Error;
use std::fmt;

/// Why a layer was not changed, in the order of the tests.
#[derive(Clone, Copy, Debug, PartialEq, Eq)]
pub enum LayerRefusal {
    /// The layer has created this channel already.
    ChannelExists {
        /// The channel.
        scid: Scid,
    },
    /// The call would add an entry, and the layer has the greatest number of entries.
    LayerFull {
        /// That number.
        entries: usize,
    },
    /// Out of memory.
    NoMemory,
}

impl fmt::Display for LayerRefusal {
    fn fmt<W: fmt::Write>(&self, f: &mut fmt::Formatter<W>) -> fmt::Result {
        match self {
            LayerRefusal::ChannelExists { .. } => f.write_str("channel exists"),
            LayerRefusal::LayerFull { entries } => write!(f, "layer full, with {entries} entries"),
            LayerRefusal::NoMemory => f.write_str("out of memory"),
        }
    }
}

impl Error for LayerRefusal {}

impl From<NoMemory> for LayerRefusal {
    ghost from_gives = { λ _ refusal. refusal ≡ no_memory };

    fn from(_: NoMemory) -> Self {
        LayerRefusal::NoMemory
    }
}
