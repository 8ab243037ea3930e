ghost use Rattle.std.specs.Prelude.{◌≡◌};
ghost use Rattle.askrene_command.specs.Reply.{is_routes};

use layer::{Constraint, Layer, Name, Snapshot};
use plan_base::{Items, Reservation, Scid};

/// A layer with its name.
#[derive(Debug, Drop)]
pub struct Listed {
    pub name: Name,
    pub layer: Layer,
}

/// Why the state refuses a command. A refused command changes nothing.
#[derive(Debug, Drop)]
pub enum Refusal {
    /// A layer with this name exists.
    LayerExists { layer: Name },
    /// No layer with this name exists.
    LayerUnknown { layer: Name },
    /// The maximum number of layers, `count`, is reached.
    LayersFull { count: usize },
    /// The layer has created the channel already.
    ChannelExists { layer: Name, scid: Scid },
    /// The maximum number of entries of this layer is reached.
    LayerFull { layer: Name },
    /// The item at this index matches no reservation that is left by the earlier items.
    NotReserved { index: usize },
    /// The limit would be exceeded; `length` reservations are held.
    ReservationsFull { length: usize },
}

/// The reply to a command.
#[derive(Debug, Drop)]
pub enum EventReply {
    /// The command was carried out.
    Done,
    /// The command removed `count` constraints.
    Removed { count: u32 },
    /// The constraint that was recorded, if any.
    Informed { constraint: Option<Constraint> },
    /// The listed layers, in order of creation.
    Layers(Items<Listed>),
    /// All reservations, oldest first, listed at `now` in Unix seconds.
    Reservations { now: u64, list: Items<Reservation> },
    /// The ask, the layers that it names, and all reservations.
    Routes(Snapshot),
    /// The command was refused.
    Refused(Refusal),
}

impl EventReply {
    /// Whether routes are to be computed from the reply.
    pub fn is_routes(&self) -> bool
        ensures { result ≡ is_routes self.now }
    {
        match self {
            EventReply::Routes(_) => true,
            EventReply::Done
            | EventReply::Removed { .. }
            | EventReply::Informed { .. }
            | EventReply::Layers(_)
            | EventReply::Reservations { .. }
            | EventReply::Refused(_) => false,
        }
    }
}
