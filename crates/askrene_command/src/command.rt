ghost use Rattle.std.specs.Prelude.{◌≡◌};
ghost use Rattle.askrene_command.specs.Command as spec;

use layer::{Ask, Bias, Created, Name, Update};
use plan_base::{Dir, Held, Items, NodeId};

/// The most items that one command reserves or unreserves.
pub const PATH_MAX: usize = 1_000;

/// What a payment showed about the liquidity of a direction.
#[derive(Clone, Copy, Debug, PartialEq, Eq)]
pub enum Inform {
    /// The amount did not pass: the liquidity is less.
    Constrained,
    /// The amount passed: the liquidity is at least the amount.
    Unconstrained,
    /// The payment succeeded. It shows nothing about the liquidity that remains.
    Succeeded,
}

impl Inform {
    /// An amount of 0 msat always passes, so `Constrained` with 0 is refused.
    pub fn is_impossible(self, amount: u64) -> bool
        ensures { result ≡ spec.is_impossible self amount }
    {
        match self {
            Inform::Constrained => amount == 0,
            Inform::Unconstrained | Inform::Succeeded => false,
        }
    }
}

/// A command to the state.
#[derive(Debug, Drop)]
pub enum Command {
    /// Creates an empty layer with this name.
    CreateLayer {
        layer: Name,
    },
    /// Removes the layer and its contents.
    RemoveLayer {
        layer: Name,
    },
    /// Lists all layers, or the layer with this name.
    ListLayers {
        layer: Option<Name>,
    },
    /// Creates a channel in a layer. Its directions are disabled until updates enable them.
    CreateChannel {
        layer: Name,
        channel: Created,
    },
    /// Overrides fields of a direction.
    UpdateChannel {
        layer: Name,
        change: Update,
    },
    /// Records what a payment of an amount in msat showed about a direction.
    InformChannel {
        layer: Name,
        dir: Dir,
        amount: u64,
        kind: Inform,
    },
    /// Sets the bias of a direction.
    BiasChannel {
        layer: Name,
        bias: Bias,
    },
    /// Disables a node: no part of a payment may pass it.
    DisableNode {
        layer: Name,
        node: NodeId,
    },
    /// Removes the constraints recorded before a moment, in Unix seconds.
    Age {
        layer: Name,
        cutoff: u64,
    },
    /// Reserves all items, or none.
    Reserve {
        path: Items<Held>,
    },
    /// Removes, for each item, the earliest matching reservation that no earlier item has taken; for all items, or none.
    Unreserve {
        path: Items<Held>,
    },
    /// Lists all reservations.
    ListReservations,
    /// Takes the snapshot from which routes are computed.
    GetRoutes(Ask),
}
