ghost use Rattle.std.specs.Prelude.{◌≡◌};
ghost use Rattle.view_build.specs.View.{IsGoodView, ViewParts};

use plan_base::{Dir, NodeId};
use std::marker::Model;

/// The most directions of a view: those of a map and of a local file, and one for each entry of all layers.
pub const DIRECTIONS_MAX: usize = 4_460_544;

/// A direction that an ask may use.
#[derive(Clone, Copy, Debug, PartialEq)]
pub struct ViewDir {
    /// The direction.
    pub dir: Dir,
    /// The place of its start among the view's nodes.
    pub from: u32,
    /// The place of its end among the view's nodes, another one.
    pub to: u32,
    /// What it can carry surely, in msat; at most `max`.
    pub min: u64,
    /// What it can carry at most, at most MAX msat.
    pub max: u64,
    /// The least amount of an HTLC, at most MAX msat.
    pub htlc_min: u64,
    /// The greatest amount of an HTLC, at most MAX msat.
    pub htlc_max: u64,
    /// The base fee, in msat.
    pub base: u32,
    /// The proportional fee, in millionths of the amount.
    pub ppm: u32,
    /// The delay, in blocks.
    pub delay: u16,
    /// The bias, in percent, from `layer::BIAS_MIN` to `layer::BIAS_MAX`.
    pub bias: i8,
}

/// The directions that an ask may use, ascending, and their ends, numbered from 0 in ascending order.
#[derive(Debug, Drop)]
pub struct View {
    nodes: Vec<NodeId>,
    dirs: Vec<ViewDir>,
    source: u32,
    destination: u32,
    maxparts: u8,
}

impl Model for View {
    ghost use Rattle.view_build.specs.View.{IsGoodView, ViewParts};

    ghost Value = { ViewParts };

    ghost view = { λ v. record { nodes = v.nodes.items; dirs = v.dirs.items; source = v.source; destination = v.destination; maxparts = v.maxparts } };

    ghost invariant = { λ v. IsGoodView (record { nodes = v.nodes.items; dirs = v.dirs.items; source = v.source; destination = v.destination; maxparts = v.maxparts }) };
}

impl View {
    /// A view of these parts. Takes no memory.
    pub fn new(
        nodes: Vec<NodeId>,
        dirs: Vec<ViewDir>,
        source: u32,
        destination: u32,
        maxparts: u8,
    ) -> View
        requires { IsGoodView (record { nodes = nodes.items; dirs = dirs.items; source = source; destination = destination; maxparts = maxparts }) }
        ensures value { result ≡ record { nodes = nodes.items; dirs = dirs.items; source = source; destination = destination; maxparts = maxparts } }
        ensures limit { DIRECTIONS_MAX ≡ 4460544 }
    {
        View {
            nodes,
            dirs,
            source,
            destination,
            maxparts,
        }
    }

    /// The ids of the nodes, ascending.
    pub fn nodes(&self) -> &[NodeId]
        ensures list { result.now ≡ self.now.nodes }
        ensures good { IsGoodView self.now }
    {
        &self.nodes
    }

    /// The directions, ascending by the channel's number and then by side.
    pub fn dirs(&self) -> &[ViewDir]
        ensures list { result.now ≡ self.now.dirs }
        ensures good { IsGoodView self.now }
    {
        &self.dirs
    }

    /// The place of the ask's source among the nodes.
    pub fn source(&self) -> u32
        ensures value { result ≡ self.now.source }
        ensures good { IsGoodView self.now }
    {
        self.source
    }

    /// The place of the ask's destination among the nodes.
    pub fn destination(&self) -> u32
        ensures value { result ≡ self.now.destination }
        ensures good { IsGoodView self.now }
    {
        self.destination
    }

    /// The most parts.
    pub fn maxparts(&self) -> u8
        ensures value { result ≡ self.now.maxparts }
        ensures good { IsGoodView self.now }
    {
        self.maxparts
    }
}
