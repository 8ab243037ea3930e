ghost use Rattle.std.specs.Prelude.{◌≡◌, IfSome};
ghost use Rattle.gen_command.specs.Size.{size_of, IsSize};

use workload::{ASKS_MAX, CHANNELS_MAX, NODES_MAX, NODES_MIN};

/// What a workload is made from: the number that its draws begin with, and how many nodes, channels and requests it has.
#[derive(Clone, Copy, Debug, PartialEq, Eq)]
pub struct Size {
    pub number: u64,
    pub nodes: u32,
    pub channels: u32,
    pub asks: u32,
}

impl Size {
    /// The size of these numbers. None if and only if there are fewer than 2 or more than 65,536 nodes, more than 131,072
    /// channels, or more than 10,000 requests.
    #[tactic(auto, unfolding(crate::specs::Size::size_of))]
    pub fn new(number: u64, nodes: u64, channels: u64, asks: u64) -> Option<Size>
        ensures size { result ≡ size_of number nodes channels asks }
        ensures ranges { IfSome result IsSize }
    {
        let nodes = u32::try_from(nodes).ok()?;
        let channels = u32::try_from(channels).ok()?;
        let asks = u32::try_from(asks).ok()?;
        if NODES_MIN <= nodes
            && nodes <= NODES_MAX
            && channels <= CHANNELS_MAX
            && asks <= ASKS_MAX
        {
            Some(Size {
                number,
                nodes,
                channels,
                asks,
            })
        } else {
            None
        }
    }
}
