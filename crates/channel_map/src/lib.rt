//! Reads the texts of maps: the channels that a node knows, and those of the node itself, as lists of directions.
#![tactic(auto)]

mod channel_map;
mod channels;
mod edge;
mod entries;
mod entry;
mod fault;
mod key;
mod nodes;
mod order;
mod pieces;

pub use channel_map::{
    ChannelMap, LOCAL_DIRECTIONS_MAX, Local, MAP_DIRECTIONS_MAX, MAP_NODES_MAX, read_local,
    read_map,
};
pub use edge::Edge;
pub use fault::{Field, MapFault};
pub use nodes::{Ends, MapNodes};
