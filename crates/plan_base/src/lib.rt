//! The values that all crates share: node ids, short channel ids, directions and amounts, how each is read and written
//! as text, the out-of-memory error, and lists and texts that contracts can compare.
#![tactic(auto)]

mod amount;
mod channel_id;
mod fee;
mod held;
mod items;
mod memory;
mod node_id;
mod number;
mod text;

pub use amount::{MAX, MsatFault, read_msat, write_msat};
pub use channel_id::{Dir, Scid, ScidFault};
pub use fee::{Toll, add_fee};
pub use held::{Held, Reservation};
pub use items::Items;
pub use memory::NoMemory;
pub use node_id::{IdFault, NodeId};
pub use text::Text;
