ghost use Rattle.std.specs.Prelude.{◌≡◌, ◌+◌, ◌^◌, ◌<◌, ◌∷◌, [], Some, string_bytes, IfOk, IfSome};
ghost use Rattle.std.specs.Ordering.{nat_cmp};
ghost use Rattle.std.specs.Result.{result_ok};
ghost use Rattle.plan_base.specs.Number.{number_of};
ghost use Rattle.plan_base.specs.Scid.{scid_from, scid_new, scid_of, scid_text, block_of, transaction_of, output_of};
ghost use Rattle.plan_base.specs.Dir.{dir_of, dir_order, dir_text, side_of};

use crate::NoMemory;
use crate::number::{cut_at, read_number};
use std::alloc::Global;
use std::cmp::Ordering;
use std::error::Error;
use std::fmt;
use std::marker::Model;

/// A short channel id: a block (24 bits), a transaction in that block (24 bits) and an output of that transaction
/// (16 bits), as the number `block * 2^40 + transaction * 2^16 + output` (BOLT 7). Ids are ordered by that number.
#[derive(Clone, Copy, Debug, PartialEq, Eq, PartialOrd, Ord, Hash)]
pub struct Scid {
    number: u64,
}

impl Model for Scid {
    ghost use Rattle.std.specs.Prelude.{ℕ};

    ghost Value = { ℕ };

    ghost view = { λ id. id.number };

    ghost inverse = { λ number. record { number = number } };
}

/// The text is not a short channel id, or not a direction.
#[derive(Clone, Copy, Debug, PartialEq, Eq)]
pub struct ScidFault;

impl fmt::Display for ScidFault {
    fn fmt<W: fmt::Write>(&self, f: &mut fmt::Formatter<W>) -> fmt::Result {
        f.write_str("not a short channel id")
    }
}

impl Error for ScidFault {}

#[tactic(auto, unfolding(crate::specs::Scid::scid_new))]
fn read_parts(block: &str, transaction: &str, output: &str) -> Option<Scid>
    ensures { result ≡ scid_from (number_of block.now) (number_of transaction.now) (number_of output.now) }
{
    let block = u32::try_from(read_number(block)?).ok()?;
    let transaction = u32::try_from(read_number(transaction)?).ok()?;
    let output = u16::try_from(read_number(output)?).ok()?;
    Scid::new(block, transaction, output)
}

impl Scid {
    /// The id of these parts. None if and only if the block or the transaction has more than 24 bits.
    #[tactic(auto, unfolding(crate::specs::Scid::scid_new))]
    pub fn new(block: u32, transaction: u32, output: u16) -> Option<Scid>
        ensures { result ≡ scid_new block transaction output }
    {
        if block < 1 << 24 && transaction < 1 << 24 {
            Some(Scid {
                number: (u64::from(block) << 40)
                    + (u64::from(transaction) << 16)
                    + u64::from(output),
            })
        } else {
            None
        }
    }

    /// The number, by which ids are ordered.
    pub fn number(&self) -> u64
        ensures { result ≡ self.now }
    {
        self.number
    }

    /// The order of ids: by number.
    pub fn compare(&self, other: &Scid) -> Ordering
        ensures { result ≡ nat_cmp self.now other.now }
    {
        self.cmp(other)
    }

    /// The block, of 24 bits.
    pub fn block(&self) -> u32
        ensures value { result ≡ block_of self.now }
        ensures bits { result < 2 ^ 24 }
    {
        (self.number >> 40) as u32
    }

    /// The transaction in its block, of 24 bits.
    pub fn transaction(&self) -> u32
        ensures value { result ≡ transaction_of self.now }
        ensures bits { result < 2 ^ 24 }
    {
        (self.number >> 16 & 0xff_ffff) as u32
    }

    /// The output of its transaction.
    pub fn output(&self) -> u16
        ensures { result ≡ output_of self.now }
    {
        (self.number & 0xffff) as u16
    }

    /// Reads three decimal numbers with a lower case x between each two. Leading zeros are accepted. Takes no memory.
    #[tactic(auto, unfolding(crate::specs::Scid::scid_of))]
    pub fn read(text: &str) -> Result<Scid, ScidFault>
        ensures { result_ok result ≡ scid_of text.now }
    {
        let (block, rest) = cut_at(text, 'x');
        let (transaction, output) = cut_at(rest, 'x');
        read_parts(block, transaction, output).ok_or(ScidFault)
    }

    /// Writes `block x transaction x output` without the spaces and without leading zeros. The text is read back as the
    /// same id.
    #[tactic(auto, using(crate::proofs::Ids::written_scid), unfolding(crate::specs::Scid::scid_text))]
    pub fn write(&self, alloc: Global) -> Result<String, NoMemory>
        ensures text { IfOk result (λ text. string_bytes text ≡ scid_text self.now) }
        ensures read_back { IfOk result (λ text. scid_of (string_bytes text) ≡ Some self.now) }
    {
        Ok(format!(in alloc; "{}x{}x{}", self.block(), self.transaction(), self.output())?)
    }
}

/// A direction of a channel. Directions are ordered by the channel's number and then by side.
#[derive(Clone, Copy, Debug, PartialEq, Eq, PartialOrd, Ord, Hash)]
pub struct Dir {
    /// The channel.
    pub scid: Scid,
    /// 0 if the direction leads from the node with the lesser id, else 1 (BOLT 7).
    pub side: u8,
}

impl Model for Dir {
    ghost use Rattle.std.specs.Prelude.{◌<◌};
    ghost use Rattle.plan_base.specs.Dir.{Direction};

    ghost Value = { Direction };

    ghost view = { λ dir. record { scid = dir.scid; side = dir.side } };

    ghost invariant = { λ dir. dir.side < 2 };

    ghost inverse = { λ dir. record { scid = dir.scid; side = dir.side } };
}

fn read_side(text: &str) -> Option<u8>
    ensures value { result ≡ side_of text.now }
    ensures range { IfSome result (λ side. side < 2) }
{
    match text.as_bytes() {
        b"0" => Some(0),
        b"1" => Some(1),
        _ => None,
    }
}

fn side_text(side: u8) -> &'static str
    requires { side < 2 }
    ensures { result.now ≡ 47 ∷ (48 + side) ∷ [] }
{
    if side == 0 { "/0" } else { "/1" }
}

impl Dir {
    /// The order of directions: by the channel's number, then by side.
    pub fn compare(&self, other: &Dir) -> Ordering
        ensures { result ≡ dir_order self.now other.now }
    {
        self.cmp(other)
    }

    /// Reads a short channel id, a slash, and `0` or `1`. Takes no memory.
    #[tactic(auto, unfolding(crate::specs::Dir::dir_of))]
    pub fn read(text: &str) -> Result<Dir, ScidFault>
        ensures { result_ok result ≡ dir_of text.now }
    {
        let (scid, side) = cut_at(text, '/');
        match (Scid::read(scid), read_side(side)) {
            (Ok(scid), Some(side)) => Ok(Dir { scid, side }),
            (Err(_), _) | (Ok(_), None) => Err(ScidFault),
        }
    }

    /// Writes the short channel id, a slash and the side. The text is read back as the same direction.
    pub fn write(&self, alloc: Global) -> Result<String, NoMemory>
        ensures text { IfOk result (λ text. string_bytes text ≡ dir_text self.now) }
        ensures read_back { IfOk result (λ text. dir_of (string_bytes text) ≡ Some self.now) }
    {
        let mut text = self.scid.write(alloc)?;
        text.push_str(side_text(self.side))?;
        Ok(text)
    }
}
