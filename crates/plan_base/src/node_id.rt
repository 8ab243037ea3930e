ghost use Rattle.std.specs.Prelude.{◌≡◌, ℕ, Some, not, position, string_bytes, unwrap_or, IfOk, IfErr};
ghost use Rattle.std.specs.Ordering.{nat_cmp};
ghost use Rattle.std.specs.Cmp.Lexicographic.{slice_cmp};
ghost use Rattle.std.specs.Result.{result_ok};
ghost use Rattle.hex.specs.Hex.{is_hex_digit, hex_digit_value, pair_value, decode_sized};
ghost use Rattle.plan_base.specs.NodeId.{node_id_from, node_id_of, node_id_text, id_fault_at};

use crate::NoMemory;
use std::alloc::Global;
use std::cmp::Ordering;
use std::error::Error;
use std::fmt;
use std::marker::Model;

/// The id of a Lightning node: a compressed public key of 33 bytes, the first of them 2 or 3 (BOLT 7).
/// Ids are ordered by their bytes, the first byte first.
#[derive(Clone, Copy, Debug, PartialEq, Eq, PartialOrd, Ord, Hash)]
pub struct NodeId {
    bytes: [u8; 33],
}

impl Model for NodeId {
    ghost use Rattle.std.specs.Prelude.{ℕ, List};
    ghost use Rattle.plan_base.specs.NodeId.{IsNodeId};

    ghost Value = { List ℕ };

    ghost view = { λ id. id.bytes };

    ghost invariant = { λ id. IsNodeId id.bytes };

    ghost inverse = { λ bytes. record { bytes = bytes } };
}

/// The position at which a text is not a node id.
#[derive(Clone, Copy, Debug, PartialEq, Eq)]
pub struct IdFault {
    /// The first position below 66 with a byte that is not a hexadecimal digit. If there is none and the text does not
    /// have 66 bytes, the lesser of its length and 66. Else 0, because the first byte is neither 02 nor 03.
    pub at: usize,
}

impl fmt::Display for IdFault {
    fn fmt<W: fmt::Write>(&self, f: &mut fmt::Formatter<W>) -> fmt::Result {
        write!(f, "not a node id, at byte {}", self.at)
    }
}

impl Error for IdFault {}

fn is_digit(byte: u8) -> bool
    ensures { result ≡ is_hex_digit byte }
{
    matches!(byte, b'A'..=b'F' | b'a'..=b'f' | b'0'..=b'9')
}

fn first_no_digit(bytes: &[u8]) -> Option<usize>
    ensures { result ≡ position (λ c. not (is_hex_digit c)) bytes.now }
{
    bytes.iter().position(|byte| !is_digit(*byte))
}

#[tactic(auto, unfolding(crate::specs::NodeId::id_fault_at))]
fn fault_at(text: &str) -> usize
    ensures { result ≡ id_fault_at text.now }
{
    let end = text.len().min(66);
    match first_no_digit(&text.as_bytes()[..end]) {
        Some(at) => at,
        None if text.len() == 66 => 0,
        None => end,
    }
}

// The value of each digit, and 255 for a byte that is no digit.
const DIGIT_VALUES: [u8; 256] = [
    255, 255, 255, 255, 255, 255, 255, 255, 255, 255, 255, 255, 255, 255, 255, 255, 255, 255, 255,
    255, 255, 255, 255, 255, 255, 255, 255, 255, 255, 255, 255, 255, 255, 255, 255, 255, 255, 255,
    255, 255, 255, 255, 255, 255, 255, 255, 255, 255, 0, 1, 2, 3, 4, 5, 6, 7, 8, 9, 255, 255, 255,
    255, 255, 255, 255, 10, 11, 12, 13, 14, 15, 255, 255, 255, 255, 255, 255, 255, 255, 255, 255,
    255, 255, 255, 255, 255, 255, 255, 255, 255, 255, 255, 255, 255, 255, 255, 255, 10, 11, 12, 13,
    14, 15, 255, 255, 255, 255, 255, 255, 255, 255, 255, 255, 255, 255, 255, 255, 255, 255, 255,
    255, 255, 255, 255, 255, 255, 255, 255, 255, 255, 255, 255, 255, 255, 255, 255, 255, 255, 255,
    255, 255, 255, 255, 255, 255, 255, 255, 255, 255, 255, 255, 255, 255, 255, 255, 255, 255, 255,
    255, 255, 255, 255, 255, 255, 255, 255, 255, 255, 255, 255, 255, 255, 255, 255, 255, 255, 255,
    255, 255, 255, 255, 255, 255, 255, 255, 255, 255, 255, 255, 255, 255, 255, 255, 255, 255, 255,
    255, 255, 255, 255, 255, 255, 255, 255, 255, 255, 255, 255, 255, 255, 255, 255, 255, 255, 255,
    255, 255, 255, 255, 255, 255, 255, 255, 255, 255, 255, 255, 255, 255, 255, 255, 255, 255, 255,
    255, 255, 255, 255, 255, 255, 255, 255, 255, 255, 255, 255, 255, 255, 255, 255, 255, 255, 255,
    255, 255, 255,
];

// A table, since a test of random digits costs as much as all else that is read of an id.
#[inline(always)]
fn digit_value(byte: u8) -> u8
    ensures { result ≡ unwrap_or (hex_digit_value byte) 255 }
{
    DIGIT_VALUES[usize::from(byte)]
}

// The byte of two digits.
#[inline(always)]
fn digit_pair(high: u8, low: u8) -> Option<u8>
    ensures { (at : ℕ) → result ≡ result_ok (pair_value high low at) }
{
    let high = digit_value(high);
    let low = digit_value(low);
    if high < 16 && low < 16 {
        Some(high * 16 + low)
    } else {
        None
    }
}

fn decode_digits(digits: &[u8]) -> Option<[u8; 33]>
    ensures { result ≡ result_ok (decode_sized digits.now 33) }
{
    if digits.len() != 66 {
        return None;
    }
    let mut bytes = [0; 33];
    'bytes: for i in 0..33 {
        bytes[i] = digit_pair(digits[2 * i], digits[2 * i + 1])?;
    }
    Some(bytes)
}

impl NodeId {
    fn from_bytes(bytes: [u8; 33]) -> Option<NodeId>
        ensures { result ≡ node_id_from bytes }
    {
        if bytes[0] == 2 || bytes[0] == 3 {
            Some(NodeId { bytes })
        } else {
            None
        }
    }

    #[tactic(auto, unfolding(crate::specs::NodeId::node_id_of))]
    fn decode(text: &str) -> Option<NodeId>
        ensures { result ≡ node_id_of text.now }
    {
        NodeId::from_bytes(decode_digits(text.as_bytes())?)
    }

    /// The order of ids: by bytes, the first byte first.
    pub fn compare(&self, other: &NodeId) -> Ordering
        ensures { result ≡ slice_cmp nat_cmp self.now other.now }
    {
        self.cmp(other)
    }

    /// Reads 66 hexadecimal digits of either case whose first byte is 02 or 03. Takes no memory.
    pub fn read(text: &str) -> Result<NodeId, IdFault>
        ensures value { result_ok result ≡ node_id_of text.now }
        ensures fault { IfErr result (λ fault. fault.at ≡ id_fault_at text.now) }
    {
        match NodeId::decode(text) {
            Some(id) => Ok(id),
            None => Err(IdFault { at: fault_at(text) }),
        }
    }

    /// Writes 66 lower case hexadecimal digits. The text is read back as the same id.
    pub fn write(&self, alloc: Global) -> Result<String, NoMemory>
        ensures text { IfOk result (λ text. string_bytes text ≡ node_id_text self.now) }
        ensures read_back { IfOk result (λ text. node_id_of (string_bytes text) ≡ Some self.now) }
    {
        Ok(hex::encode(alloc, &self.bytes)?)
    }
}
