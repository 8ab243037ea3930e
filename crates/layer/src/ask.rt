ghost use Rattle.std.specs.Prelude.{◌≡◌, IfOk};
ghost use Rattle.layer.specs.Ask.{asks_for, is_automatic_layer, same_asked, same_automatic};

use crate::Name;
use plan_base::{Items, NoMemory, NodeId};
use std::alloc::Global;

/// The most layers that one ask may use.
pub const ASKED_MAX: usize = 64;

/// The most parts that an ask may allow.
pub const PARTS_MAX: u8 = 100;

/// A layer that is made for an ask, and is not stored.
#[derive(Clone, Copy, Debug)]
pub enum Auto {
    /// The channels of the payer's own node, as its local file lists them.
    LocalChans,
    /// No fee and no delay on the directions that leave the source.
    SourceFree,
    /// One part alone.
    NoMpp,
}

impl Auto {
    /// Whether both are the same layer.
    pub fn is_same(self, other: Auto) -> bool
        ensures { result ≡ same_automatic self other }
    {
        match (self, other) {
            (Auto::LocalChans, Auto::LocalChans) => true,
            (Auto::SourceFree, Auto::SourceFree) => true,
            (Auto::NoMpp, Auto::NoMpp) => true,
            _ => false,
        }
    }
}

/// A layer that an ask uses.
#[derive(Debug, Drop)]
pub enum Asked {
    /// An automatic layer.
    Auto(Auto),
    /// A stored layer.
    Named(Name),
}

impl Asked {
    /// Whether both are the same layer.
    pub fn is_same(&self, other: &Asked) -> bool
        ensures { result ≡ same_asked self.now other.now }
    {
        match (self, other) {
            (Asked::Auto(a), Asked::Auto(b)) => a.is_same(*b),
            (Asked::Named(a), Asked::Named(b)) => a == b,
            _ => false,
        }
    }

    /// Whether it is this automatic layer.
    pub fn is_automatic(&self, automatic: Auto) -> bool
        ensures { result ≡ is_automatic_layer automatic self.now }
    {
        match self {
            Asked::Auto(other) => automatic.is_same(*other),
            Asked::Named(_) => false,
        }
    }

    /// An equal item.
    pub fn copy(&self, alloc: Global) -> Result<Asked, NoMemory>
        ensures { IfOk result (λ asked. asked ≡ self.now) }
    {
        match self {
            Asked::Auto(automatic) => Ok(Asked::Auto(*automatic)),
            Asked::Named(name) => Ok(Asked::Named(name.copy(alloc)?)),
        }
    }
}

/// How to send an amount from one node to another, as a payer asks.
#[derive(Debug, Drop)]
pub struct Ask {
    /// The payer's node.
    pub source: NodeId,
    /// The payee's node, another one.
    pub destination: NodeId,
    /// The amount that is to arrive, 1 to MAX msat.
    pub amount: u64,
    /// The layers to use, at most `ASKED_MAX`, each once.
    pub layers: Items<Asked>,
    /// The greatest sum of fees, at most MAX msat.
    pub maxfee: u64,
    /// The CLTV delta of the last hop, in blocks.
    pub final_cltv: u16,
    /// The greatest CLTV delta of a part, in blocks.
    pub maxdelay: u16,
    /// The most parts, 1 to `PARTS_MAX`.
    pub maxparts: u8,
    /// Whether the reply is to have a certificate.
    pub certificate: bool,
}

impl Ask {
    /// An equal ask.
    pub fn copy(&self, alloc: Global) -> Result<Ask, NoMemory>
        ensures equal { IfOk result (λ ask. ask ≡ self.now) }
        ensures limits { (ASKED_MAX ≡ 64) × (PARTS_MAX ≡ 100) }
    {
        Ok(Ask {
            source: self.source,
            destination: self.destination,
            amount: self.amount,
            layers: copy_layers(alloc, self.layers.as_slice())?,
            maxfee: self.maxfee,
            final_cltv: self.final_cltv,
            maxdelay: self.maxdelay,
            maxparts: self.maxparts,
            certificate: self.certificate,
        })
    }

    /// Whether the ask uses this automatic layer.
    pub fn asks_for(&self, automatic: Auto) -> bool
        ensures { result ≡ asks_for automatic self.now.layers }
    {
        self.layers
            .as_slice()
            .iter()
            .any(|asked| asked.is_automatic(automatic))
    }
}

fn copy_layers(alloc: Global, layers: &[Asked]) -> Result<Items<Asked>, NoMemory>
    ensures { IfOk result (λ copied. copied ≡ layers.now) }
{
    let mut copied = Vec::new(alloc);
    for i in 0..layers.len() {
        copied.push(layers[i].copy(alloc)?)?;
    }
    Ok(Items::from_vec(copied))
}
