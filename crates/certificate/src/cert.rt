ghost use Rattle.std.specs.Prelude.{◌≡◌};
ghost use Rattle.certificate.specs.Certificate.{potentials_of, potentials_view};

use crate::problem::Problem;
use crate::version::Version;
use flow_model::{Arc, AsArc};
use std::marker::Model;

/// An arc of a certificate with the units that it carries; 0 if the certificate has no flow.
#[derive(Clone, Copy, Debug)]
pub(crate) struct Load {
    pub(crate) from: u32,
    pub(crate) to: u32,
    pub(crate) room: u64,
    pub(crate) cost: u64,
    pub(crate) units: u64,
    pub(crate) dir: u32,
}

impl Model for Load {
    ghost use Rattle.std.specs.Prelude.{ℕ};
    ghost use Rattle.flow_model.specs.declared.instance.Arc.{Arc};

    ghost Value = { Arc × ℕ };

    ghost view = { λ l. (record { from = l.from; to = l.to; room = l.room; cost = l.cost; dir = l.dir }, l.units) };

    ghost inverse = { λ l. record { from = l.0.from; to = l.0.to; room = l.0.room; cost = l.0.cost; units = l.1; dir = l.0.dir } };
}

impl AsArc for Load {
    ghost arc = { λ l. l.0 };

    fn arc(self) -> Arc {
        Arc {
            from: self.from,
            to: self.to,
            room: self.room,
            cost: self.cost,
            dir: self.dir,
        }
    }
}

/// The evidence of a certificate.
#[derive(Debug, Drop)]
pub(crate) enum Evidence {
    /// For each node its potential, and the units that leave it less the units that enter it.
    Potentials {
        potentials: Vec<i128>,
        balances: Vec<i128>,
    },
    /// For each node whether it is on the side of the source.
    Side {
        side: Vec<bool>,
    },
}

/// A certificate: an instance, and a flow with potentials or a side. It keeps each node's balance.
#[derive(Debug, Drop)]
pub struct Cert {
    pub(crate) problem: Problem,
    pub(crate) loads: Vec<Load>,
    pub(crate) evidence: Evidence,
}

impl Model for Cert {
    ghost use Rattle.std.specs.Prelude.{◌≡◌, length};
    ghost use Rattle.certificate.specs.Certificate.{Certificate, IsCertificate};
    ghost use Rattle.certificate.specs.Cert.{certificate_of, answer_of, FitsLoads};

    ghost Value = { Certificate };

    ghost view = { λ c. certificate_of c.problem c.loads.items (answer_of c.loads.items c.evidence) };

    ghost invariant = { λ c. IsCertificate (certificate_of c.problem c.loads.items (answer_of c.loads.items c.evidence))
        × FitsLoads c.problem.nodes c.loads.items c.evidence × (length c.loads.items ≡ c.problem.arcs) };
}

impl Cert {
    /// The version of the text.
    pub fn version(&self) -> Version
        ensures { result ≡ self.now.version }
    {
        self.problem.version
    }

    /// The potentials of a flow's certificate, one for each node; None if and only if it is a cut's certificate.
    pub fn potentials(&self) -> Option<&[i128]>
        ensures { potentials_view result ≡ potentials_of self.now.answer }
    {
        match &self.evidence {
            Evidence::Potentials { potentials, .. } => Some(potentials.as_slice()),
            Evidence::Side { .. } => None,
        }
    }
}
