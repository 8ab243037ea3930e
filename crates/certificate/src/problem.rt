use crate::version::Version;

/// Whether a certificate has a flow or a cut.
#[derive(Clone, Copy, Debug, PartialEq, Eq)]
pub(crate) enum CertificateKind {
    Flow,
    Cut,
}

/// The version of a certificate, and the numbers of its second line: an instance without its arcs, and how many arcs
/// follow.
#[derive(Clone, Copy, Debug, PartialEq, Eq)]
pub(crate) struct Problem {
    pub(crate) version: Version,
    pub(crate) nodes: u64,
    pub(crate) arcs: u64,
    pub(crate) source: u64,
    pub(crate) destination: u64,
    pub(crate) demand: u64,
}
