ghost use Rattle.std.specs.Prelude.{◌≡◌};
ghost use Rattle.certificate.specs.declared.limits.TheConstants.{CERT_ARCS_MAX, CERT_NODES_MAX, VERSION_ONE_ARCS_MAX};
ghost use Rattle.certificate.specs.Laws.{CutPasses, ShownPasses, TextIsReadBack, VersionOneIsUnordered};

/// The law that a certificate's text is read back as the certificate. It does nothing when it runs.
#[tactic(auto, using(crate::proofs::Texts::text_is_read_back))]
pub fn text_is_read_back()
    ensures { TextIsReadBack }
{}

/// The law that the certificate of a flow passes the check if the potentials show the flow, which fills the arcs of
/// each direction in order. It does nothing when it runs.
#[tactic(auto, using(crate::proofs::Passes::shown_passes))]
pub fn shown_passes()
    ensures { ShownPasses }
{}

/// The law that the certificate of a side passes the check if the side cuts the source off. It does nothing when it
/// runs.
#[tactic(auto, using(crate::proofs::Passes::cut_passes))]
pub fn cut_passes()
    ensures { CutPasses }
{}

/// The law that a certificate of version 1 has the verdict of its flow or its side: no two of its arcs are of one
/// direction. It does nothing when it runs.
#[tactic(auto, using(crate::proofs::Passes::version_one_is_unordered))]
pub fn version_one_is_unordered()
    ensures { VersionOneIsUnordered }
{}

/// The values of the limits. It does nothing when it runs.
pub fn limit_values()
    ensures arcs { CERT_ARCS_MAX ≡ 1048576 }
    ensures version_one_arcs { VERSION_ONE_ARCS_MAX ≡ 262144 }
    ensures nodes { CERT_NODES_MAX ≡ 262144 }
{}
