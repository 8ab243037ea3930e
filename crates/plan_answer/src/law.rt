ghost use Rattle.plan_answer.specs.Laws.{CertificatesPass};

/// The law that a printed certificate, read and checked, is found cheapest if routes are printed, and is found to have
/// no flow if a cut is. It does nothing when it runs.
#[tactic(auto, using(crate::proofs::Passing::certificates_pass))]
pub fn certificates_pass()
    ensures { CertificatesPass }
{}
