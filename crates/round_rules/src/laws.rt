ghost use Rattle.round_rules.specs.Laws.{PartsKeepLimits, RoundsAreFew};

/// The law that a run on a view of n directions has at most 6n + 81 rounds. It does nothing when it runs.
#[tactic(auto, using(crate::proofs::Count::rounds_are_few))]
pub fn rounds_are_few()
    ensures { RoundsAreFew }
{}

/// The law that the parts in which a run ends keep every limit. It does nothing when it runs.
#[tactic(auto, using(crate::proofs::Keeps::parts_keep_limits))]
pub fn parts_keep_limits()
    ensures { PartsKeepLimits }
{}
