ghost use Rattle.std.specs.Prelude.{◌≡◌, ◌-◌, ◌*◌, ◌^◌};
ghost use Rattle.flow_model.specs.declared.limits.TheConstants.{ARCS_MAX, COST_MAX, NODES_MAX, POTENTIAL_MAX};
ghost use Rattle.flow_model.specs.Laws.{CutHasNoFlow, FirstArcsFirst, ShownIsCheapest};

/// The law that a flow is cheapest among all feasible flows if potentials show it. It does nothing when it runs.
#[tactic(auto, using(crate::proofs::Duality::shown_is_cheapest))]
pub fn shown_is_cheapest()
    ensures { ShownIsCheapest }
{}

/// The law that no flow is feasible if a side cuts the source off. It does nothing when it runs.
#[tactic(auto, using(crate::proofs::Duality::cut_has_no_flow))]
pub fn cut_has_no_flow()
    ensures { CutHasNoFlow }
{}

/// The law that a flow which is filled in order takes each direction's first arcs first. It does nothing when it runs.
#[tactic(auto, using(crate::proofs::Filled::first_arcs_first))]
pub fn first_arcs_first()
    ensures { FirstArcsFirst }
{}

/// The values of the limits. It does nothing when it runs.
pub fn limit_values()
    ensures nodes { NODES_MAX ≡ 2 ^ 24 }
    ensures arcs { ARCS_MAX ≡ 2 ^ 26 - 1 }
    ensures cost { COST_MAX ≡ 2 * 10 ^ 12 - 1 }
    ensures potential { POTENTIAL_MAX ≡ 10 ^ 24 - 1 }
{}
