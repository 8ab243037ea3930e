ghost use Rattle.std.specs.Prelude.{◌≡◌, ◌<◌, ◌↔◌, ◌^◌, All, length, sum_by, true};
ghost use Rattle.flow_model.specs.Side.{Cuts, crossing as crossing_of};
ghost use Rattle.flow_model.specs.declared.instance.Arc.{Arc as ArcOf};

use crate::{Arc, Instance};

/// Whether a side shows that no flow is feasible. No memory is taken.
pub fn cuts(instance: &Instance, side: &[bool]) -> bool
    ensures { (result ≡ true) ↔ Cuts instance.now side.now }
{
    if side.len() != instance.nodes() as usize {
        return false;
    }
    if !side[instance.source() as usize] || side[instance.destination() as usize] {
        return false;
    }
    leaving_room(instance.arcs(), side) < u128::from(instance.demand())
}

/// A value that has an arc: an arc, or an arc with more beside it.
pub trait AsArc: Copy {
    ghost arc: { Self → ArcOf };

    /// The arc.
    fn arc(self) -> Arc
        ensures { result ≡ arc self };
}

impl AsArc for Arc {
    ghost arc = { λ a. a };

    fn arc(self) -> Arc {
        self
    }
}

/// The room of the arcs that leave a side. No memory is taken.
#[tactic(auto, using(std::proofs::lemmas::List::Sums::sum_by_more, std::proofs::lemmas::List::Sums::sum_by_more_le))]
pub fn leaving_room<A: AsArc>(arcs: &[A], side: &[bool]) -> u128
    requires froms { All (λ a. (A.arc a).from < length side.now) arcs.now }
    requires tos { All (λ a. (A.arc a).to < length side.now) arcs.now }
    requires fits { sum_by (λ a. crossing_of side.now (A.arc a)) arcs.now < 2 ^ 128 }
    ensures { result ≡ sum_by (λ a. crossing_of side.now (A.arc a)) arcs.now }
{
    let mut room = 0;
    for i in 0..arcs.len() {
        room += u128::from(crossing(arcs[i].arc(), side));
    }
    room
}

/// The room of an arc that leaves the side, and 0 of any other.
fn crossing(arc: Arc, side: &[bool]) -> u64
    requires from { arc.from < length side.now }
    requires to { arc.to < length side.now }
    ensures { result ≡ crossing_of side.now arc }
{
    if side[arc.from as usize] && !side[arc.to as usize] {
        arc.room
    } else {
        0
    }
}
