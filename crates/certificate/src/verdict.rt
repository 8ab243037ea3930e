ghost use Rattle.std.specs.Prelude.{◌≡◌, ◌<◌, ◌≤◌, ◌^◌, All, IfSome, length, position, pos};
ghost use Rattle.flow_model.specs.Potentials.{IsSmall, reduced_cost as reduced_cost_of};
ghost use Rattle.certificate.specs.Cert.{Tallies, units_in, net_of};
ghost use Rattle.certificate.specs.Certificate.{IsCertificate};
ghost use Rattle.certificate.specs.Check as Check;

use crate::cert::{Cert, Evidence, Load};
use crate::limits::{CERT_ARCS_MAX, CERT_NODES_MAX};
use crate::problem::Problem;
use flow_model::leaving_room;
use plan_base::MAX;

/// The result of the check of a certificate.
#[derive(Clone, Copy, Debug, PartialEq, Eq)]
pub enum Verdict {
    /// The flow is cheapest among all feasible flows.
    Cheapest,
    /// No flow is feasible.
    NoFlow,
    /// The certificate shows nothing. `line` is the line of the first failure, counted from 1.
    No { line: u64 },
}

/// Checks a certificate without a solver. No memory is taken. It fails at the first arc that follows an arc of its own
/// direction and has other ends, is cheaper, or carries units although that arc isn't full. Else a flow fails at the
/// first arc that carries more than its room, else at the first node whose balance isn't that of a feasible flow, else
/// at the first arc that the potentials don't show. A side fails if it lacks the source, contains the destination, or
/// too much room leaves it.
#[tactic(auto, using(crate::proofs::Verdicts::true_verdict))]
pub fn check(cert: &Cert) -> Verdict
    ensures verdict { result ≡ Check.verdict_of cert.now }
    ensures truth { Check.IsTrueOf cert.now result }
{
    first_failure(cert)
}

/// The first failure, or what the certificate shows.
fn first_failure(cert: &Cert) -> Verdict
    ensures verdict { result ≡ Check.verdict_of cert.now }
    ensures certificate { IsCertificate cert.now }
{
    if let Some(i) = first_disorder(&cert.loads) {
        return Verdict::No { line: 4 + i as u64 };
    }
    first_gap(cert)
}

/// The first arc that is followed by an arc of its own direction out of order.
fn first_disorder(loads: &[Load]) -> Option<usize>
    ensures within { IfSome result (λ i. i < length loads.now) }
    ensures value { result ≡ position Check.are_disordered (Check.neighbours loads.now) }
{
    loads
        .iter()
        .zip(loads.iter().skip(1))
        .position(|(earlier, later)| are_disordered(*earlier, *later))
}

/// Whether the later of two arcs that stand next to each other is of the earlier one's direction and out of order.
fn are_disordered(earlier: Load, later: Load) -> bool
    ensures { result ≡ Check.are_disordered (earlier, later) }
{
    earlier.dir == later.dir
        && (have_other_ends(earlier, later)
            || later.cost < earlier.cost
            || leaves_room(earlier, later))
}

/// Whether two arcs lead from or to different nodes.
fn have_other_ends(earlier: Load, later: Load) -> bool
    ensures { result ≡ Check.have_other_ends earlier.0 later.0 }
{
    earlier.from != later.from || earlier.to != later.to
}

/// Whether the later arc carries units and the earlier one isn't full.
fn leaves_room(earlier: Load, later: Load) -> bool
    ensures { result ≡ Check.leaves_room earlier later }
{
    later.units > 0 && earlier.units != earlier.room
}

/// The first failure of the flow or the side, or what it shows.
fn first_gap(cert: &Cert) -> Verdict
    ensures verdict { result ≡ Check.verdict_for cert.now.net cert.now.answer }
    ensures certificate { IsCertificate cert.now }
{
    match &cert.evidence {
        Evidence::Potentials {
            potentials,
            balances,
        } => check_flow(&cert.problem, &cert.loads, balances, potentials),
        Evidence::Side { side } => check_cut(&cert.problem, &cert.loads, side),
    }
}

/// Checks a flow.
fn check_flow(problem: &Problem, loads: &[Load], balances: &[i128], potentials: &[i128]) -> Verdict
    requires froms { All (λ l. l.0.from < problem.now.nodes) loads.now }
    requires tos { All (λ l. l.0.to < problem.now.nodes) loads.now }
    requires few { length loads.now ≤ CERT_ARCS_MAX }
    requires count { length loads.now ≡ problem.now.arcs }
    requires nodes { problem.now.nodes ≤ CERT_NODES_MAX }
    requires tallied { Tallies problem.now.nodes balances.now loads.now }
    requires long { length potentials.now ≡ problem.now.nodes }
    requires small { All IsSmall potentials.now }
    ensures { result ≡ Check.flow_verdict (net_of problem.now loads.now) (units_in loads.now) potentials.now }
{
    if let Some(i) = first_over(loads) {
        return Verdict::No { line: 3 + i as u64 };
    }
    if let Some(v) = first_uneven(problem, balances) {
        return Verdict::No {
            line: 3 + problem.arcs + v as u64,
        };
    }
    if let Some(i) = first_missed(loads, potentials) {
        return Verdict::No { line: 3 + i as u64 };
    }
    Verdict::Cheapest
}

/// The first arc that carries more than its room.
fn first_over(loads: &[Load]) -> Option<usize>
    ensures { result ≡ position Check.is_over loads.now }
{
    loads.iter().position(|load| load.units > load.room)
}

/// The first node whose balance isn't that of a feasible flow.
#[tactic(auto, using(crate::proofs::Found::below_found, crate::proofs::Found::below_none))]
fn first_uneven(problem: &Problem, balances: &[i128]) -> Option<usize>
    ensures within { IfSome result (λ v. v < length balances.now) }
    ensures value { result ≡ Check.first_below (Check.is_uneven_at problem.now.source problem.now.destination problem.now.demand balances.now) (length balances.now) }
{
    for v in 0..balances.len() {
        if is_uneven(problem, balances, v) {
            return Some(v);
        }
    }
    None
}

/// Whether a node's balance isn't that of a feasible flow.
fn is_uneven(problem: &Problem, balances: &[i128], node: usize) -> bool
    requires { node < length balances.now }
    ensures { result ≡ Check.is_uneven_at problem.now.source problem.now.destination problem.now.demand balances.now node }
{
    balances[node] != due(problem, node as u64)
}

/// How many more units leave a node than enter it in a feasible flow.
fn due(problem: &Problem, node: u64) -> i128
    ensures { result ≡ Check.due problem.now.source problem.now.destination problem.now.demand node }
{
    if node == problem.source {
        i128::from(problem.demand)
    } else if node == problem.destination {
        0 - i128::from(problem.demand)
    } else {
        0
    }
}

/// The first arc that the potentials don't show.
#[tactic(auto, using(crate::proofs::Found::position_found, crate::proofs::Found::position_none))]
fn first_missed(loads: &[Load], potentials: &[i128]) -> Option<usize>
    requires froms { All (λ l. l.0.from < length potentials.now) loads.now }
    requires tos { All (λ l. l.0.to < length potentials.now) loads.now }
    requires small { All IsSmall potentials.now }
    ensures { result ≡ position (Check.is_missed potentials.now) loads.now }
{
    for i in 0..loads.len() {
        if is_missed(loads[i], potentials) {
            return Some(i);
        }
    }
    None
}

/// Whether the potentials don't show an arc.
fn is_missed(load: Load, potentials: &[i128]) -> bool
    requires from { load.0.from < length potentials.now }
    requires to { load.0.to < length potentials.now }
    requires small { All IsSmall potentials.now }
    ensures { result ≡ Check.is_missed potentials.now load }
{
    let reduced = reduced_cost(load, potentials);
    gains(load, reduced) || loses(load, reduced)
}

/// Whether an arc with room left has a reduced cost below 0.
fn gains(load: Load, reduced: i128) -> bool
    ensures { result ≡ Check.gains load.1 load.0.room reduced }
{
    load.units < load.room && reduced < 0
}

/// Whether an arc that carries units has a reduced cost above 0.
fn loses(load: Load, reduced: i128) -> bool
    ensures { result ≡ Check.loses load.1 reduced }
{
    load.units > 0 && reduced > 0
}

/// The reduced cost of an arc: its cost and the potential of its start, less the potential of its end.
fn reduced_cost(load: Load, potentials: &[i128]) -> i128
    requires from { load.0.from < length potentials.now }
    requires to { load.0.to < length potentials.now }
    requires small { All IsSmall potentials.now }
    ensures { result ≡ reduced_cost_of potentials.now load.0 }
{
    i128::from(load.cost) + potentials[load.from as usize] - potentials[load.to as usize]
}

/// Checks a side.
fn check_cut(problem: &Problem, loads: &[Load], side: &[bool]) -> Verdict
    requires froms { All (λ l. l.0.from < problem.now.nodes) loads.now }
    requires tos { All (λ l. l.0.to < problem.now.nodes) loads.now }
    requires rooms { All (λ l. l.0.room ≤ MAX) loads.now }
    requires few { length loads.now ≤ CERT_ARCS_MAX }
    requires count { length loads.now ≡ problem.now.arcs }
    requires nodes { problem.now.nodes ≤ CERT_NODES_MAX }
    requires source { problem.now.source < problem.now.nodes }
    requires destination { problem.now.destination < problem.now.nodes }
    requires long { length side.now ≡ problem.now.nodes }
    ensures { result ≡ Check.cut_verdict (net_of problem.now loads.now) side.now }
{
    let nodes_from = 3 + problem.arcs;
    if !side[problem.source as usize] {
        return Verdict::No {
            line: nodes_from + problem.source,
        };
    }
    if side[problem.destination as usize] {
        return Verdict::No {
            line: nodes_from + problem.destination,
        };
    }
    if leaving_room(loads, side) >= u128::from(problem.demand) {
        return Verdict::No { line: 2 };
    }
    Verdict::NoFlow
}
