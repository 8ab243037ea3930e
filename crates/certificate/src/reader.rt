ghost use Rattle.std.specs.Prelude.{◌≡◌, ◌+◌, ◌<◌, ◌≤◌, ◌^◌, IfOk, IfErr, Ok, length, All};
ghost use Rattle.certificate.specs.Reading as Reading;
ghost use Rattle.certificate.specs.Cert.{FitsLoads, IsGoodProblem, IsLoad, answer_of};
ghost use Rattle.certificate.specs.Certificate.{Certificate, IsCertificate};
ghost use Rattle.certificate.specs.Fault.{GivesBack, IsFirstBadLineOf, IsLineOf};
ghost use Rattle.certificate.specs.Text.{certificate_text};

use crate::balance::balances;
use crate::cert::{Cert, Evidence, Load};
use crate::fault::CertFault;
use crate::limits::{CERT_ARCS_MAX, CERT_NODES_MAX};
use crate::line::{ArcLine, LineForm, PotentialLine, SideLine, end, head, kind, problem};
use crate::problem::{CertificateKind, Problem};
use std::alloc::Global;

/// The fewest bytes of a line of an arc or a potential.
const SHORTEST_LINE: usize = 12;

/// Reads a certificate. `Line` is the number, from 1, of the first line that isn't in the grammar. A line without an LF
/// is missing, and bytes after the last line count as one more line.
#[tactic(auto, using(crate::proofs::Texts::text_complete, crate::proofs::Texts::text_sound, crate::proofs::Texts::text_failed))]
pub fn read(alloc: Global, text: &[u8]) -> Result<Cert, CertFault>
    ensures grammar { IfOk result (λ c. IsCertificate c) }
    ensures text { IfOk result (λ c. certificate_text c ≡ text.now) }
    ensures line { IfErr result (IsFirstBadLineOf text.now) }
    ensures back { (c : Certificate) → IsCertificate c → certificate_text c ≡ text.now → GivesBack c result }
{
    read_whole(alloc, text)
}

/// Reads the lines in order.
#[tactic(auto, unfolding(crate::specs::Reading::read_text))]
fn read_whole(alloc: Global, text: &[u8]) -> Result<Cert, CertFault>
    ensures ok { IfOk result (λ c. Reading.read_text text.now ≡ Ok c) }
    ensures line { IfErr result (λ e. IsLineOf e (Reading.read_text text.now)) }
{
    let Some((version, second)) = head(text) else {
        return Err(CertFault::Line { line: 1 });
    };
    let Some((kind, numbers)) = kind(second) else {
        return Err(CertFault::Line { line: 2 });
    };
    let Some((problem, third)) = problem(numbers, version) else {
        return Err(CertFault::Line { line: 2 });
    };
    body(alloc, kind, problem, third)
}

/// Reads the lines after the second.
#[tactic(auto, unfolding(crate::specs::Reading::read_body))]
fn body(
    alloc: Global,
    kind: CertificateKind,
    problem: Problem,
    text: &[u8],
) -> Result<Cert, CertFault>
    requires { IsGoodProblem problem }
    ensures ok { IfOk result (λ c. Reading.read_body kind problem text.now ≡ Ok c) }
    ensures line { IfErr result (λ e. IsLineOf e (Reading.read_body kind problem text.now)) }
{
    let arc_line = ArcLine {
        version: problem.version,
        kind,
        nodes: problem.nodes as u32,
    };
    let (loads, text) = lines(alloc, &arc_line, problem.arcs, 3, text)?;
    let evidence = evidence(alloc, kind, problem.nodes, &loads, 3 + problem.arcs, text)?;
    Ok(Cert {
        problem,
        loads,
        evidence,
    })
}

/// Reads the lines of nodes and the last line.
#[tactic(auto, unfolding(crate::specs::Reading::read_answer))]
fn evidence(
    alloc: Global,
    kind: CertificateKind,
    nodes: u64,
    loads: &[Load],
    line: u64,
    text: &[u8],
) -> Result<Evidence, CertFault>
    requires froms { All (λ l. l.0.from < nodes) loads.now }
    requires tos { All (λ l. l.0.to < nodes) loads.now }
    requires units { All (IsLoad kind) loads.now }
    requires few { length loads.now ≤ CERT_ARCS_MAX }
    requires nodes { nodes ≤ CERT_NODES_MAX }
    requires line { line ≤ 3 + CERT_ARCS_MAX }
    ensures ok { IfOk result (λ e. Reading.read_answer kind nodes loads.now line text.now ≡ Ok (answer_of loads.now e)) }
    ensures loads { IfOk result (λ e. FitsLoads nodes loads.now e) }
    ensures line { IfErr result (λ e. IsLineOf e (Reading.read_answer kind nodes loads.now line text.now)) }
{
    match kind {
        CertificateKind::Flow => {
            let potentials = node_lines(alloc, &PotentialLine, nodes, line, text)?;
            let balances = balances(alloc, nodes as usize, loads)?;
            Ok(Evidence::Potentials {
                potentials,
                balances,
            })
        }
        CertificateKind::Cut => {
            let side = node_lines(alloc, &SideLine, nodes, line, text)?;
            Ok(Evidence::Side { side })
        }
    }
}

/// Reads a line for each node, and the last line.
#[tactic(auto, unfolding(crate::specs::Reading::read_nodes))]
fn node_lines<L: LineForm>(
    alloc: Global,
    reader: &L,
    nodes: u64,
    line: u64,
    text: &[u8],
) -> Result<Vec<L::Item>, CertFault>
where
    L::Item: Drop,
    requires nodes { nodes ≤ CERT_NODES_MAX }
    requires line { line ≤ 3 + CERT_ARCS_MAX }
    ensures ok { IfOk result (λ v. Reading.read_nodes (L.reads reader.now) nodes line text.now ≡ Ok v.items) }
    ensures line { IfErr result (λ e. IsLineOf e (Reading.read_nodes (L.reads reader.now) nodes line text.now)) }
{
    let (items, text) = lines(alloc, reader, nodes, line, text)?;
    last(text, line + nodes)?;
    Ok(items)
}

/// Reads the last line, after which the text ends.
#[tactic(auto, unfolding(crate::specs::Reading::read_last))]
fn last(text: &[u8], line: u64) -> Result<(), CertFault>
    requires { line < 2 ^ 32 }
    ensures ok { IfOk result (λ u. Reading.read_last line text.now ≡ Ok u) }
    ensures line { IfErr result (λ e. IsLineOf e (Reading.read_last line text.now)) }
{
    let Some(rest) = end(text) else {
        return Err(CertFault::Line { line });
    };
    if rest.is_empty() {
        Ok(())
    } else {
        Err(CertFault::Line { line: line + 1 })
    }
}

/// Reads `count` lines, of which the first has the number `first`.
fn lines<'a, L: LineForm>(
    alloc: Global,
    reader: &L,
    count: u64,
    first: u64,
    text: &'a [u8],
) -> Result<(Vec<L::Item>, &'a [u8]), CertFault>
where
    L::Item: Drop,
    requires few { first + count < 2 ^ 32 }
    ensures ok { IfOk result (λ r. Reading.read_lines (L.reads reader.now) count first text.now ≡ Ok (r.0.items, r.1.now)) }
    ensures line { IfErr result (λ e. IsLineOf e (Reading.read_lines (L.reads reader.now) count first text.now)) }
{
    let room = (text.len() / SHORTEST_LINE).min(count as usize);
    let mut items = Vec::with_capacity(alloc, room)?;
    let mut rest = text;
    for i in 0..count {
        let line = first + i;
        let Some((item, after)) = reader.read(line, rest) else {
            return Err(CertFault::Line { line });
        };
        items.push(item)?;
        rest = after;
    }
    Ok((items, rest))
}
