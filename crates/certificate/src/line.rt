ghost use Rattle.std.specs.Prelude.{◌≡◌, ◌<◌, ◌≤◌, ◌-◌, ◌+◌, ◌^◌, IfSome, codes, length, ℕ, List, ℤ, Bool, Option};
ghost use Rattle.certificate.specs.Cert.{IsGoodProblem};
ghost use Rattle.certificate.specs.Reading as Reading;

use crate::cert::Load;
use crate::limits::{AMOUNT_DIGITS_MAX, CERT_NODES_MAX, DIRECTION_MAX};
use crate::number::{number, signed};
use crate::problem::{CertificateKind, Problem};
use crate::version::Version;
use flow_model::COST_MAX;
use plan_base::MAX;

/// The text after the word, if the text begins with it.
#[tactic(auto, unfolding(crate::specs::Reading::read_word))]
fn word<'a>(text: &'a [u8], word: &[u8]) -> Option<&'a [u8]>
    ensures { Reading.text_view result ≡ Reading.read_word word.now text.now }
{
    if text.starts_with(word) {
        Some(&text[word.len()..])
    } else {
        None
    }
}

/// The text after the byte, if the text begins with it.
fn byte(text: &[u8], byte: u8) -> Option<&[u8]>
    ensures { Reading.text_view result ≡ Reading.read_byte byte text.now }
{
    match text {
        [first, rest @ ..] if *first == byte => Some(rest),
        _ => None,
    }
}

/// A space and a number of at most `most`.
#[tactic(auto, unfolding(crate::specs::Reading::read_field))]
fn field(text: &[u8], most: u64) -> Option<(u64, &[u8])>
    ensures value { Reading.read_view result ≡ Reading.read_field most text.now }
    ensures fits { IfSome result (λ r. r.0 ≤ most) }
{
    let text = byte(text, b' ')?;
    number(text, AMOUNT_DIGITS_MAX, most)
}

/// The first line: its word and the version.
#[tactic(auto, unfolding(crate::specs::Reading::read_head))]
pub(crate) fn head(text: &[u8]) -> Option<(Version, &[u8])>
    ensures { Reading.read_view result ≡ Reading.read_head text.now }
{
    let text = word(text, b"askrene-certificate")?;
    let (number, text) = field(text, Version::Two.number())?;
    let text = byte(text, b'\n')?;
    let version = Version::of(number)?;
    Some((version, text))
}

/// The word of the second line.
#[tactic(auto, unfolding(crate::specs::Reading::read_kind))]
pub(crate) fn kind(text: &[u8]) -> Option<(CertificateKind, &[u8])>
    ensures { Reading.read_view result ≡ Reading.read_kind text.now }
{
    if text.starts_with(b"flow") {
        return Some((CertificateKind::Flow, &text[4..]));
    }
    if text.starts_with(b"cut") {
        return Some((CertificateKind::Cut, &text[3..]));
    }
    None
}

/// The numbers of the second line.
#[tactic(auto, using(crate::proofs::Grammar::good_problem), unfolding(crate::specs::Reading::read_problem))]
pub(crate) fn problem(text: &[u8], version: Version) -> Option<(Problem, &[u8])>
    ensures good { IfSome result (λ r. IsGoodProblem r.0) }
    ensures value { Reading.read_view result ≡ Reading.read_problem version text.now }
{
    let (nodes, text) = field(text, CERT_NODES_MAX)?;
    let (arcs, text) = field(text, version.arcs_max())?;
    let (source, text) = field(text, nodes.saturating_sub(1))?;
    let (destination, text) = field(text, nodes.saturating_sub(1))?;
    let (demand, text) = field(text, MAX)?;
    let text = byte(text, b'\n')?;
    if nodes < 2 || source == destination || demand == 0 {
        return None;
    }
    let problem = Problem {
        version,
        nodes,
        arcs,
        source,
        destination,
        demand,
    };
    Some((problem, text))
}

/// A form of line that a certificate has many of.
pub(crate) trait LineForm {
    /// The value of a line.
    type Item;

    ghost reads: { Self → ℕ → List ℕ → Option (Self.Item × List ℕ) };

    /// The value of the first line, which has the number `line`, and the text after it.
    fn read<'a>(&self, line: u64, text: &'a [u8]) -> Option<(Self::Item, &'a [u8])>
        requires { line < 2 ^ 32 }
        ensures { Reading.read_view result ≡ reads self.now line text.now };
}

/// The lines of arcs.
#[derive(Clone, Copy)]
pub(crate) struct ArcLine {
    pub(crate) version: Version,
    pub(crate) kind: CertificateKind,
    pub(crate) nodes: u32,
}

/// The lines of potentials.
#[derive(Clone, Copy)]
pub(crate) struct PotentialLine;

/// The lines of a side.
#[derive(Clone, Copy)]
pub(crate) struct SideLine;

impl LineForm for ArcLine {
    type Item = Load;

    ghost reads = { λ l. Reading.read_arc l.version l.kind l.nodes };

    fn read<'a>(&self, line: u64, text: &'a [u8]) -> Option<(Load, &'a [u8])> {
        arc(text, *self, line)
    }
}

impl LineForm for PotentialLine {
    type Item = i128;

    ghost reads = { λ _ _. Reading.read_potential };

    fn read<'a>(&self, _line: u64, text: &'a [u8]) -> Option<(i128, &'a [u8])> {
        potential(text)
    }
}

impl LineForm for SideLine {
    type Item = bool;

    ghost reads = { λ _ _. Reading.read_side };

    fn read<'a>(&self, _line: u64, text: &'a [u8]) -> Option<(bool, &'a [u8])> {
        side(text)
    }
}

/// The units at the end of an arc's line, if the certificate has a flow.
#[tactic(auto, unfolding(crate::specs::Reading::read_units))]
fn units(text: &[u8], kind: CertificateKind) -> Option<(u64, &[u8])>
    ensures { Reading.read_view result ≡ Reading.read_units kind text.now }
{
    match kind {
        CertificateKind::Flow => field(text, MAX),
        CertificateKind::Cut => Some((0, text)),
    }
}

/// The direction of an arc. In version 1 each arc is a direction of its own, by its line.
#[tactic(auto, unfolding(crate::specs::Reading::read_direction))]
fn direction(text: &[u8], version: Version, line: u64) -> Option<(u64, &[u8])>
    requires { line < 2 ^ 32 }
    ensures value { Reading.read_view result ≡ Reading.read_direction version line text.now }
    ensures fits { IfSome result (λ r. r.0 < 2 ^ 32) }
{
    match version {
        Version::One => Some((line.saturating_sub(3), text)),
        Version::Two => field(text, DIRECTION_MAX),
    }
}

/// An arc's line, which has the number `line`.
#[tactic(auto, unfolding(crate::specs::Reading::read_arc))]
fn arc(text: &[u8], form: ArcLine, line: u64) -> Option<(Load, &[u8])>
    requires { line < 2 ^ 32 }
    ensures { Reading.read_view result ≡ Reading.read_arc form.version form.kind form.nodes line text.now }
{
    let most = u64::from(form.nodes).saturating_sub(1);
    let text = word(text, b"arc")?;
    let (dir, text) = direction(text, form.version, line)?;
    let (from, text) = field(text, most)?;
    let (to, text) = field(text, most)?;
    let (room, text) = field(text, MAX)?;
    let (cost, text) = field(text, COST_MAX)?;
    let (units, text) = units(text, form.kind)?;
    let text = byte(text, b'\n')?;
    if from == to || room == 0 || cost == 0 {
        return None;
    }
    let load = Load {
        from: from as u32,
        to: to as u32,
        room,
        cost,
        units,
        dir: dir as u32,
    };
    Some((load, text))
}

/// A potential's line.
#[tactic(auto, unfolding(crate::specs::Reading::read_potential))]
fn potential(text: &[u8]) -> Option<(i128, &[u8])>
    ensures { Reading.read_view result ≡ Reading.read_potential text.now }
{
    let text = word(text, b"potential ")?;
    let (potential, text) = signed(text)?;
    let text = byte(text, b'\n')?;
    Some((potential, text))
}

/// A line of a side.
#[tactic(auto, unfolding(crate::specs::Reading::read_side))]
fn side(text: &[u8]) -> Option<(bool, &[u8])>
    ensures { Reading.read_view result ≡ Reading.read_side text.now }
{
    let text = word(text, b"side")?;
    let (on, text) = field(text, 1)?;
    let text = byte(text, b'\n')?;
    Some((on == 1, text))
}

/// The last line.
#[tactic(auto, unfolding(crate::specs::Reading::read_end))]
pub(crate) fn end(text: &[u8]) -> Option<&[u8]>
    ensures { Reading.text_view result ≡ Reading.read_end text.now }
{
    let text = word(text, b"end")?;
    byte(text, b'\n')
}
