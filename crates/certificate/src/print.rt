ghost use Rattle.std.specs.Prelude.{◌≡◌, ◌++◌, ◌≤◌, ◌<◌, ◌+◌, ◌*◌, All, IfErr, IfOk, OnOk, length, map, zip, ℕ, ◌∷◌, [], decimal, drop};
ghost use Rattle.std.specs.List.{concat};
ghost use Rattle.plan_base.specs.declared.amount.TheConstants.{MAX};
ghost use Rattle.flow_model.specs.declared.instance.Arc.{Arc};
ghost use Rattle.flow_model.specs.Instance.{IsInstance};
ghost use Rattle.flow_model.specs.Potentials.{IsSmall};
ghost use Rattle.certificate.specs.Certificate.{IsCertificate, cut_certificate, flow_certificate};
ghost use Rattle.certificate.specs.Fault.{IsTooLarge};
ghost use Rattle.certificate.specs.Text as Text;

use crate::fault::CertRefusal;
use crate::limits::{CERT_ARCS_MAX, CERT_NODES_MAX};
use crate::version::Version;
use flow_model::{Arc, Flow, Instance};
use itoa::{Buffer, write_digits};
use plan_base::NoMemory;
use std::alloc::Global;

/// The length of the longest line of six numbers, without its word.
const ROOM: usize = 127;

/// The text of a flow's certificate, in ASCII and version 2. `TooLarge` is returned if and only if the instance has more
/// than `CERT_ARCS_MAX` arcs or `CERT_NODES_MAX` nodes.
pub fn print_flow(
    alloc: Global,
    instance: &Instance,
    flow: &Flow,
    potentials: &[i128],
) -> Result<Vec<u8>, CertRefusal>
    requires arcs { length flow.now ≡ length instance.now.arcs }
    requires units { All (λ units. units ≤ MAX) flow.now }
    requires nodes { length potentials.now ≡ instance.now.nodes }
    requires small { All IsSmall potentials.now }
    ensures text { IfOk result (λ t. t.items ≡ Text.certificate_text (flow_certificate instance.now flow.now potentials.now)) }
    ensures ascii { IfOk result (λ t. All (λ byte. byte < 128) t.items) }
    ensures certificate { OnOk result (IsCertificate (flow_certificate instance.now flow.now potentials.now)) }
    ensures too_large { IfErr result (IsTooLarge instance.now) }
{
    fits(instance)?;
    Ok(flow_text(alloc, instance, flow.list(), potentials)?)
}

/// The text of a cut's certificate, in ASCII and version 2. `TooLarge` is returned if and only if the instance has more
/// than `CERT_ARCS_MAX` arcs or `CERT_NODES_MAX` nodes.
pub fn print_cut(alloc: Global, instance: &Instance, side: &[bool]) -> Result<Vec<u8>, CertRefusal>
    requires { length side.now ≡ instance.now.nodes }
    ensures text { IfOk result (λ t. t.items ≡ Text.certificate_text (cut_certificate instance.now side.now)) }
    ensures ascii { IfOk result (λ t. All (λ byte. byte < 128) t.items) }
    ensures certificate { OnOk result (IsCertificate (cut_certificate instance.now side.now)) }
    ensures too_large { IfErr result (IsTooLarge instance.now) }
{
    fits(instance)?;
    Ok(cut_text(alloc, instance, side)?)
}

/// Refuses an instance that is too large.
fn fits(instance: &Instance) -> Result<(), CertRefusal>
    ensures bounds { IsInstance instance.now }
    ensures arcs { OnOk result (length instance.now.arcs ≤ CERT_ARCS_MAX) }
    ensures nodes { OnOk result (instance.now.nodes ≤ CERT_NODES_MAX) }
    ensures too_large { IfErr result (IsTooLarge instance.now) }
{
    let arcs = instance.arcs().len() as u64;
    let nodes = u64::from(instance.nodes());
    if arcs > CERT_ARCS_MAX {
        return Err(CertRefusal::TooLarge { arcs, nodes });
    }
    if nodes > CERT_NODES_MAX {
        return Err(CertRefusal::TooLarge { arcs, nodes });
    }
    Ok(())
}

fn flow_text(
    alloc: Global,
    instance: &Instance,
    units: &[u64],
    potentials: &[i128],
) -> Result<Vec<u8>, NoMemory>
    requires { length units.now ≡ length instance.now.arcs }
    ensures { IfOk result (λ t. t.items ≡ Text.certificate_text (flow_certificate instance.now units.now potentials.now)) }
{
    let mut text = Vec::new(alloc);
    first_line(&mut text)?;
    problem(&mut text, b"flow", instance)?;
    load_lines(&mut text, instance.arcs(), units)?;
    potential_lines(&mut text, potentials)?;
    last_line(&mut text)?;
    Ok(text)
}

fn cut_text(alloc: Global, instance: &Instance, side: &[bool]) -> Result<Vec<u8>, NoMemory>
    ensures { IfOk result (λ t. t.items ≡ Text.certificate_text (cut_certificate instance.now side.now)) }
{
    let mut text = Vec::new(alloc);
    first_line(&mut text)?;
    problem(&mut text, b"cut", instance)?;
    arc_lines(&mut text, instance.arcs())?;
    side_lines(&mut text, side)?;
    last_line(&mut text)?;
    Ok(text)
}

/// The word of the text and its version.
#[tactic(auto, unfolding(crate::specs::Text::head_line))]
fn first_line(text: &mut Vec<u8>) -> Result<(), NoMemory>
    ensures { OnOk result (text.new.items ≡ text.old.items ++ Text.head_line Version.Two) }
{
    line(text, b"askrene-certificate", &[Version::Two.number()])
}

/// The kind and the numbers of the instance.
fn problem(text: &mut Vec<u8>, kind: &[u8], instance: &Instance) -> Result<(), NoMemory>
    ensures { OnOk result (text.new.items ≡ text.old.items ++ Text.text_line kind.now (instance.now.nodes ∷ length instance.now.arcs ∷ instance.now.source ∷ instance.now.destination ∷ instance.now.demand ∷ [])) }
{
    let nodes = u64::from(instance.nodes());
    let arcs = instance.arcs().len() as u64;
    let source = u64::from(instance.source());
    let destination = u64::from(instance.destination());
    line(
        text,
        kind,
        &[nodes, arcs, source, destination, instance.demand()],
    )
}

/// The lines of arcs with their units.
fn load_lines(text: &mut Vec<u8>, arcs: &[Arc], units: &[u64]) -> Result<(), NoMemory>
    requires { length units.now ≡ length arcs.now }
    ensures { OnOk result (text.new.items ≡ text.old.items ++ concat (map (λ (l : Arc × ℕ). Text.arc_line Version.Two l.0 (l.1 ∷ [])) (zip arcs.now units.now))) }
{
    for i in 0..arcs.len() {
        load_line(text, &arcs[i], units[i])?;
    }
    Ok(())
}

/// The line of an arc with its units.
#[tactic(auto, unfolding(crate::specs::Text::arc_line))]
fn load_line(text: &mut Vec<u8>, arc: &Arc, units: u64) -> Result<(), NoMemory>
    ensures { OnOk result (text.new.items ≡ text.old.items ++ Text.arc_line Version.Two arc.now (units ∷ [])) }
{
    line(
        text,
        b"arc",
        &[
            u64::from(arc.dir),
            u64::from(arc.from),
            u64::from(arc.to),
            arc.room,
            arc.cost,
            units,
        ],
    )
}

/// The lines of arcs.
fn arc_lines(text: &mut Vec<u8>, arcs: &[Arc]) -> Result<(), NoMemory>
    ensures { OnOk result (text.new.items ≡ text.old.items ++ concat (map (λ (a : Arc). Text.arc_line Version.Two a []) arcs.now)) }
{
    for i in 0..arcs.len() {
        arc_line(text, &arcs[i])?;
    }
    Ok(())
}

/// The line of an arc.
#[tactic(auto, unfolding(crate::specs::Text::arc_line))]
fn arc_line(text: &mut Vec<u8>, arc: &Arc) -> Result<(), NoMemory>
    ensures { OnOk result (text.new.items ≡ text.old.items ++ Text.arc_line Version.Two arc.now []) }
{
    line(
        text,
        b"arc",
        &[
            u64::from(arc.dir),
            u64::from(arc.from),
            u64::from(arc.to),
            arc.room,
            arc.cost,
        ],
    )
}

/// The lines of potentials.
fn potential_lines(text: &mut Vec<u8>, potentials: &[i128]) -> Result<(), NoMemory>
    ensures { OnOk result (text.new.items ≡ text.old.items ++ concat (map Text.potential_line potentials.now)) }
{
    for i in 0..potentials.len() {
        potential_line(text, &potentials[i])?;
    }
    Ok(())
}

/// A potential's line.
#[tactic(auto, using(crate::proofs::Printed::three), unfolding(crate::specs::Text::potential_line))]
fn potential_line(text: &mut Vec<u8>, potential: &i128) -> Result<(), NoMemory>
    ensures { OnOk result (text.new.items ≡ text.old.items ++ Text.potential_line potential.now) }
{
    let mut digits = Buffer::new();
    text.extend_from_slice(b"potential ")?;
    text.extend_from_slice(digits.format(*potential).as_bytes())?;
    text.push(b'\n')?;
    Ok(())
}

/// The lines of a side.
fn side_lines(text: &mut Vec<u8>, side: &[bool]) -> Result<(), NoMemory>
    ensures { OnOk result (text.new.items ≡ text.old.items ++ concat (map Text.side_line side.now)) }
{
    for i in 0..side.len() {
        side_line(text, side[i])?;
    }
    Ok(())
}

/// The line of a node's side.
#[tactic(auto, unfolding(crate::specs::Text::side_line))]
fn side_line(text: &mut Vec<u8>, on: bool) -> Result<(), NoMemory>
    ensures { OnOk result (text.new.items ≡ text.old.items ++ Text.side_line on) }
{
    if on {
        line(text, b"side", &[1])
    } else {
        line(text, b"side", &[0])
    }
}

/// The last line.
#[tactic(auto, unfolding(crate::specs::Text::end_line))]
fn last_line(text: &mut Vec<u8>) -> Result<(), NoMemory>
    ensures { OnOk result (text.new.items ≡ text.old.items ++ Text.end_line) }
{
    line(text, b"end", &[])
}

/// A line of a word and numbers.
fn line(text: &mut Vec<u8>, word: &[u8], numbers: &[u64]) -> Result<(), NoMemory>
    requires { length numbers.now ≤ 6 }
    ensures { OnOk result (text.new.items ≡ text.old.items ++ Text.text_line word.now numbers.now) }
{
    let mut room = [0; ROOM];
    let start = fields(&mut room, numbers);
    text.extend_from_slice(word)?;
    text.extend_from_slice(&room[start..])?;
    Ok(())
}

/// Writes numbers, each after one space, and the LF at the end of the room, and returns where they start.
fn fields(room: &mut [u8], numbers: &[u64]) -> usize
    requires { 21 * length numbers.now < length room.old }
    ensures within { result ≤ length room.new }
    ensures written { drop result room.new ≡ Text.fields numbers.now }
{
    let mut start = room.len() - 1;
    room[start] = b'\n';
    let mut left = numbers.len();
    while left > 0 {
        left -= 1;
        start = field(room, start, numbers[left]);
    }
    start
}

/// Writes a space and a number before `end`, and returns where they start.
fn field(room: &mut [u8], end: usize, number: u64) -> usize
    requires { (21 ≤ end) × (end ≤ length room.old) }
    ensures above { end ≤ result + 21 }
    ensures within { result ≤ end }
    ensures written { drop result room.new ≡ 32 ∷ (decimal number ++ drop end room.old) }
{
    let start = write_digits(number, room, end) - 1;
    room[start] = b' ';
    start
}
