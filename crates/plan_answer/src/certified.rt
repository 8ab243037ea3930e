ghost use Rattle.std.specs.Prelude.{◌≡◌, ◌<◌, ◌&&◌, All, IfErr, IfOk, OnOk, false, length, true};
ghost use Rattle.certificate.specs.Certificate.{cut_certificate, flow_certificate};
ghost use Rattle.certificate.specs.Text.{certificate_text};
ghost use Rattle.plan_answer.specs.RoutesReply.{is_too_large, text_if_asked};
ghost use Rattle.plan_answer.specs.Within.{IsFlowOf, IsRefused};

use certificate::{CertRefusal, print_cut, print_flow};
use flow_model::{Flow, Instance};
use layer::Ask;
use plan_base::{NoMemory, Text};
use std::alloc::Global;

/// The text of a flow's certificate, if the ask wants one. `TooLarge` is returned if it wants one and the instance is
/// too large.
pub(crate) fn flow_text(
    alloc: Global,
    ask: &Ask,
    instance: &Instance,
    flow: &Flow,
    potentials: &[i128],
) -> Result<Option<Text>, CertRefusal>
    requires { IsFlowOf instance.now flow.now potentials.now }
    ensures text { IfOk result (λ text. text ≡ text_if_asked ask.now instance.now (certificate_text (flow_certificate instance.now flow.now potentials.now))) }
    ensures fits { OnOk result ((ask.now.certificate && is_too_large instance.now) ≡ false) }
    ensures too_large { IfErr result (IsRefused ask.now instance.now) }
{
    if !ask.certificate {
        return Ok(None);
    }
    let text = print_flow(alloc, instance, flow, potentials)?;
    Ok(Some(ascii_text(text)))
}

/// The text of a cut's certificate, if the ask wants one and the instance is not too large.
pub(crate) fn cut_text(
    alloc: Global,
    ask: &Ask,
    instance: &Instance,
    side: &[bool],
) -> Result<Option<Text>, NoMemory>
    requires { length side.now ≡ instance.now.nodes }
    ensures { IfOk result (λ text. text ≡ text_if_asked ask.now instance.now (certificate_text (cut_certificate instance.now side.now))) }
{
    if !ask.certificate {
        return Ok(None);
    }
    match print_cut(alloc, instance, side) {
        Ok(text) => Ok(Some(ascii_text(text))),
        Err(CertRefusal::TooLarge { .. }) => Ok(None),
        Err(CertRefusal::NoMemory) => Err(NoMemory),
    }
}

#[tactic(auto, using(crate::proofs::Ascii::ascii_utf8))]
fn ascii_text(bytes: Vec<u8>) -> Text
    requires { All (λ byte. byte < 128) bytes.items }
    ensures { result ≡ bytes.items }
{
    let text = String::from_utf8(bytes).unwrap();
    Text::from_string(text)
}
