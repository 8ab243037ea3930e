ghost use Rattle.std.specs.Prelude.{◌≡◌, ◌++◌, decimal, IfOk, OnOk};
ghost use Rattle.workload.specs.Summary.{summary_text};

use crate::totals::Totals;
use itoa::Buffer;
use plan_base::NoMemory;
use std::alloc::Global;

/// The line that tells how many requests there were and what the replies add up to, with its LF.
#[tactic(auto, unfolding(crate::specs::Summary::summary_text))]
pub fn summary_line(alloc: Global, asks: u32, totals: &Totals) -> Result<Vec<u8>, NoMemory>
    ensures { IfOk result (λ line. line.items ≡ summary_text asks totals.now) }
{
    let mut line = Vec::new(alloc);
    write_number(&mut line, b"asks ", u128::from(asks))?;
    write_number(&mut line, b" routed ", u128::from(totals.routed))?;
    write_number(&mut line, b" refused ", u128::from(totals.refused))?;
    write_number(&mut line, b" parts ", u128::from(totals.parts))?;
    write_number(&mut line, b" amount_msat ", totals.amount_msat)?;
    write_number(&mut line, b" fee_msat ", totals.fee_msat)?;
    line.push(b'\n')?;
    Ok(line)
}

/// Appends a word and a number.
fn write_number(line: &mut Vec<u8>, word: &[u8], number: u128) -> Result<(), NoMemory>
    ensures { OnOk result (line.new.items ≡ line.old.items ++ word.now ++ decimal number) }
{
    let mut buffer = Buffer::new();
    line.extend_from_slice(word)?;
    line.extend_from_slice(buffer.format(number).as_bytes())?;
    Ok(())
}
