//! Times a layer with many biases: `layer_bench ENTRIES`, for 1 to 65,535 entries, makes the layer, copies it and adds a bias
//! to the copy, and writes the three times to standard error. The status is 1 if memory or the clock fails. Without words it
//! ends at once; other words end it with status 2.
#![tactic(auto)]

ghost use Rattle.std.specs.Prelude.{◌≤◌, ◌+◌, IfSome};
ghost use Rattle.layer.specs.Bias.{IsGoodBias};

use layer::{Bias, Layer};
use plan_base::{Dir, Scid};
use std::alloc::Global;
use std::env;
use std::io::{self, Eprint};
use std::process::ExitCode;
use std::time::{Clock, Instant};

fn main(rt: HostRuntime) -> io::Result<ExitCode> {
    let words: Vec<String> = env::args(&rt)?.skip(1).collect(rt.alloc())?;
    if words.is_empty() {
        return Ok(ExitCode::SUCCESS);
    }
    let Some(entries) = read_entries(&words) else {
        return Ok(ExitCode::from(2));
    };
    match measure(&rt, rt.alloc(), entries) {
        Some(()) => Ok(ExitCode::SUCCESS),
        None => Ok(ExitCode::FAILURE),
    }
}

fn read_entries(words: &[String]) -> Option<u32>
    ensures { IfSome result (λ entries. entries ≤ 65535) }
{
    let [word] = words else {
        return None;
    };
    let entries = word.parse::<u32>().ok()?;
    if 1 <= entries && entries <= 65_535 {
        Some(entries)
    } else {
        None
    }
}

fn measure(rt: &(impl Clock + Eprint), alloc: Global, entries: u32) -> Option<()>
    requires { entries ≤ 65535 }
{
    let start = Instant::now(rt).ok()?;
    let layer = filled(alloc, entries)?;
    let filled = Instant::now(rt).ok()?;
    let mut copy = layer.copy().ok()?;
    let copied = Instant::now(rt).ok()?;
    layer_ops::bias(&mut copy, bias_at(entries)?).ok()?;
    let changed = Instant::now(rt).ok()?;
    eprintln!(rt;
        "{entries} biases {} us, copy {} us, bias on the copy {} us",
        filled.duration_since(start).as_micros(),
        copied.duration_since(filled).as_micros(),
        changed.duration_since(copied).as_micros()
    )
    .ok()
}

fn filled(alloc: Global, entries: u32) -> Option<Layer>
    requires { entries ≤ 65535 }
{
    let mut layer = Layer::new(alloc);
    for number in 0..entries {
        layer_ops::bias(&mut layer, bias_at(number)?).ok()?;
    }
    Some(layer)
}

// A bias for a direction of its own, for each number up to 65,535. Their order is not that of the directions.
fn bias_at(number: u32) -> Option<Bias>
    requires { number ≤ 65535 }
    ensures { IfSome result IsGoodBias }
{
    let scid = Scid::new(number * 40_503 & 0xffff, 0, 0)?;
    let dir = Dir { scid, side: 0 };
    Some(Bias { dir, bias: 5 })
}
