ghost use Rattle.gen_command.specs.Size.{IsSize};

use gen_command::{GenEnd, Size, generate};
use port_io::{MemClock, MemSink};
use std::alloc::Global;
use std::str;
use std::test::Fail;

/// Serves a workload over a sink that takes pieces of 7 bytes and whose listed calls fail.
fn written(
    alloc: Global,
    size: Size,
    writes: &[u64],
    wanted: GenEnd,
) -> Result<Option<MemSink>, Fail>
    requires { IsSize size }
{
    let mut sink = MemSink::new(alloc, 7, writes.to_vec(alloc)?);
    sink.reserve(256)?;
    let mut clock = MemClock::new(Vec::new(alloc));
    let end = generate(alloc, size, &mut sink, &mut clock);
    Ok(if end == wanted { Some(sink) } else { None })
}

/// A workload of two nodes, no channel and three requests writes this.
fn writes_only(alloc: Global, writes: &[u64], wanted: GenEnd, line: &str) -> Result<bool, Fail> {
    let Some(size) = Size::new(1, 2, 0, 3) else {
        return Ok(false);
    };
    let sink = written(alloc, size, writes, wanted)?;
    Ok(sink.is_some_and(|sink| sink.bytes() == line.as_bytes()))
}

#[test]
fn a_workload_without_channels(rt: HostRuntime) -> Result<(), Fail> {
    let line = "asks 3 routed 0 refused 3 parts 0 amount_msat 0 fee_msat 0\n";
    assert!(rt; writes_only(rt.alloc(), &[], GenEnd::Done, line)?);
    assert!(rt; writes_only(rt.alloc(), &[0], GenEnd::WriteFault, "")?);
    assert!(rt; writes_only(rt.alloc(), &[1], GenEnd::WriteFault, "asks 3 ")?);
    Ok(())
}

/// The number between a word and the next space.
fn number_after(line: &str, word: &str) -> Option<u64> {
    let (_, rest) = line.split_once(word)?;
    let (digits, _) = rest.split_once(" ")?;
    digits.parse::<u64>().ok()
}

/// Each of twenty requests has a result or an error.
fn adds_up(bytes: &[u8]) -> bool {
    let Ok(line) = str::from_utf8(bytes) else {
        return false;
    };
    let routed = number_after(line, " routed ").unwrap_or(99);
    let refused = number_after(line, " refused ").unwrap_or(99);
    line.starts_with("asks 20 routed ") && routed.saturating_add(refused) == 20
}

#[test]
fn the_same_numbers_give_the_same_line(rt: HostRuntime) -> Result<(), Fail> {
    let alloc = rt.alloc();
    let Some(size) = Size::new(7, 100, 200, 20) else {
        panic!(rt; "a size is refused")
    };
    let first = written(alloc, size, &[], GenEnd::Done)?;
    let second = written(alloc, size, &[], GenEnd::Done)?;
    let (Some(first), Some(second)) = (first, second) else {
        panic!(rt; "a workload has no summary")
    };
    assert!(rt; first.bytes() == second.bytes());
    assert!(rt; adds_up(first.bytes()));
    Ok(())
}
