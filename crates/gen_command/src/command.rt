ghost use Rattle.std.specs.Prelude.{◌≡◌, IfOk};
ghost use Rattle.port_io.specs.Faults.{Rose};
ghost use Rattle.gen_command.specs.Size.{IsSize};
ghost use Rattle.gen_command.specs.Gen.{IsGen, HasSummary};

use crate::replies::serve;
use crate::{GenEnd, Size};
use plan_base::NoMemory;
use port_io::{Clock, Sink};
use std::alloc::Global;
use transfer::write_all;
use workload::{count_replies, summary_line};

/// Makes a workload, serves its requests in memory, and writes one line with the totals of the replies. The size is in its
/// ranges.
pub fn generate<O: Sink, C: Clock>(
    alloc: Global,
    size: Size,
    output: &mut O,
    clock: &mut C,
) -> GenEnd
    requires { IsSize size }
    ensures run { IsGen result size (C.moments clock.old) (C.moments clock.new) (O.written output.old) (O.written output.new) }
    ensures write_fault { result ≡ GenEnd.WriteFault → Rose (O.write_faults output.old) (O.write_faults output.new) }
{
    let Ok(line) = summary(alloc, size, clock) else {
        return GenEnd::NoMemory;
    };
    if write_all(output, &line).is_err() {
        return GenEnd::WriteFault;
    }
    GenEnd::Done
}

/// The summary of the replies to a workload.
fn summary<C: Clock>(alloc: Global, size: Size, clock: &mut C) -> Result<Vec<u8>, NoMemory>
    requires { IsSize size }
    ensures { IfOk result (λ line. HasSummary size (C.moments clock.old) (C.moments clock.new) line.items) }
{
    let replies = serve(alloc, size, clock)?;
    let totals = count_replies(alloc, replies.bytes())?;
    if totals.out_of_memory > 0 {
        return Err(NoMemory);
    }
    summary_line(alloc, size.asks, &totals)
}
