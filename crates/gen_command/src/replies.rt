ghost use Rattle.std.specs.Prelude.{◌≡◌, IfOk};
ghost use Rattle.workload.specs.Sink.{kept_bytes};
ghost use Rattle.channel_map.specs.Reading.{map_reading, IsReadAs};
ghost use Rattle.gen_command.specs.Size.{IsSize};
ghost use Rattle.gen_command.specs.Gen.{IsServed, map_of};

use crate::Size;
use askrene_state::State;
use channel_map::{ChannelMap, Local, read_map};
use flow_solver::Keeping;
use one_history::Journal;
use plan_base::NoMemory;
use port_io::{Clock, MemSource, PIECE, SessionEnd};
use session::ask_loop;
use std::alloc::Global;
use workload::{GrowingSink, ask_lines, map_text};

/// Serves the requests of a workload over its map, from the empty history on. The sink has the replies.
pub(crate) fn serve<C: Clock>(
    alloc: Global,
    size: Size,
    clock: &mut C,
) -> Result<GrowingSink, NoMemory>
    requires { IsSize size }
    ensures { IfOk result (λ sink. IsServed size (C.moments clock.old) (C.moments clock.new) (kept_bytes sink)) }
{
    let map = workload_map(alloc, size)?;
    let lines = ask_lines(alloc, size.number, size.nodes, size.channels, size.asks)?;
    let mut input = MemSource::new(lines, PIECE, Vec::new(alloc));
    let mut output = GrowingSink::new(alloc);
    let mut journal = Journal::<State>::open(alloc)?;
    let local = Local::empty(alloc);
    let end = ask_loop(
        alloc,
        &mut journal,
        &map,
        &local,
        &mut input,
        &mut output,
        clock,
        &Keeping,
    );
    // Every other end counts as out of memory.
    if end == SessionEnd::Done {
        Ok(output)
    } else {
        Err(NoMemory)
    }
}

/// The map of a workload, read from its text. A refusal of the text counts as out of memory.
fn workload_map(alloc: Global, size: Size) -> Result<ChannelMap, NoMemory>
    requires { IsSize size }
    ensures { IfOk result (λ map. IsReadAs (map_reading (map_of size)) map) }
{
    let text = map_text(alloc, size.number, size.nodes, size.channels)?;
    read_map(alloc, &text).map_err(|_| NoMemory)
}
