ghost use Rattle.std.specs.Prelude.{
  ◌≡◌,
  ◌+◌,
  ◌++◌,
  ◌<◌,
  ◌≤◌,
  ◌^◌,
  ◌-◌,
  ℕ,
  All,
  IfOk,
  OnOk,
  length,
  min,
  slice_index_or,
};
ghost use Rattle.std.specs.Option.{option_map_or};
ghost use Rattle.cost_pieces.specs.Pieces.{rooms_of};
ghost use Rattle.cost_pieces.specs.declared.scale.TheConstants.{PIECES};
ghost use Rattle.layer.specs.Ask.{IsGoodAsk};
ghost use Rattle.view_build.specs.View.{IsGoodViewDir};
ghost use Rattle.round_rules.specs.State.{IsGoodState, state_of};
ghost use Rattle.round_rules.specs.Instance.{arc_of, arcs_with, find_cap, instance_of};

use cost_pieces::{PIECES, Terms, pieces, unit_cost};
use flow_model::{Arc, Instance};
use layer::Ask;
use plan_base::NoMemory;
use round_rules::{Cap, Round};
use std::alloc::Global;
use view_build::{View, ViewDir};

/// The problem of a round: the arcs of each direction's pieces, at the round's unit and levels, and cut to its caps.
pub fn round_instance(
    alloc: Global,
    view: &View,
    ask: &Ask,
    round: &Round,
) -> Result<Instance, NoMemory>
    requires ask { IsGoodAsk ask.now }
    requires state { IsGoodState view.now ask.now (state_of round.now) }
    ensures { IfOk result (λ i. i ≡ instance_of view.now ask.now (state_of round.now)) }
{
    let dirs = view.dirs();
    let demand = ask.amount.div_ceil(round.unit);
    let caps = caps_of(alloc, dirs.len(), round.caps.as_slice())?;
    let mut arcs = Vec::with_capacity(alloc, dirs.len() * PIECES)?;
    for i in 0..dirs.len() {
        push_arcs(
            &mut arcs,
            ask.amount,
            round,
            i as u32,
            &dirs[i],
            caps[i].min(demand),
        )?;
    }
    let nodes = view.nodes().len() as u32;
    Ok(Instance::new(nodes, view.source(), view.destination(), demand, arcs))
}

/// The cap of each direction, and the greatest number if it has none.
fn caps_of(alloc: Global, count: usize, caps: &[Cap]) -> Result<Vec<u64>, NoMemory>
    requires { All (λ c. c.dir < count) caps.now }
    ensures long { IfOk result (λ all. length all.items ≡ count) }
    ensures caps { IfOk result (λ all. (d : ℕ) → d < count → slice_index_or all.items d 0 ≡ option_map_or (λ c. c.cap) (find_cap caps.now d) (2 ^ 64 - 1)) }
{
    let mut all = vec![in alloc; u64::MAX; count]?;
    for i in 0..caps.len() {
        let cap = caps[caps.len() - 1 - i];
        all[cap.dir as usize] = cap.cap;
    }
    Ok(all)
}

/// Appends the arcs of a direction's pieces.
fn push_arcs(
    arcs: &mut Vec<Arc>,
    amount: u64,
    round: &Round,
    dir: u32,
    from: &ViewDir,
    cap: u64,
) -> Result<(), NoMemory>
    requires good { IsGoodViewDir (2 ^ 32) from.now }
    requires amount { 1 ≤ amount }
    requires unit { 1 ≤ round.now.unit }
    requires fee { round.now.fee_level ≤ 8 }
    requires delay { round.now.delay_level ≤ 5 }
    ensures { OnOk result (arcs.new.items ≡ arcs.old.items ++ arcs_with (arc_of amount (state_of round.now) dir from.now) 0 (rooms_of from.now.min from.now.max round.now.unit cap)) }
{
    let rooms = pieces(from.min, from.max, round.unit, cap);
    for piece in 0..PIECES {
        let room = rooms[piece];
        if room > 0 {
            arcs.push(piece_of(amount, round, dir, from, piece as u8, room))?;
        }
    }
    Ok(())
}

/// The arc of a piece.
fn piece_of(amount: u64, round: &Round, dir: u32, from: &ViewDir, piece: u8, room: u64) -> Arc
    requires good { IsGoodViewDir (2 ^ 32) from.now }
    requires piece { piece < PIECES }
    requires amount { 1 ≤ amount }
    requires fee { round.now.fee_level ≤ 8 }
    requires delay { round.now.delay_level ≤ 5 }
    ensures { result ≡ arc_of amount (state_of round.now) dir from.now piece room }
{
    let terms = Terms {
        lo: from.min,
        hi: from.max,
        base: from.base,
        ppm: from.ppm,
        delay: from.delay,
        bias: from.bias,
        amount,
    };
    Arc {
        from: from.from,
        to: from.to,
        room,
        cost: unit_cost(piece, &terms, round.fee_level, round.delay_level),
        dir,
    }
}
