use crate::expected::{Row, is_expected};
use crate::rows::ROWS;
use crate::views::{ask_of, view_of};
use flow_model::Solve;
use flow_solver::{Correcting, Keeping};
use limit_rounds::plan;
use plan_base::{NoMemory, NodeId};
use std::alloc::Global;

/// Whether the run of a row is the expected one.
fn holds<S: Solve>(
    alloc: Global,
    row: &Row,
    source: NodeId,
    destination: NodeId,
    solver: &S,
) -> Result<bool, NoMemory> {
    let Some(view) = view_of(alloc, row, source)? else {
        return Ok(false);
    };
    let Some(ask) = ask_of(alloc, row, source, destination) else {
        return Ok(false);
    };
    let run = plan(alloc, &view, &ask, solver)?;
    Ok(is_expected(&run, row))
}

fn node(text: &str) -> Option<NodeId> {
    NodeId::read(text).ok()
}

/// Whether all rows hold.
fn all_hold<S: Solve>(alloc: Global, solver: &S) -> Result<bool, NoMemory> {
    let Some(source) = node("02aaaaaaaaaaaaaaaaaaaaaaaaaaaaaaaaaaaaaaaaaaaaaaaaaaaaaaaaaaaaaaaa")
    else {
        return Ok(false);
    };
    let Some(destination) = node(
        "02bbbbbbbbbbbbbbbbbbbbbbbbbbbbbbbbbbbbbbbbbbbbbbbbbbbbbbbbbbbbbbbb",
    ) else {
        return Ok(false);
    };
    for row in ROWS {
        if !holds(alloc, row, source, destination, solver)? {
            return Ok(false);
        }
    }
    Ok(true)
}

#[test]
fn rounds_are_as_worked_by_hand(rt: HostRuntime) -> Result<(), NoMemory> {
    assert!(rt; all_hold(rt.alloc(), &Correcting)?);
    assert!(rt; all_hold(rt.alloc(), &Keeping)?);
    Ok(())
}
