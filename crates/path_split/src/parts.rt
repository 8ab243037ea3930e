ghost use Rattle.std.specs.Prelude.{
  ◌≡◌,
  ◌≤◌,
  ◌++◌,
  ℕ,
  All,
  AllPairs,
  IfOk,
  OnOk,
  length,
  replicate,
  sum_by,
};
ghost use Rattle.plan_base.specs.declared.amount.TheConstants.{MAX};
ghost use Rattle.flow_model.specs.Flow.{IsCheapest, IsFilledInOrder, flow_of, room_of};
ghost use Rattle.path_split.specs.Path.{IsNotAfter, IsPath};
ghost use Rattle.path_split.specs.Parts.{IsSplit, parts_of_path, parts_of_paths, units_on};

use crate::part::Part;
use crate::paths::paths_of;
use flow_model::{Flow, Instance};
use plan_base::{Items, NoMemory};
use std::alloc::Global;

/// Splits a cheapest flow, which fills each direction's arcs in order, into parts of at most `size` units. The parts are
/// in ascending order of their paths, compared direction by direction, and the parts of one path are together. A path
/// with x units has `ceil(x / size)` parts: the units are shared out evenly, and those that are left over go one each to
/// the first parts. There are at most as many paths as directions that carry units.
pub fn split(
    alloc: Global,
    instance: &Instance,
    flow: &Flow,
    size: u64,
) -> Result<Vec<Part>, NoMemory>
    requires cheapest { IsCheapest instance.now flow.now }
    requires in_order { IsFilledInOrder instance.now flow.now }
    requires size { 1 ≤ size }
    ensures parts { IfOk result (λ parts. IsSplit instance.now flow.now size parts.items) }
    ensures paths { IfOk result (λ parts. All (λ p. IsPath instance.now.arcs instance.now.source p.path instance.now.destination) parts.items) }
    ensures short { IfOk result (λ parts. All (λ p. length p.path ≤ instance.now.nodes) parts.items) }
    ensures order { IfOk result (λ parts. AllPairs (λ p q. IsNotAfter p.path q.path) parts.items) }
    ensures some { IfOk result (λ parts. All (λ p. 1 ≤ p.units) parts.items) }
    ensures most { IfOk result (λ parts. All (λ p. p.units ≤ size) parts.items) }
    ensures sent { IfOk result (λ parts. sum_by (λ p. p.units) parts.items ≡ instance.now.demand) }
    ensures fits { IfOk result (λ parts. (dir : ℕ) → units_on dir parts.items ≤ room_of dir instance.now.arcs) }
    ensures filled { IfOk result (λ parts. flow_of (λ dir. units_on dir parts.items) instance.now.arcs ≡ flow.now) }
{
    let paths = paths_of(alloc, instance, flow)?;
    cut_paths(alloc, &paths, size)
}

/// The parts of all paths.
fn cut_paths(alloc: Global, paths: &[Part], size: u64) -> Result<Vec<Part>, NoMemory>
    requires size { 1 ≤ size }
    requires some { All (λ p. 1 ≤ p.units) paths.now }
    requires most { All (λ p. p.units ≤ MAX) paths.now }
    ensures { IfOk result (λ parts. parts.items ≡ parts_of_paths size paths.now) }
{
    let mut parts = Vec::new(alloc);
    for path in paths {
        cut_path(alloc, &mut parts, path, size)?;
    }
    Ok(parts)
}

/// Appends the parts of one path.
fn cut_path(alloc: Global, parts: &mut Vec<Part>, path: &Part, size: u64) -> Result<(), NoMemory>
    requires size { 1 ≤ size }
    requires some { 1 ≤ path.now.units }
    requires most { path.now.units ≤ MAX }
    ensures { OnOk result (parts.new.items ≡ parts.old.items ++ parts_of_path size path.now) }
{
    let count = path.units.div_ceil(size);
    let more = path.units % count;
    let units = path.units / count;
    push_copies(alloc, parts, path.path.as_slice(), units + 1, more)?;
    push_copies(alloc, parts, path.path.as_slice(), units, count - more)
}

/// Appends `count` equal parts.
fn push_copies(
    alloc: Global,
    parts: &mut Vec<Part>,
    path: &[u32],
    units: u64,
    count: u64,
) -> Result<(), NoMemory>
    ensures { OnOk result (parts.new.items ≡ parts.old.items ++ replicate count (record {
      path = path.now;
      units = units;
    })) }
{
    for _ in 0..count {
        parts.push(Part {
            path: Items::from_vec(Vec::from_slice(alloc, path)?),
            units,
        })?;
    }
    Ok(())
}
