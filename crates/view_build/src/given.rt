ghost use Rattle.std.specs.Prelude.{◌≡◌, ◌+◌, ◌*◌, ◌<◌, ◌≤◌, Some, cond, length, IfOk, OnOk};
ghost use Rattle.std.specs.BTreeMap.{btree_map_len};
ghost use Rattle.plan_base.specs.Dir.{Direction, same_dir};
ghost use Rattle.layer.specs.Update.{IsGoodUpdate};
ghost use Rattle.layer.specs.declared.records.Update.{Update};
ghost use Rattle.view_build.specs.Rules.{update_in};
ghost use Rattle.view_build.specs.First.{applied};
ghost use Rattle.view_build.specs.Given.{fields_at, fields_of, no_fields, update_among, with_update};

use layer::{ENTRIES_MAX, Layer, Update};
use plan_base::{Dir, NoMemory};
use std::alloc::Global;
use std::collections::BTreeMap;

// The fields that layers give, by direction. Callers choose the directions, so the map is a tree: no choice makes it slow.
pub(crate) fn given_by(alloc: Global, layers: &[Layer]) -> Result<BTreeMap<Dir, Update>, NoMemory>
    ensures fields { IfOk result (λ map. (dir : Direction) → fields_at map dir ≡ fields_of dir layers.now) }
    ensures good { IfOk result (λ map. (dir : Direction) → IsGoodUpdate (fields_at map dir)) }
    ensures few { IfOk result (λ map. btree_map_len map ≤ 65536 * length layers.now) }
{
    let mut map = BTreeMap::new(alloc);
    for layer in layers {
        add_updates(&mut map, layer)?;
    }
    Ok(map)
}

// A layer's first update of a direction counts.
fn add_updates(map: &mut BTreeMap<Dir, Update>, layer: &Layer) -> Result<(), NoMemory>
    requires good { (dir : Direction) → IsGoodUpdate (fields_at map.old dir) }
    ensures ok { OnOk result ((dir : Direction) → fields_at map.new dir ≡ applied with_update (fields_at map.old dir) (update_in dir layer.now)) }
    ensures good { OnOk result ((dir : Direction) → IsGoodUpdate (fields_at map.new dir)) }
    ensures few { OnOk result (btree_map_len map.new ≤ btree_map_len map.old + 65536) }
{
    prove!(layer.entries() <= ENTRIES_MAX);
    for i in 0..layer.updates().len() {
        add_update_at(map, layer, i)?;
    }
    Ok(())
}

fn add_update_at(map: &mut BTreeMap<Dir, Update>, layer: &Layer, i: usize) -> Result<(), NoMemory>
    requires place { i < length layer.now.updates }
    requires good { (dir : Direction) → IsGoodUpdate (fields_at map.old dir) }
    ensures ok { OnOk result ((dir : Direction) (before : Update) → fields_at map.old dir ≡ applied with_update before (update_among i dir layer.now) → fields_at map.new dir ≡ applied with_update before (update_among (i + 1) dir layer.now)) }
    ensures good { OnOk result ((dir : Direction) → IsGoodUpdate (fields_at map.new dir)) }
    ensures few { OnOk result (btree_map_len map.new ≤ btree_map_len map.old + 1) }
{
    let change = layer.updates()[i];
    if layer.update_place(change.dir) != Some(i) {
        return Ok(());
    }
    add_update(map, &change)?;
    Ok(())
}

fn add_update(map: &mut BTreeMap<Dir, Update>, change: &Update) -> Result<(), NoMemory>
    requires good { (dir : Direction) → IsGoodUpdate (fields_at map.old dir) }
    requires good_change { IsGoodUpdate change.now }
    ensures ok { OnOk result ((dir : Direction) → fields_at map.new dir ≡ cond (same_dir change.now.dir dir) (with_update (fields_at map.old dir) change.now) (fields_at map.old dir)) }
    ensures good { OnOk result ((dir : Direction) → IsGoodUpdate (fields_at map.new dir)) }
    ensures few { OnOk result (btree_map_len map.new ≤ btree_map_len map.old + 1) }
{
    let before = fields_at(map, change.dir);
    map.insert(change.dir, with_update(&before, change))?;
    Ok(())
}

pub(crate) fn fields_at(map: &BTreeMap<Dir, Update>, dir: Dir) -> Update
    ensures { result ≡ fields_at map.now dir }
{
    match map.get(&dir) {
        Some(fields) => *fields,
        None => no_fields(dir),
    }
}

pub(crate) fn no_fields(dir: Dir) -> Update
    ensures { result ≡ no_fields dir }
{
    Update {
        dir,
        enabled: None,
        htlc_min: None,
        htlc_max: None,
        base: None,
        ppm: None,
        delay: None,
    }
}

fn with_update(before: &Update, change: &Update) -> Update
    ensures { result ≡ with_update before.now change.now }
{
    Update {
        dir: before.dir,
        enabled: change.enabled.or(before.enabled),
        htlc_min: change.htlc_min.or(before.htlc_min),
        htlc_max: change.htlc_max.or(before.htlc_max),
        base: change.base.or(before.base),
        ppm: change.ppm.or(before.ppm),
        delay: change.delay.or(before.delay),
    }
}
