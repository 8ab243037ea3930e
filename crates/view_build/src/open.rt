ghost use Rattle.std.specs.Prelude.{ℕ, ◌≡◌, ◌-◌, ◌^◌, ◌<◌, ◌≤◌, ◌≤ℤ◌, ◌++◌, ◌∷◌, [], ◌&&◌, not, false, All, drop, length, option_map, slice_index, slice_index_or, unwrap_or, IfOk, IfSome, OnOk};
ghost use Rattle.std.specs.List.{cons_option, list_any};
ghost use Rattle.std.specs.List.Sorted.{IsStrictlySortedBy};
ghost use Rattle.std.specs.Ordering.{nat_cmp};
ghost use Rattle.std.specs.Cmp.Lexicographic.{slice_cmp};
ghost use Rattle.plan_base.specs.Dir.{same_dir};
ghost use Rattle.channel_map.specs.Edge.{IsAscending, IsGoodEdge};
ghost use Rattle.channel_map.specs.Nodes.{AreNodesOf, ArePlaces, HasBothEnds, ends_of, named_ends};
ghost use Rattle.layer.specs.Update.{IsGoodUpdate};
ghost use Rattle.layer.specs.declared.records.TheConstants.{BIAS_MIN, BIAS_MAX};
ghost use Rattle.view_build.specs.Built.{cut_bias};
ghost use Rattle.view_build.specs.Merged.{below, from_dir, merged};
ghost use Rattle.view_build.specs.Opened.{AreAffected, AreGoodChanges, IsGoodOpen, IsPlaceOf, Opens, changed, leaves, opened_by, opened_with, placed};
ghost use Rattle.view_build.specs.Table.{IsTable, moved_ends};

use crate::ViewDir;
use crate::affected::{is_at, marks_of, seek};
use crate::disabled::has_node;
use crate::given::{fields_at, no_fields};
use crate::known::{Known, known_at, unknown};
use crate::nodes::place_of;
use crate::table::Table;
use channel_map::{Edge, Ends, MapNodes};
use layer::{BIAS_MAX, BIAS_MIN, Update};
use plan_base::{Dir, NoMemory, NodeId};
use std::alloc::Global;
use std::collections::{BTreeMap, BTreeSet};

// What layers and reservations change.
#[derive(Drop)]
pub(crate) struct Changes {
    pub(crate) given: BTreeMap<Dir, Update>,
    pub(crate) known: BTreeMap<Dir, Known>,
    pub(crate) disabled: BTreeSet<NodeId>,
    // The node that directions leave for free.
    pub(crate) free_source: Option<NodeId>,
    // The directions of which anything is given or known, ascending.
    pub(crate) affected: Vec<Dir>,
}

// Where the ends of a direction are, and whether layers disable them.
#[derive(Clone, Copy)]
pub(crate) struct Place {
    pub(crate) ends: Ends,
    pub(crate) source_disabled: bool,
    pub(crate) destination_disabled: bool,
}

// The directions of a map and the created ones as the changes have them, less those that they leave out, in one order.
pub(crate) fn open_all(
    alloc: Global,
    changes: &Changes,
    edges: &[Edge],
    nodes: &MapNodes,
    created: &[Edge],
    table: &Table,
) -> Result<Vec<ViewDir>, NoMemory>
    requires changes { AreGoodChanges changes.now }
    requires affected { AreAffected changes.now }
    requires edges { All IsGoodEdge edges.now }
    requires ascend { IsAscending edges.now }
    requires nodes { AreNodesOf edges.now nodes.now }
    requires created { All IsGoodEdge created.now }
    requires table { IsTable nodes.now.ids.items created.now table.now }
    ensures opens { IfOk result (λ dirs. Opens table.now.ids.items (opened_by changes.now) (merged edges.now created.now) [] dirs.items) }
    ensures good { IfOk result (λ dirs. All IsGoodOpen dirs.items) }
{
    let marks = marks_of(alloc, &table.ids, &changes.disabled)?;
    let mut dirs = Vec::with_capacity(alloc, edges.len())?;
    let mut next = 0;
    let mut at = 0;
    for i in 0..edges.len() {
        let edge = &edges[i];
        next = open_below(&mut dirs, changes, table, created, edge.dir, next)?;
        at = seek(&changes.affected, at, edge.dir);
        let affected = is_at(&changes.affected, at, edge.dir);
        let place = place_at(&table.moved, &marks, nodes.ends[i]);
        push_edge(&mut dirs, changes, affected, edge, place)?;
    }
    open_rest(&mut dirs, changes, table, created, next)?;
    Ok(dirs)
}

// Appends the created directions below another one, from a place on, and returns the place after them.
fn open_below(
    dirs: &mut Vec<ViewDir>,
    changes: &Changes,
    table: &Table,
    created: &[Edge],
    dir: Dir,
    from: usize,
) -> Result<usize, NoMemory>
    requires changes { AreGoodChanges changes.now }
    requires created { All IsGoodEdge created.now }
    requires ascend { IsStrictlySortedBy (slice_cmp nat_cmp) table.now.ids.items }
    requires few { length table.now.ids.items < 2 ^ 32 }
    requires ends { All (HasBothEnds table.now.ids.items) created.now }
    requires dirs { All IsGoodOpen dirs.old.items }
    requires from { from ≤ length created.now }
    ensures opens { OnOk result (Opens table.now.ids.items (opened_by changes.now) (below dir (drop from created.now)) dirs.old.items dirs.new.items) }
    ensures good { OnOk result (All IsGoodOpen dirs.new.items) }
    ensures rest { IfOk result (λ next. drop next created.now ≡ from_dir dir (drop from created.now)) }
    ensures within { IfOk result (λ next. next ≤ length created.now) }
{
    for next in from..created.len() {
        let edge = &created[next];
        if edge.dir >= dir {
            return Ok(next);
        }
        push_created(dirs, changes, table, edge)?;
    }
    Ok(created.len())
}

// Appends the created directions from a place on.
fn open_rest(
    dirs: &mut Vec<ViewDir>,
    changes: &Changes,
    table: &Table,
    created: &[Edge],
    from: usize,
) -> Result<(), NoMemory>
    requires changes { AreGoodChanges changes.now }
    requires created { All IsGoodEdge created.now }
    requires ascend { IsStrictlySortedBy (slice_cmp nat_cmp) table.now.ids.items }
    requires few { length table.now.ids.items < 2 ^ 32 }
    requires ends { All (HasBothEnds table.now.ids.items) created.now }
    requires dirs { All IsGoodOpen dirs.old.items }
    requires from { from ≤ length created.now }
    ensures opens { OnOk result (Opens table.now.ids.items (opened_by changes.now) (drop from created.now) dirs.old.items dirs.new.items) }
    ensures good { OnOk result (All IsGoodOpen dirs.new.items) }
{
    for next in from..created.len() {
        push_created(dirs, changes, table, &created[next])?;
    }
    Ok(())
}

fn push_created(
    dirs: &mut Vec<ViewDir>,
    changes: &Changes,
    table: &Table,
    edge: &Edge,
) -> Result<(), NoMemory>
    requires changes { AreGoodChanges changes.now }
    requires edge { IsGoodEdge edge.now }
    requires ascend { IsStrictlySortedBy (slice_cmp nat_cmp) table.now.ids.items }
    requires few { length table.now.ids.items < 2 ^ 32 }
    requires ends { HasBothEnds table.now.ids.items edge.now }
    requires dirs { All IsGoodOpen dirs.old.items }
    ensures opens { OnOk result (Opens table.now.ids.items (opened_by changes.now) (edge.now ∷ []) dirs.old.items dirs.new.items) }
    ensures good { OnOk result (All IsGoodOpen dirs.new.items) }
{
    let ends = Ends {
        from: place_of(&table.ids, &edge.source),
        to: place_of(&table.ids, &edge.destination),
    };
    let place = Place {
        ends,
        source_disabled: has_node(&changes.disabled, &edge.source),
        destination_disabled: has_node(&changes.disabled, &edge.destination),
    };
    push_open(dirs, changes, edge, place)?;
    Ok(())
}

// The place of a direction of a map, from the places of its ends among the nodes of the map.
fn place_at(moved: &[u32], marks: &[bool], ends: Ends) -> Place
    requires ends { ArePlaces (length moved.now) ends }
    requires marks { All (λ place. place < length marks.now) moved.now }
    ensures ends { result.ends ≡ moved_ends moved.now ends }
    ensures source { result.source_disabled ≡ slice_index_or marks.now (slice_index moved.now ends.from) false }
    ensures destination { result.destination_disabled ≡ slice_index_or marks.now (slice_index moved.now ends.to) false }
{
    let from = moved[ends.from as usize];
    let to = moved[ends.to as usize];
    Place {
        ends: Ends { from, to },
        source_disabled: marks[from as usize],
        destination_disabled: marks[to as usize],
    }
}

// Appends a direction of which nothing is said if it is not affected.
fn push_edge(
    dirs: &mut Vec<ViewDir>,
    changes: &Changes,
    affected: bool,
    edge: &Edge,
    place: Place,
) -> Result<(), NoMemory>
    requires changes { AreGoodChanges changes.now }
    requires all { AreAffected changes.now }
    requires affected { affected ≡ list_any (same_dir edge.now.dir) changes.now.affected.items }
    requires edge { IsGoodEdge edge.now }
    requires place { IsPlaceOf changes.now edge.now place }
    requires dirs { All IsGoodOpen dirs.old.items }
    ensures dirs { OnOk result (dirs.new.items ≡ dirs.old.items ++ cons_option (option_map (placed place.ends) (opened_by changes.now edge.now)) []) }
    ensures good { OnOk result (All IsGoodOpen dirs.new.items) }
{
    if affected {
        push_open(dirs, changes, edge, place)?;
        return Ok(());
    }
    push_with(dirs, changes, &no_fields(edge.dir), unknown(), edge, place)?;
    Ok(())
}

fn push_open(
    dirs: &mut Vec<ViewDir>,
    changes: &Changes,
    edge: &Edge,
    place: Place,
) -> Result<(), NoMemory>
    requires changes { AreGoodChanges changes.now }
    requires edge { IsGoodEdge edge.now }
    requires place { IsPlaceOf changes.now edge.now place }
    requires dirs { All IsGoodOpen dirs.old.items }
    ensures dirs { OnOk result (dirs.new.items ≡ dirs.old.items ++ cons_option (option_map (placed place.ends) (opened_by changes.now edge.now)) []) }
    ensures good { OnOk result (All IsGoodOpen dirs.new.items) }
{
    let fields = fields_at(&changes.given, edge.dir);
    let known = known_at(&changes.known, edge.dir);
    push_with(dirs, changes, &fields, known, edge, place)?;
    Ok(())
}

fn push_with(
    dirs: &mut Vec<ViewDir>,
    changes: &Changes,
    fields: &Update,
    known: Known,
    edge: &Edge,
    place: Place,
) -> Result<(), NoMemory>
    requires fields { IsGoodUpdate fields.now }
    requires edge { IsGoodEdge edge.now }
    requires place { IsPlaceOf changes.now edge.now place }
    requires dirs { All IsGoodOpen dirs.old.items }
    ensures dirs { OnOk result (dirs.new.items ≡ dirs.old.items ++ cons_option (option_map (placed place.ends) (opened_with changes.now fields.now known edge.now)) []) }
    ensures good { OnOk result (All IsGoodOpen dirs.new.items) }
{
    if let Some(open) = open_with(changes, fields, known, edge, place) {
        dirs.push(open)?;
        return Ok(());
    }
    Ok(())
}

fn open_with(
    changes: &Changes,
    fields: &Update,
    known: Known,
    edge: &Edge,
    place: Place,
) -> Option<ViewDir>
    requires fields { IsGoodUpdate fields.now }
    requires edge { IsGoodEdge edge.now }
    requires place { IsPlaceOf changes.now edge.now place }
    ensures value { result ≡ option_map (placed place.ends) (opened_with changes.now fields.now known edge.now) }
    ensures good { IfSome result IsGoodOpen }
{
    if !is_usable(fields, edge, &place) {
        return None;
    }
    let free = leaves(&changes.free_source, edge);
    Some(changed(fields, known, free, edge, place.ends))
}

fn is_usable(fields: &Update, edge: &Edge, place: &Place) -> bool
    ensures { result ≡ (unwrap_or fields.now.enabled edge.now.enabled && not place.now.source_disabled && not place.now.destination_disabled) }
{
    fields.enabled.unwrap_or(edge.enabled) && !place.source_disabled && !place.destination_disabled
}

fn leaves(node: &Option<NodeId>, edge: &Edge) -> bool
    ensures { result ≡ leaves node.now edge.now }
{
    match node {
        Some(node) => edge.source == *node,
        None => false,
    }
}

fn changed(fields: &Update, known: Known, free: bool, edge: &Edge, ends: Ends) -> ViewDir
    requires fields { IsGoodUpdate fields.now }
    requires edge { IsGoodEdge edge.now }
    ensures value { result ≡ placed ends (changed fields.now known free edge.now) }
    ensures good { IsGoodOpen result }
{
    let maximum = edge.capacity.min(known.maximum);
    ViewDir {
        dir: edge.dir,
        from: ends.from,
        to: ends.to,
        min: left_over(known.minimum.min(maximum), known.reserved),
        max: left_over(maximum, known.reserved),
        htlc_min: fields.htlc_min.unwrap_or(edge.htlc_min),
        htlc_max: fields.htlc_max.unwrap_or(edge.htlc_max),
        base: if free {
            0
        } else {
            fields.base.unwrap_or(edge.base)
        },
        ppm: if free {
            0
        } else {
            fields.ppm.unwrap_or(edge.ppm)
        },
        delay: if free {
            0
        } else {
            fields.delay.unwrap_or(edge.delay)
        },
        bias: cut_bias(known.bias),
    }
}

// The amount less what is reserved.
fn left_over(amount: u64, reserved: u128) -> u64
    ensures { result ≡ amount - reserved }
{
    match u64::try_from(reserved) {
        Ok(reserved) => amount.saturating_sub(reserved),
        Err(_) => 0,
    }
}

fn cut_bias(bias: i128) -> i8
    ensures value { result ≡ cut_bias bias }
    ensures low { BIAS_MIN ≤ℤ result }
    ensures high { result ≤ℤ BIAS_MAX }
{
    bias.clamp(i128::from(BIAS_MIN), i128::from(BIAS_MAX)) as i8
}
