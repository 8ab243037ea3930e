ghost use Rattle.std.specs.Prelude.{◌≡◌, ◌≤◌, All, cond, length, IfOk, IfErr};
ghost use Rattle.std.specs.BTreeMap.{btree_map_len};
ghost use Rattle.plan_base.specs.Dir.{Direction};
ghost use Rattle.channel_map.specs.Edge.{IsGoodEdge};
ghost use Rattle.channel_map.specs.declared.edge.Edge.{Edge};
ghost use Rattle.layer.specs.Ask.{asks_for};
ghost use Rattle.layer.specs.Update.{IsGoodUpdate};
ghost use Rattle.layer.specs.declared.ask.TheConstants.{ASKED_MAX};
ghost use Rattle.layer.specs.declared.ask.Auto.TheVariants.{SourceFree};
ghost use Rattle.view_build.specs.Built.{IsView, IsViewFault, ViewSources, is_free, sources_of};
ghost use Rattle.view_build.specs.Given.{fields_at, fields_of};
ghost use Rattle.view_build.specs.Opened.{AreAffected, AreChangesOf, AreCreated, AreDirections, AreGoodChanges, leaves};

use crate::affected::affected_by;
use crate::channels::{channels_by, created_edges};
use crate::disabled::disabled_by;
use crate::given::given_by;
use crate::known::known_by;
use crate::nodes::find;
use crate::numbered::{Numbered, number_dirs};
use crate::open::{Changes, open_all};
use crate::table::table_of;
use crate::{View, ViewFault};
use auto_layers::{Expanded, expand};
use channel_map::{ChannelMap, Edge, Local};
use layer::{Ask, Layer, Snapshot, Update};
use plan_base::{Dir, NoMemory, NodeId};
use std::alloc::Global;
use std::collections::BTreeMap;

/// The view of an ask: the map, as the ask's layers change it, less what is reserved.
pub fn build(
    alloc: Global,
    snapshot: &Snapshot,
    map: &ChannelMap,
    local: &Local,
) -> Result<View, ViewFault>
    ensures ok { IfOk result (λ view. IsView (sources_of map.now local.now snapshot.now) view) }
    ensures err { IfErr result (λ fault. IsViewFault (sources_of map.now local.now snapshot.now) fault) }
{
    let ask = snapshot.ask();
    let expanded = expand(alloc, snapshot, local)?;
    let Numbered { nodes, dirs } = directions_of(alloc, snapshot, map, &expanded)?;
    let source = match find(&nodes, &ask.source) {
        Some(place) => place,
        None => return Err(ViewFault::SourceUnknown),
    };
    let destination = match find(&nodes, &ask.destination) {
        Some(place) => place,
        None => return Err(ViewFault::DestinationUnknown),
    };
    let maxparts = maxparts_of(ask, expanded.single);
    Ok(View::new(nodes, dirs, source, destination, maxparts))
}

fn maxparts_of(ask: &Ask, single: bool) -> u8
    ensures { result ≡ cond single 1 ask.now.maxparts }
{
    if single { 1 } else { ask.maxparts }
}

// The nodes and the directions of the view.
fn directions_of(
    alloc: Global,
    snapshot: &Snapshot,
    map: &ChannelMap,
    expanded: &Expanded,
) -> Result<Numbered, NoMemory>
    requires few { length expanded.now.layers ≤ ASKED_MAX }
    requires source_free { expanded.now.source_free ≡ asks_for SourceFree snapshot.now.ask.layers }
    ensures { IfOk result (λ n. AreDirections (record { channels = map.now; ask = snapshot.now.ask; layers = expanded.now.layers; held = snapshot.now.held }) n.nodes.items n.dirs.items) }
{
    let given = given_by(alloc, expanded.layers.as_slice())?;
    let created = created_by(alloc, expanded.layers.as_slice(), &given, map)?;
    let nodes = map.nodes();
    let table = table_of(alloc, &nodes.ids, &created)?;
    let changes = changes_by(alloc, snapshot, expanded, given)?;
    let dirs = open_all(alloc, &changes, map.dirs(), nodes, &created, &table)?;
    let numbered = number_dirs(alloc, &table.ids, dirs)?;
    Ok(numbered)
}

fn created_by(
    alloc: Global,
    layers: &[Layer],
    given: &BTreeMap<Dir, Update>,
    map: &ChannelMap,
) -> Result<Vec<Edge>, NoMemory>
    requires { (dir : Direction) → fields_at given.now dir ≡ fields_of dir layers.now }
    ensures created { IfOk result (λ edges. (sources : ViewSources) → sources.channels ≡ map.now → sources.layers ≡ layers.now → AreCreated sources edges.items) }
    ensures good { IfOk result (λ edges. All IsGoodEdge edges.items) }
    ensures few { IfOk result (λ edges. length edges.items ≤ btree_map_len given.now) }
{
    let channels = channels_by(alloc, layers)?;
    let edges = created_edges(alloc, given, &channels, map)?;
    Ok(edges)
}

fn changes_by(
    alloc: Global,
    snapshot: &Snapshot,
    expanded: &Expanded,
    given: BTreeMap<Dir, Update>,
) -> Result<Changes, NoMemory>
    requires given { (dir : Direction) → fields_at given dir ≡ fields_of dir expanded.now.layers }
    requires good { (dir : Direction) → IsGoodUpdate (fields_at given dir) }
    requires source_free { expanded.now.source_free ≡ asks_for SourceFree snapshot.now.ask.layers }
    ensures changes { IfOk result (λ changes. (sources : ViewSources) → sources.ask ≡ snapshot.now.ask → sources.layers ≡ expanded.now.layers → sources.held ≡ snapshot.now.held → AreChangesOf sources changes) }
    ensures good { IfOk result AreGoodChanges }
    ensures affected { IfOk result AreAffected }
{
    let layers = expanded.layers.as_slice();
    let known = known_by(alloc, layers, snapshot.held())?;
    let disabled = disabled_by(alloc, layers)?;
    let affected = affected_by(alloc, &given, &known)?;
    Ok(Changes {
        given,
        known,
        disabled,
        free_source: free_source(snapshot.ask(), expanded.source_free),
        affected,
    })
}

fn free_source(ask: &Ask, source_free: bool) -> Option<NodeId>
    requires { source_free ≡ asks_for SourceFree ask.now.layers }
    ensures { (edge : Edge) → leaves result edge ≡ is_free ask.now edge }
{
    if source_free { Some(ask.source) } else { None }
}
