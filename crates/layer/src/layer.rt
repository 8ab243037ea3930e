ghost use Rattle.std.specs.Prelude.{◌≡◌, ◌+◌, ◌<◌, ◌≤◌, [], ◌∷◌, ◌++◌, length, slice_set, nat_le, pos, negsuc, All, IfOk, IfSome, OnOk, OnErr};
ghost use Rattle.std.specs.List.{list_all};
ghost use Rattle.layer.specs.Created.{IsGoodCreated};
ghost use Rattle.layer.specs.Update.{IsGoodUpdate};
ghost use Rattle.layer.specs.Constraint.{IsGoodConstraint, since};
ghost use Rattle.layer.specs.Bias.{IsGoodBias};
ghost use Rattle.layer.specs.Layer.{LayerLists, no_lists, count_entries, update_place, bias_place};

use crate::shared::Shared;
use crate::{BIAS_MAX, BIAS_MIN, Bias, Constraint, Created, ENTRIES_MAX, Update};
use plan_base::{Dir, NoMemory, NodeId};
use std::alloc::Global;
use std::marker::Model;

/// A layer of knowledge about channels: created channels, updates, constraints, biases and disabled nodes.
/// All entries are good, and there are at most `ENTRIES_MAX` of them together. Copies share their lists until one of them is
/// changed.
#[derive(Debug, Drop)]
pub struct Layer {
    shared: Shared,
}

impl Model for Layer {
    ghost use Rattle.layer.specs.Layer.{LayerLists, IsGoodLayer};

    ghost Value = { LayerLists };

    ghost view = { λ layer. layer.shared };

    ghost invariant = { λ layer. IsGoodLayer layer.shared };
}

impl Layer {
    /// An empty layer. Allocates nothing.
    pub fn new(alloc: Global) -> Layer
        ensures empty { result ≡ no_lists }
        ensures limit { ENTRIES_MAX ≡ 65536 }
        ensures bias_limits { (BIAS_MIN ≡ negsuc 99) × (BIAS_MAX ≡ pos 100) }
    {
        Layer {
            shared: Shared::new(alloc),
        }
    }

    /// A layer with the same five lists. It shares them, and copies none.
    pub fn copy(&self) -> Result<Layer, NoMemory>
        ensures { IfOk result (λ layer. layer ≡ self.now) }
    {
        let shared = self.shared.share()?;
        Ok(Layer { shared })
    }

    /// The created channels, in order of creation.
    pub fn created(&self) -> &[Created]
        ensures list { result.now ≡ self.now.created }
        ensures good { All IsGoodCreated self.now.created }
    {
        match self.shared.get() {
            Some(lists) => &lists.created,
            None => &[],
        }
    }

    /// The updates, in the layer's own order.
    pub fn updates(&self) -> &[Update]
        ensures list { result.now ≡ self.now.updates }
        ensures good { All IsGoodUpdate self.now.updates }
    {
        match self.shared.get() {
            Some(lists) => lists.updates.as_slice(),
            None => &[],
        }
    }

    /// The constraints, in the order in which they were added.
    pub fn constraints(&self) -> &[Constraint]
        ensures list { result.now ≡ self.now.constraints }
        ensures good { All IsGoodConstraint self.now.constraints }
    {
        match self.shared.get() {
            Some(lists) => &lists.constraints,
            None => &[],
        }
    }

    /// The biases, in the layer's own order.
    pub fn biases(&self) -> &[Bias]
        ensures list { result.now ≡ self.now.biases }
        ensures good { All IsGoodBias self.now.biases }
    {
        match self.shared.get() {
            Some(lists) => lists.biases.as_slice(),
            None => &[],
        }
    }

    /// The disabled nodes, in the layer's own order.
    pub fn disabled(&self) -> &[NodeId]
        ensures { result.now ≡ self.now.disabled }
    {
        match self.shared.get() {
            Some(lists) => &lists.disabled,
            None => &[],
        }
    }

    /// How many entries the five lists have together.
    pub fn entries(&self) -> usize
        ensures value { result ≡ count_entries self.now }
        ensures few { count_entries self.now ≤ ENTRIES_MAX }
    {
        let Some(lists) = self.shared.get() else {
            return 0;
        };
        lists.created.len()
            + lists.updates.as_slice().len()
            + lists.constraints.len()
            + lists.biases.as_slice().len()
            + lists.disabled.len()
    }

    /// The position of the direction's first update, if it has one. Found without a scan.
    pub fn update_place(&self, dir: Dir) -> Option<usize>
        ensures place { result ≡ update_place self.now dir }
        ensures within { IfSome result (λ place. place < length self.now.updates) }
    {
        match self.shared.get() {
            Some(lists) => lists.updates.place(dir),
            None => None,
        }
    }

    /// The position of the direction's first bias, if it has one. Found without a scan.
    pub fn bias_place(&self, dir: Dir) -> Option<usize>
        ensures place { result ≡ bias_place self.now dir }
        ensures within { IfSome result (λ place. place < length self.now.biases) }
    {
        match self.shared.get() {
            Some(lists) => lists.biases.place(dir),
            None => None,
        }
    }

    /// Appends a created channel. If this call or one of those below returns an `Err`, the layer is unchanged.
    pub fn push_created(&mut self, channel: Created) -> Result<(), NoMemory>
        requires good { IsGoodCreated channel }
        requires room { count_entries self.old < ENTRIES_MAX }
        ensures ok { OnOk result (self.new ≡ record self.old { created = self.old.created ++ channel ∷ [] }) }
        ensures err { OnErr result (self.new ≡ self.old) }
    {
        let lists = self.shared.own()?;
        lists.created.push(channel)?;
        Ok(())
    }

    /// Appends an update.
    pub fn push_update(&mut self, change: Update) -> Result<(), NoMemory>
        requires good { IsGoodUpdate change }
        requires room { count_entries self.old < ENTRIES_MAX }
        ensures ok { OnOk result (self.new ≡ record self.old { updates = self.old.updates ++ change ∷ [] }) }
        ensures err { OnErr result (self.new ≡ self.old) }
    {
        let lists = self.shared.own()?;
        lists.updates.push(change)
    }

    /// Appends a constraint.
    pub fn push_constraint(&mut self, constraint: Constraint) -> Result<(), NoMemory>
        requires good { IsGoodConstraint constraint }
        requires room { count_entries self.old < ENTRIES_MAX }
        ensures ok { OnOk result (self.new ≡ record self.old { constraints = self.old.constraints ++ constraint ∷ [] }) }
        ensures err { OnErr result (self.new ≡ self.old) }
    {
        let lists = self.shared.own()?;
        lists.constraints.push(constraint)?;
        Ok(())
    }

    /// Appends a bias.
    pub fn push_bias(&mut self, bias: Bias) -> Result<(), NoMemory>
        requires good { IsGoodBias bias }
        requires room { count_entries self.old < ENTRIES_MAX }
        ensures ok { OnOk result (self.new ≡ record self.old { biases = self.old.biases ++ bias ∷ [] }) }
        ensures err { OnErr result (self.new ≡ self.old) }
    {
        let lists = self.shared.own()?;
        lists.biases.push(bias)
    }

    /// Appends a disabled node.
    pub fn push_disabled(&mut self, node: NodeId) -> Result<(), NoMemory>
        requires { count_entries self.old < ENTRIES_MAX }
        ensures ok { OnOk result (self.new ≡ record self.old { disabled = self.old.disabled ++ node ∷ [] }) }
        ensures err { OnErr result (self.new ≡ self.old) }
    {
        let lists = self.shared.own()?;
        lists.disabled.push(node)?;
        Ok(())
    }

    /// Replaces the update at a position. With another direction than before, it takes time in proportion to all updates.
    pub fn set_update(&mut self, place: usize, change: Update) -> Result<(), NoMemory>
        requires good { IsGoodUpdate change }
        requires place { place < length self.old.updates }
        ensures ok { OnOk result (self.new ≡ record self.old { updates = slice_set self.old.updates place change }) }
        ensures err { OnErr result (self.new ≡ self.old) }
    {
        let lists = self.shared.own()?;
        lists.updates.set(place, change)
    }

    /// Replaces the bias at a position. With another direction than before, it takes time in proportion to all biases.
    pub fn set_bias(&mut self, place: usize, bias: Bias) -> Result<(), NoMemory>
        requires good { IsGoodBias bias }
        requires place { place < length self.old.biases }
        ensures ok { OnOk result (self.new ≡ record self.old { biases = slice_set self.old.biases place bias }) }
        ensures err { OnErr result (self.new ≡ self.old) }
    {
        let lists = self.shared.own()?;
        lists.biases.set(place, bias)
    }

    /// Removes the constraints from before the cutoff, a time in Unix seconds, and returns how many it removed. The others
    /// keep their order. If it removes none, it allocates nothing.
    #[tactic(auto, using(crate::proofs::Kept::good_since))]
    pub fn drop_before(&mut self, cutoff: u64) -> Result<u32, NoMemory>
        ensures kept { OnOk result (self.new ≡ record self.old { constraints = since cutoff self.old.constraints }) }
        ensures count { IfOk result (λ count. count + length self.new.constraints ≡ length self.old.constraints) }
        ensures err { OnErr result (self.new ≡ self.old) }
    {
        if keeps_all(self.constraints(), cutoff) {
            return Ok(0);
        }
        let lists = self.shared.own()?;
        let before = lists.constraints.len();
        keep_since(&mut lists.constraints, cutoff);
        Ok((before - lists.constraints.len()) as u32)
    }
}

fn keeps_all(constraints: &[Constraint], cutoff: u64) -> bool
    ensures { result ≡ list_all (λ constraint. nat_le cutoff constraint.moment) constraints.now }
{
    constraints
        .iter()
        .all(|constraint| cutoff <= constraint.moment)
}

fn keep_since(constraints: &mut Vec<Constraint>, cutoff: u64)
    ensures kept { constraints.new.items ≡ since cutoff constraints.old.items }
    ensures shorter { length constraints.new.items ≤ length constraints.old.items }
{
    let mut kept = 0;
    for place in 0..constraints.len() {
        let constraint = constraints[place];
        if cutoff <= constraint.moment {
            constraints[kept] = constraint;
            kept += 1;
        }
    }
    constraints.truncate(kept);
}
