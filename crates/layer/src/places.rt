ghost use Rattle.std.specs.Prelude.{◌≡◌, None, OnOk, OnErr};
ghost use Rattle.plan_base.specs.Dir.{Direction};
ghost use Rattle.layer.specs.Places.{known, Learns};

use plan_base::{Dir, NoMemory};
use std::alloc::{AllocError, Global};
use std::collections::BTreeMap;
use std::sync::Arc;

// Places of directions. A clone shares the map, and what either learns from then on is in a map of its own, since a map of
// many directions takes long to copy. Callers choose the directions, so the maps are trees: no choice makes them slow.
#[derive(Debug, Drop)]
pub(crate) struct Places {
    alloc: Global,
    shared: Option<Arc<BTreeMap<Dir, usize>, Global>>,
    own: BTreeMap<Dir, usize>,
}

impl Places {
    pub(crate) fn new(alloc: Global) -> Places
        ensures { (dir : Direction) → known result dir ≡ None }
    {
        Places {
            alloc,
            shared: None,
            own: BTreeMap::new(alloc),
        }
    }

    pub(crate) fn get(&self, dir: Dir) -> Option<usize>
        ensures { result ≡ known self.now dir }
    {
        if let Some(place) = self.own.get(&dir) {
            return Some(*place);
        }
        match &self.shared {
            Some(shared) => shared.get(&dir).copied(),
            None => None,
        }
    }

    // Gives a place to a direction, unless it has one.
    pub(crate) fn learn(&mut self, dir: Dir, place: usize) -> Result<(), NoMemory>
        ensures ok { OnOk result (Learns self.old self.new dir place) }
        ensures err { OnErr result ((dir : Direction) → known self.new dir ≡ known self.old dir) }
    {
        if self.get(dir).is_some() {
            return Ok(());
        }
        let alloc = self.alloc;
        let shared = self
            .shared
            .get_or_try_insert_with(|| Arc::new(alloc, BTreeMap::new(alloc)))?;
        match Arc::get_mut(shared) {
            Some(places) => places.insert(dir, place)?,
            None => self.own.insert(dir, place)?,
        };
        Ok(())
    }
}

impl Clone for Places {
    ghost use Rattle.std.specs.Prelude.{◌≡◌};
    ghost use Rattle.plan_base.specs.Dir.{Direction};
    ghost use Rattle.layer.specs.Places.{known};

    ghost is_clone = { λ a b. (dir : Direction) → known b dir ≡ known a dir };

    fn clone(&self) -> Result<Places, AllocError> {
        let shared = match &self.shared {
            Some(shared) => Some(Arc::try_clone(shared)?),
            None => None,
        };
        Ok(Places {
            alloc: self.alloc,
            shared,
            own: self.own.clone()?,
        })
    }
}
