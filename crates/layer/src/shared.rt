ghost use Rattle.std.specs.Prelude.{◌≡◌, IfOk};
ghost use Rattle.std.specs.Option.{option_map_or};
ghost use Rattle.std.specs.Borrow.{sem};
ghost use Rattle.layer.specs.Layer.{no_lists};
ghost use Rattle.layer.specs.Fields.{lists_in};
ghost use Rattle.layer.specs.Owning.{LendsLists};

use crate::lists::Lists;
use plan_base::NoMemory;
use std::alloc::Global;
use std::marker::Model;
use std::sync::Arc;

// The lists of a layer, which its copies share until one of them is changed. Empty lists take no memory.
#[derive(Debug, Drop)]
pub(crate) struct Shared {
    alloc: Global,
    lists: Option<Arc<Lists, Global>>,
}

impl Model for Shared {
    ghost use Rattle.layer.specs.Layer.{LayerLists};
    ghost use Rattle.layer.specs.Fields.{shared_lists};

    ghost Value = { LayerLists };

    ghost view = { λ it. shared_lists it.lists };
}

impl Shared {
    pub(crate) fn new(alloc: Global) -> Shared
        ensures { result ≡ no_lists }
    {
        Shared { alloc, lists: None }
    }

    // The same lists, shared.
    pub(crate) fn share(&self) -> Result<Shared, NoMemory>
        ensures { IfOk result (λ it. it ≡ self.now) }
    {
        let lists = match &self.lists {
            Some(lists) => Some(Arc::try_clone(lists)?),
            None => None,
        };
        Ok(Shared {
            alloc: self.alloc,
            lists,
        })
    }

    // The lists, unless they are empty.
    pub(crate) fn get(&self) -> Option<&Lists>
        ensures { option_map_or (λ lists. lists_in lists.now) result no_lists ≡ self.now }
    {
        match &self.lists {
            Some(lists) => Some(lists),
            None => None,
        }
    }

    // The lists, to change them. Copies them first if they are shared.
    pub(crate) fn own(&mut self) -> Result<&mut Lists, NoMemory>
        ensures* writes_back { sem 𝓛 (LendsLists self.entry result) }
        ensures value { IfOk result (λ lists. lists_in lists.now ≡ self.old) }
    {
        let alloc = self.alloc;
        let lists = self
            .lists
            .get_or_try_insert_with(|| Arc::new(alloc, Lists::new(alloc)))?;
        Ok(Arc::make_mut(lists)?)
    }
}
