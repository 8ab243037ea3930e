ghost use Rattle.std.specs.Prelude.{◌≡◌};
ghost use Rattle.layer.specs.Layer.{no_lists};
ghost use Rattle.layer.specs.Fields.{lists_in};

use crate::indexed::Indexed;
use crate::{Bias, Constraint, Created, Update};
use plan_base::NodeId;
use std::alloc::{AllocError, Global};

// The five lists of a layer, which its copies share.
#[derive(Debug, Drop)]
pub(crate) struct Lists {
    pub(crate) alloc: Global,
    pub(crate) created: Vec<Created>,
    pub(crate) updates: Indexed<Update>,
    pub(crate) constraints: Vec<Constraint>,
    pub(crate) biases: Indexed<Bias>,
    pub(crate) disabled: Vec<NodeId>,
}

impl Lists {
    pub(crate) fn new(alloc: Global) -> Lists
        ensures { lists_in result ≡ no_lists }
    {
        Lists {
            alloc,
            created: Vec::new(alloc),
            updates: Indexed::new(alloc),
            constraints: Vec::new(alloc),
            biases: Indexed::new(alloc),
            disabled: Vec::new(alloc),
        }
    }
}

impl Clone for Lists {
    ghost use Rattle.std.specs.Prelude.{◌≡◌};
    ghost use Rattle.layer.specs.Fields.{lists_in};

    ghost is_clone = { λ a b. lists_in b ≡ lists_in a };

    fn clone(&self) -> Result<Lists, AllocError> {
        Ok(Lists {
            alloc: self.alloc,
            created: Vec::from_slice(self.alloc, &self.created)?,
            updates: self.updates.clone()?,
            constraints: Vec::from_slice(self.alloc, &self.constraints)?,
            biases: self.biases.clone()?,
            disabled: Vec::from_slice(self.alloc, &self.disabled)?,
        })
    }
}
