ghost use Rattle.std.specs.Prelude.{◌≡◌, ◌<◌, [], ◌∷◌, ◌++◌, length, position, slice_set, IfOk, IfSome, OnOk, OnErr};
ghost use Rattle.plan_base.specs.Dir.{Direction, same_dir};

use crate::places::Places;
use crate::{Bias, Update};
use plan_base::{Dir, NoMemory};
use std::alloc::{AllocError, Global};
use std::marker::Model;

// An entry for a direction.
pub(crate) trait Directed: Copy {
    ghost dir: { Self → Direction };

    fn dir(&self) -> Dir
        ensures { result ≡ dir self.now };
}

impl Directed for Update {
    ghost dir = { λ change. change.dir };

    fn dir(&self) -> Dir {
        self.dir
    }
}

impl Directed for Bias {
    ghost dir = { λ bias. bias.dir };

    fn dir(&self) -> Dir {
        self.dir
    }
}

// Entries in order, with the places that find the first one of a direction without a scan.
#[derive(Debug, Drop)]
pub(crate) struct Indexed<T: Directed> {
    alloc: Global,
    items: Vec<T>,
    places: Places,
}

impl<T: Directed> Model for Indexed<T> {
    ghost use Rattle.std.specs.Prelude.{List};
    ghost use Rattle.std.specs.Coded.{coded_list};
    ghost use Rattle.layer.specs.Places.{IsIndex};

    ghost Value = { List T };

    ghost coded = { coded_list T.code };

    ghost view = { λ it. it.items.items };

    ghost invariant = { λ it. IsIndex T.dir it.items.items it.places };
}

impl<T: Directed> Indexed<T> {
    pub(crate) fn new(alloc: Global) -> Indexed<T>
        ensures { result ≡ [] }
    {
        Indexed {
            alloc,
            items: Vec::new(alloc),
            places: Places::new(alloc),
        }
    }

    pub(crate) fn from_slice(alloc: Global, items: &[T]) -> Result<Indexed<T>, NoMemory>
        ensures { IfOk result (λ it. it ≡ items.now) }
    {
        let mut indexed = Indexed::new(alloc);
        for item in items {
            indexed.push(*item)?;
        }
        Ok(indexed)
    }

    pub(crate) fn as_slice(&self) -> &[T]
        ensures { result.now ≡ self.now }
    {
        &self.items
    }

    // The position of the first entry of a direction.
    pub(crate) fn place(&self, dir: Dir) -> Option<usize>
        ensures place { result ≡ position (λ item. same_dir (T.dir item) dir) self.now }
        ensures within { IfSome result (λ place. place < length self.now) }
    {
        self.places.get(dir)
    }

    pub(crate) fn push(&mut self, item: T) -> Result<(), NoMemory>
        ensures ok { OnOk result (self.new ≡ self.old ++ item ∷ []) }
        ensures err { OnErr result (self.new ≡ self.old) }
    {
        self.items.reserve(1)?;
        self.places.learn(item.dir(), self.items.len())?;
        self.items.push(item).unwrap();
        Ok(())
    }

    // Replaces an entry. An entry of another direction moves the first entries of both, so then all is made anew.
    pub(crate) fn set(&mut self, place: usize, item: T) -> Result<(), NoMemory>
        requires { place < length self.old }
        ensures ok { OnOk result (self.new ≡ slice_set self.old place item) }
        ensures err { OnErr result (self.new ≡ self.old) }
    {
        if self.items[place].dir() == item.dir() {
            self.items[place] = item;
            return Ok(());
        }
        let mut items = Vec::from_slice(self.alloc, &self.items)?;
        items[place] = item;
        *self = Indexed::from_slice(self.alloc, &items)?;
        Ok(())
    }
}

impl<T: Directed> Clone for Indexed<T> {
    ghost is_clone = { λ a b. b ≡ a };

    fn clone(&self) -> Result<Indexed<T>, AllocError> {
        Ok(Indexed {
            alloc: self.alloc,
            items: Vec::from_slice(self.alloc, &self.items)?,
            places: self.places.clone()?,
        })
    }
}
