ghost use Rattle.std.specs.Prelude.{None};

use crate::{PlaceFault, Places, StdSource, read_limited};
use std::alloc::Global;
use std::fs::{File, Files};

/// The files of the system. Their contents are unspecified. Every `Err` counts as a fault, also of an interrupted read,
/// which is tried again.
#[derive(Drop)]
pub struct StdPlaces<F> {
    files: F,
    faults: u64,
}

impl<F: Files> StdPlaces<F> {
    /// The files that the runtime can open.
    pub fn new(files: F) -> StdPlaces<F> {
        StdPlaces { files, faults: 0 }
    }
}

impl<F: Files> Places for StdPlaces<F> {
    ghost file = { λ s name. None };

    ghost place_faults = { λ s. s.faults };

    fn read_whole(
        &mut self,
        alloc: Global,
        name: &str,
        limit: usize,
    ) -> Result<Vec<u8>, PlaceFault> {
        let Ok(file) = File::open(&self.files, name) else {
            self.faults = self.faults.saturating_add(1);
            return Err(PlaceFault::Failed);
        };
        let mut source = StdSource::new(file);
        let taken = read_limited(alloc, &mut source, limit);
        self.faults = self.faults.saturating_add(source.faults());
        taken
    }
}
