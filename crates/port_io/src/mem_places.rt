ghost use Rattle.std.specs.Prelude.{◌≡◌, ◌==◌, ◌+◌, ◌-◌, ◌^◌, min, ℕ, List, true, false, None, IsSome, IsErrOf};
ghost use Rattle.std.specs.List.{list_any};
ghost use Rattle.std.specs.Option.{option_map};
ghost use Rattle.port_io.specs.FileList.{file_in};

use crate::{PlaceFault, Places};
use std::alloc::Global;

/// Files in memory. Of several files with one name the first counts. Reading a name that does not exist is a fault, and
/// so is each call whose number, counted from 0, is in `fails`.
#[derive(Debug, Drop)]
pub struct MemPlaces {
    files: Vec<(String, Vec<u8>)>,
    fails: Vec<u64>,
    calls: u64,
    faults: u64,
}

impl MemPlaces {
    ghost use Rattle.port_io.specs.MemPlaces.{places_file, places_fails, places_calls, places_faults};

    /// Creates these files, each with its name.
    pub fn new(files: Vec<(String, Vec<u8>)>, fails: Vec<u64>) -> MemPlaces
        ensures files { (name : List ℕ) → places_file result name ≡ file_in files.items name }
        ensures fails { places_fails result ≡ fails.items }
        ensures calls { places_calls result ≡ 0 }
        ensures faults { places_faults result ≡ 0 }
    {
        MemPlaces {
            files,
            fails,
            calls: 0,
            faults: 0,
        }
    }
}

impl Places for MemPlaces {
    ghost use Rattle.port_io.specs.Files.{GivesFile, HasPlaceCause};
    ghost use Rattle.port_io.specs.MemPlaces.{places_file, places_fails, places_calls, places_faults};

    ghost file = { places_file };

    ghost place_faults = { places_faults };

    fn read_whole(&mut self, alloc: Global, name: &str, limit: usize) -> Result<Vec<u8>, PlaceFault>
        ensures bytes { GivesFile (places_file self.old name.now) limit result }
        ensures cause { HasPlaceCause (places_faults self.old) (places_faults self.new) result }
        ensures same { (other : List ℕ) → places_file self.new other ≡ places_file self.old other }
        ensures listed { list_any (λ call. call == places_calls self.old) (places_fails self.old) ≡ true → IsErrOf result PlaceFault.Failed }
        ensures missing { places_file self.old name.now ≡ None → IsErrOf result PlaceFault.Failed }
        ensures found { list_any (λ call. call == places_calls self.old) (places_fails self.old) ≡ false
            → IsSome (places_file self.old name.now) → ¬ (IsErrOf result PlaceFault.Failed) }
        ensures fails { places_fails self.new ≡ places_fails self.old }
        ensures calls { places_calls self.new ≡ min (places_calls self.old + 1) (2 ^ 64 - 1) }
        ensures counted { ¬ (IsErrOf result PlaceFault.Failed) → places_faults self.new ≡ places_faults self.old }
    {
        let call = self.calls;
        self.calls = call.saturating_add(1);
        if self.fails.contains(&call) {
            self.faults = self.faults.saturating_add(1);
            return Err(PlaceFault::Failed);
        }
        let Some(file) = find_file(&self.files, name) else {
            self.faults = self.faults.saturating_add(1);
            return Err(PlaceFault::Failed);
        };
        if file.len() > limit {
            return Err(PlaceFault::Long);
        }
        Ok(file.to_vec(alloc)?)
    }
}

// Returns the bytes of the first file with this name.
fn find_file<'a>(files: &'a [(String, Vec<u8>)], name: &str) -> Option<&'a Vec<u8>>
    ensures { option_map (λ bytes. bytes.now.items) result ≡ file_in files.now name.now }
{
    for file in files {
        if file.0.as_str() == name {
            return Some(&file.1);
        }
    }
    None
}
