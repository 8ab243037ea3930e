ghost use Rattle.std.specs.Prelude.{◌≡◌, ℕ, List};
ghost use Rattle.std.specs.declared.option.Option.{Option};
ghost use Rattle.port_io.specs.Files.{GivesFile, HasPlaceCause};

use crate::PlaceFault;
use std::alloc::Global;

/// A place that contains files.
pub trait Places {
    /// The bytes of the file with a name, if they are known.
    ghost file: { Self → List ℕ → Option (List ℕ) };

    /// How often a read of a file has failed, up to the last value of a `u64`.
    ghost place_faults: { Self → ℕ };

    /// Reads all bytes of a file that has at most `limit` of them. Every file stays unchanged.
    fn read_whole(&mut self, alloc: Global, name: &str, limit: usize) -> Result<Vec<u8>, PlaceFault>
        ensures bytes { GivesFile (file self.old name.now) limit result }
        ensures cause { HasPlaceCause (place_faults self.old) (place_faults self.new) result }
        ensures same { (other : List ℕ) → file self.new other ≡ file self.old other };
}
