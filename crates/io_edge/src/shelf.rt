ghost use Rattle.std.specs.Prelude.{◌≡◌, ℕ, List, Option};
ghost use Rattle.io_edge.specs.declared.reading.Reading.{Reading as Made};
ghost use Rattle.io_edge.specs.Files.{IsReading, with_reading};

use crate::ShelfRefusal;
use net_base::Octets;

/// Where files are read from, by their names.
pub trait Shelf {
    /// The bytes of the file of each name, where the shelf tells them.
    ghost file: { Self → List ℕ → Option (List ℕ) };

    /// The readings that were made, in order.
    ghost readings: { Self → List Made };

    /// The bytes of the file of a name, where they are at most `limit`. No file changes.
    fn read(&mut self, name: &str, limit: usize) -> Result<Octets, ShelfRefusal>
        ensures kept { (other : List ℕ) → file self.new other ≡ file self.old other }
        ensures reading { IsReading (file self.old name.now) limit result }
        ensures made { readings self.new ≡ with_reading (readings self.old) name.now limit result };
}
