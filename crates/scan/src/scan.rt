// What every scan answers.
ghost use Rattle.std.specs.Prelude.{◌≡◌};
ghost use Rattle.scan.specs.Meaning.{Lawful, Meaning, Told};

use crate::fault::Fault;
use grid::{Sides, Voxel};

// Readings on a grid of voxels. Asking a scan changes nothing.
pub trait Scan {
    // The sides of the scan, and its answer at each place.
    ghost means: { Self → Meaning };

    // What every scan owes of its answers.
    ghost lawful: { (s : Self) → Lawful (means s) };

    // The sides of the scan.
    fn sides(&self) -> Sides
        ensures { result ≡ (means self.now).sides };

    // The reading at a place, which may be any; a fault where the voxel has none or the place lies outside.
    fn read(&self, place: Voxel) -> Result<u16, Fault>
        ensures answer { result ≡ (means self.now).at place }
        ensures told { Told (means self.now).sides place result };
}

impl<'a, S: Scan> Scan for &'a S {
    ghost means = { λ s. S.Scan.means s.now };

    ghost lawful = { λ s. S.Scan.lawful s.now };

    fn sides(&self) -> Sides {
        (**self).sides()
    }

    fn read(&self, place: Voxel) -> Result<u16, Fault> {
        (**self).read(place)
    }
}
