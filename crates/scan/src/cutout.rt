// A scan that shows a box of another scan.
ghost use Rattle.std.specs.Prelude.{◌≡◌};
ghost use Rattle.scan.specs.Cuts.{ShowsBox, cut_low, cut_means};
ghost use Rattle.scan.specs.Laws.Lawful.{cut_lawful};

use crate::clip;
use crate::fault::{Cause, Fault};
use crate::lengths::Lengths;
use crate::measured::MeasuredScan;
use crate::scan::Scan;
use crate::spacing::Spacing;
use grid::{Sides, Voxel};

// A box of the scan below, by a low corner and three lengths as they were given; it is clipped to the scan.
#[derive(Drop)]
pub struct Cutout<S> {
    below: S,
    low: Voxel,
    lengths: Lengths,
}

impl<S: Scan> Cutout<S> {
    // The cut-out of the box at that corner, of any scan, by value or by reference.
    pub fn new(below: S, low: Voxel, lengths: Lengths) -> Cutout<S>
        ensures kept { (result.below ≡ below) × (result.low ≡ low) × (result.lengths ≡ lengths) }
        ensures shows { ShowsBox (cut_means (S.Scan.means result.below) result.low result.lengths) (S.Scan.means below) low lengths (cut_low (S.Scan.means below).sides low) }
    {
        Cutout {
            below,
            low,
            lengths,
        }
    }
}

impl<S: Scan> Scan for Cutout<S> {
    ghost means = { λ c. cut_means (S.Scan.means c.below) c.low c.lengths };

    ghost lawful = { λ c. cut_lawful (S.Scan.means c.below) c.low c.lengths (S.Scan.lawful c.below) };

    fn sides(&self) -> Sides {
        clip::part(self.below.sides(), self.low, self.lengths)
    }

    fn read(&self, place: Voxel) -> Result<u16, Fault> {
        // The scan below is asked once for its sides: in a pile each question goes through all cut-outs below.
        let whole = self.below.sides();
        if !clip::part(whole, self.low, self.lengths).holds(place) {
            return Err(Fault::own(Cause::Outside, place));
        }
        let corner = clip::corner(whole, self.low);
        // By axis, as the voxel of a cube is: a sum of voxels would ask its callers to stay below the last number, and no public
        // call here asks anything of its callers.
        let shown = Voxel {
            x: corner.x + place.x,
            y: corner.y + place.y,
            z: corner.z + place.z,
        };
        self.below.read(shown).map_err(Fault::pass_up)
    }
}

impl<S: MeasuredScan> MeasuredScan for Cutout<S> {
    ghost spaced = { λ c. S.MeasuredScan.spaced c.below };

    fn spacing(&self) -> Spacing {
        self.below.spacing()
    }
}
