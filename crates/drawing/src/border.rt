// The kinds of a scan's voxels, and whether its border is of one kind.
ghost use Rattle.std.specs.Prelude.{◌≡◌, MatchOption};
ghost use Rattle.drawing.specs.Borders.{BorderOf, LowestUnlike, Unlike};
ghost use Rattle.drawing.specs.Solids.{solids_of};

use crate::letter::SolidTest;
use grid::Voxel;
use scan::Scan;

// A scan and the test of what is solid go side by side, here and in reading: a struct of both would be made for one
// question, and would borrow the scan.

// Whether a voxel of a scan has a reading that is solid.
pub fn kind_at<S: Scan>(scan: &S, test: SolidTest, voxel: Voxel) -> bool
    ensures { result ≡ solids_of test (S.Scan.means scan.now) voxel }
{
    scan.read(voxel).is_ok_and(|reading| test.is_solid(reading))
}

// The voxel on the border with the lowest number that is not of a kind; none if each of them is of it. A kind is a `bool`,
// whether it is solid: it is only compared, and the solid test answers it.
pub fn lowest_unlike<S: Scan>(scan: &S, test: SolidTest, kind: bool) -> Option<Voxel>
    ensures { MatchOption result (BorderOf test (S.Scan.means scan.now) kind) (λ v. LowestUnlike test (S.Scan.means scan.now) kind v) }
{
    scan.sides().first_on_border(
        |voxel|
            ensures { Unlike test (S.Scan.means scan.entry.now) kind voxel result }
        { (kind_at(scan, test, voxel) != kind).then_some(voxel) },
    )
}
