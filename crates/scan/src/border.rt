// The border of a scan.
ghost use Rattle.std.specs.Prelude.{MatchOption};
ghost use Rattle.scan.specs.Borders.{BorderRead, Lacks, LowestLacking};

use crate::fault::Fault;
use crate::scan::Scan;
use grid::Voxel;

// A voxel that lacks a reading, and the fault that it answers with.
#[derive(Clone, Copy, PartialEq, Eq, Debug)]
pub struct Lacking {
    pub voxel: Voxel,
    pub fault: Fault,
}

// The voxel on the border, a coordinate 0 or the last, with the lowest number that lacks a reading; none if
// each of them has one.
pub fn lowest_lacking<S: Scan>(scan: &S) -> Option<Lacking>
    ensures { MatchOption result (BorderRead (S.Scan.means scan.now)) (λ l. LowestLacking (S.Scan.means scan.now) l.voxel l.fault) }
{
    scan.sides().first_on_border(
        |voxel|
            ensures { Lacks (S.Scan.means scan.entry.now) voxel result }
        {
            let fault = scan.read(voxel).err()?;
            Some(Lacking { voxel, fault })
        },
    )
}
