// Opening a drawing.
ghost use Rattle.std.specs.Prelude.{◌≡◌};
ghost use Rattle.drawing.specs.Opening.{Opened};

use crate::asked::Asked;
use crate::border::{kind_at, lowest_unlike};
use crate::drawing::Drawing;
use crate::refusal::OpenRefusal;
use grid::Voxel;
use scan::{Scan, lowest_lacking};

impl Drawing {
    // A drawing of the scan, with no cube drawn; refused, the first that applies, over a side of 1, the threshold, the pair,
    // a voxel on the border that lacks a reading, and a border of two kinds. With `if let`: there a voxel that is found is
    // the refusal, and `?` passes on that none is.
    pub fn open<S: Scan>(scan: &S, asked: Asked) -> Result<Drawing, OpenRefusal>
        ensures { Opened (S.Scan.means scan.now) asked result }
    {
        let test = asked.test;
        let sides = scan.sides();
        let pair = asked.pair(sides)?;
        if let Some(lacking) = lowest_lacking(scan) {
            return Err(lacking.into());
        }
        let kind = kind_at(scan, test, Voxel { x: 0, y: 0, z: 0 });
        if let Some(voxel) = lowest_unlike(scan, test, kind) {
            return Err(OpenRefusal::Mixed { voxel });
        }
        Ok(Drawing {
            sides,
            test,
            pair,
            cubes: 0,
            triangles: 0,
        })
    }
}
