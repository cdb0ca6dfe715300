// The tube that joins two solid voxels at opposite ends of a cube.
ghost use Rattle.std.specs.Prelude.{◌≡◌, [], ◌∷◌};
ghost use Rattle.cube.specs.Cube.{kinds};
ghost use Rattle.cube.specs.Patches.{laid};
ghost use Rattle.cube.specs.Triangles.{opposite, with_tube};
ghost use Rattle.cube.specs.Tubes.{tube_between};

use crate::mask::Mask;
use crate::patch::Patch;
use crate::table::row_of;
use crate::triangle::CubeTriangle;

impl Mask {
    // Whether just two voxels are solid, at opposite ends of the cube.
    pub fn is_opposite(self) -> bool
        ensures { result ≡ opposite (kinds self.0) }
    {
        matches!(
            self.0,
            0b1000_0001 | 0b0100_0010 | 0b0010_0100 | 0b0001_1000
        )
    }
}

// The six triangles between two loops of three that run round opposite ends of a cube: each edge of one loop with the
// corner of the other that has the third axis. Both loops begin with their link along x.
fn tube(a: CubeTriangle, b: CubeTriangle) -> [CubeTriangle; 6]
    ensures { result ≡ tube_between a b }
{
    [
        CubeTriangle(a.0, a.1, b.1),
        CubeTriangle(b.0, a.1, a.2),
        CubeTriangle(a.0, b.2, a.2),
        CubeTriangle(b.0, b.1, a.1),
        CubeTriangle(a.0, b.1, b.2),
        CubeTriangle(b.0, a.2, b.2),
    ]
}

// The triangles of a mask where solid is 26-connected and hollow 6-connected.
pub fn with_tube(mask: Mask) -> Patch
    ensures { laid result ≡ with_tube (kinds mask.0) }
{
    let row = row_of(mask);
    if !mask.is_opposite() {
        return row;
    }
    Patch {
        count: 6,
        places: tube(row.places[0], row.places[1]),
    }
}
