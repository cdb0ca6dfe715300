// A cube where it lies in a scan: its voxels, its links and their numbers.
ghost use Rattle.std.specs.Prelude.{◌≡◌, ◌+◌, ◌<◌, ◌≤◌, IfSome, MatchOption};
ghost use Rattle.grid.specs.Cubes.{Low, cube_count, cube_number};
ghost use Rattle.surface.specs.Places.{low_of, number_at, voxel_at};

use grid::{Sides, Voxel};

// A cube of a scan with these sides, by its low voxel.
#[derive(Clone, Copy)]
pub(crate) struct CubeAt {
    pub(crate) sides: Sides,
    pub(crate) low: Voxel,
    ghost inside: { Low sides low },
}

impl CubeAt {
    // The cube with that number; none from the count of cubes on.
    pub(crate) fn new(sides: Sides, number: u32) -> Option<CubeAt>
        ensures at { MatchOption result (cube_count sides ≤ number) (λ c. (c.sides ≡ sides) × (c.low ≡ low_of sides number)) }
        ensures below { IfSome result (λ _. number < cube_count sides) }
    {
        let low = sides.cube_at(number)?;
        Some(CubeAt { sides, low })
    }

    // The cube with the next number; none after the last. By steps: dividing the number took as long as reading the cube.
    pub(crate) fn next(self) -> Option<CubeAt>
        ensures step { MatchOption result (cube_count self.sides ≤ cube_number self.sides self.low + 1) (λ c. (c.sides ≡ self.sides) × (c.low ≡ low_of self.sides (cube_number self.sides self.low + 1))) }
        ensures along { IfSome result (λ c. 0 < c.low.x → c.low ≡ record { x = self.low.x + 1; y = self.low.y; z = self.low.z }) }
    {
        let CubeAt { sides, low } = self;
        let Voxel { x, y, z } = low;
        if x + 2 < sides.x() {
            let low = Voxel { x: x + 1, y, z };
            Some(CubeAt { sides, low })
        } else if y + 2 < sides.y() {
            let low = Voxel { x: 0, y: y + 1, z };
            Some(CubeAt { sides, low })
        } else if z + 2 < sides.z() {
            let low = Voxel {
                x: 0,
                y: 0,
                z: z + 1,
            };
            Some(CubeAt { sides, low })
        } else {
            None
        }
    }

    // Voxel i of the cube. By axis: a sum of voxels would ask its callers to stay below the last number, and no public call
    // here asks anything of its callers.
    pub(crate) fn voxel(self, i: u8) -> Voxel
        requires { i < 8 }
        ensures { result ≡ voxel_at self.low i }
    {
        Voxel {
            x: self.low.x + u32::from(i % 2),
            y: self.low.y + u32::from(i / 2 % 2),
            z: self.low.z + u32::from(i / 4 % 2),
        }
    }

    // The number that a link of the cube has in the scan, worked out from that of its lower voxel. The number in the
    // cube is bounded by a clause, here and in the calls on it: it comes from the table of triangles, whose places are plain
    // numbers, and a type for it would be made and taken apart for one look-up.
    pub(crate) fn number_of(self, link: u8) -> u32
        requires { link < 12 }
        ensures { result ≡ number_at self.sides self.low link }
    {
        let (lower, _) = cube::ends(link).unwrap();
        let number = self.sides.voxel_number(self.voxel(lower)).unwrap();
        3 * number + u32::from(link / 4)
    }
}
