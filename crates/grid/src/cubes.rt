// The cubes of a scan and their numbers.
ghost use Rattle.std.specs.Prelude.{◌≡◌, ◌≤◌, MatchOption};
ghost use Rattle.grid.specs.Cubes.{CubeNumbered, Low, cube_count};

use crate::sides::Sides;
use crate::voxel::Voxel;

// The three calls on cubes and the three on voxels stay apart, one line each over a box: a caller asks for a cube's number
// or a voxel's, and would have to name the box each time.
impl Sides {
    // How many cubes of eight voxels the scan has: none where a side is 1.
    pub fn cube_count(self) -> u32
        ensures { (result ≡ cube_count self) × (result ≤ 16777216) }
    {
        self.cubes().count()
    }

    // The number of the cube at a low voxel, which no other cube has; none if no cube lies there.
    pub fn cube_number(self, low: Voxel) -> Option<u32>
        ensures { MatchOption result (Low self low → ⊥) (λ n. CubeNumbered self low n) }
    {
        self.cubes().number(low)
    }

    // The low voxel of the cube with that number; none from the count of cubes on.
    pub fn cube_at(self, number: u32) -> Option<Voxel>
        ensures { MatchOption result (cube_count self ≤ number) (λ low. CubeNumbered self low number) }
    {
        self.cubes().at(number)
    }
}
