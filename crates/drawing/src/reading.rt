// The mask of a cube, read off a scan.
ghost use Rattle.std.specs.Prelude.{◌<◌, ◌≤◌, IfSome, MatchOption};
ghost use Rattle.drawing.specs.Readings.{Beside, CubeRead, VoxelRead};
ghost use Rattle.grid.specs.Cubes.{cube_count};
ghost use Rattle.surface.specs.Places.{low_of, voxel_at};

use crate::cube_at::CubeAt;
use crate::letter::SolidTest;
use cube::Mask;
use scan::{Lacking, Scan};

impl CubeAt {
    // Whether voxel i of the cube is solid; refused where it lacks a reading. A voxel that the cube has from the one before it
    // along x is told by that one's mask, where it is at hand: else each voxel would be read for eight cubes.
    #[inline(always)]
    fn kind<S: Scan>(
        self,
        scan: &S,
        test: SolidTest,
        left: Option<Mask>,
        i: u8,
    ) -> Result<bool, Lacking>
        requires voxel { i < 8 }
        requires beside { Beside test (S.Scan.means scan.now) self.low left }
        ensures { VoxelRead test (S.Scan.means scan.now) (voxel_at self.low i) result }
    {
        if i % 2 == 0
            && self.low.x > 0
            && let Some(mask) = left
        {
            return Ok(mask.is_solid(i + 1));
        }
        let voxel = self.voxel(i);
        match scan.read(voxel) {
            Ok(reading) => Ok(test.is_solid(reading)),
            Err(fault) => Err(Lacking { voxel, fault }),
        }
    }

    // The mask of the cube in a scan, by that of the cube before it, if it is at hand; refused with the first of its voxels
    // that lacks a reading.
    #[inline(always)]
    pub(crate) fn mask<S: Scan>(
        self,
        scan: &S,
        test: SolidTest,
        left: Option<Mask>,
    ) -> Result<Mask, Lacking>
        requires { Beside test (S.Scan.means scan.now) self.low left }
        ensures { CubeRead test (S.Scan.means scan.now) self.low result }
    {
        let mut kinds = [false; 8];
        for (i, solid) in kinds.iter_mut().enumerate() {
            *solid = self.kind(scan, test, left, i as u8)?;
        }
        Ok(Mask::of(kinds))
    }
}

// The mask of the cube with that number, or the first of its voxels that lacks a reading; none from the count of cubes on.
pub fn cube_mask<S: Scan>(scan: &S, test: SolidTest, number: u32) -> Option<Result<Mask, Lacking>>
    ensures read { MatchOption result (cube_count (S.Scan.means scan.now).sides ≤ number) (λ a. CubeRead test (S.Scan.means scan.now) (low_of (S.Scan.means scan.now).sides number) a) }
    ensures below { IfSome result (λ _. number < cube_count (S.Scan.means scan.now).sides) }
{
    let cube = CubeAt::new(scan.sides(), number)?;
    Some(cube.mask(scan, test, None))
}
