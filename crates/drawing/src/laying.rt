// One cube of a drawing: its triangles in the scan's link numbers, put into a tray together.
ghost use Rattle.std.specs.Prelude.{◌≡◌, ◌<◌, ◌≤◌, map, length, MatchBool, MatchOption, IfOk, Ok, ◌⊎◌};
ghost use Rattle.cube.specs.Cube.{kinds};
ghost use Rattle.cube.specs.Triangles.{triangles as the-triangles};
ghost use Rattle.drawing.specs.Counts.{count_of};
ghost use Rattle.drawing.specs.Laying.{CubeLaid, LaidIn, Layable, MaskLaid, corners};
ghost use Rattle.drawing.specs.Readings.{Beside, CubeRead};
ghost use Rattle.surface.specs.Laid.{numbered};
ghost use Rattle.surface.specs.Laws.{Sound};
ghost use Rattle.surface.specs.Places.{low_of};

use crate::cube_at::CubeAt;
use crate::drawing::Drawing;
use crate::progress::Ending;
use cube::{CubeTriangle, Mask, triangles};
use scan::Scan;
use tray::{Tray, Triangle};

// A cube that was drawn: how many triangles it has, and its mask, which tells half of the next one's.
#[derive(Clone, Copy)]
pub(crate) struct LaidCube {
    pub(crate) count: u32,
    pub(crate) mask: Mask,
}

impl CubeAt {
    // A triangle of the cube, by link numbers of the scan, corner by corner; none where these make no triangle.
    #[inline(always)]
    fn triangle(self, t: CubeTriangle) -> Option<Triangle>
        requires { (t.0 < 12) × (t.1 < 12) × (t.2 < 12) }
        ensures { MatchOption result (Sound (numbered self.sides self.low t) → ⊥) (λ u. corners u ≡ numbered self.sides self.low t) }
    {
        let first = self.number_of(t.0);
        let second = self.number_of(t.1);
        let third = self.number_of(t.2);
        Triangle::new(first, second, third).ok()
    }

    // Puts triangles of the cube into a tray that has room for them, in order.
    fn lay<T: Tray>(self, triangles: &[CubeTriangle], tray: &mut T)
        requires layable { Layable self.sides self.low triangles.now }
        requires room { length triangles.now ≤ (T.Tray.holds tray.old).free }
        ensures { LaidIn T.Tray.holds T.Tray.keeps tray.old tray.new (map (numbered self.sides self.low) triangles.now) }
    {
        for t in triangles {
            tray.put(self.triangle(*t).unwrap()).unwrap();
        }
    }
}

// Whether all voxels of a cube are of one kind.
fn of_one_kind(mask: Mask) -> bool
    ensures { MatchBool result ((mask.0 ≡ 0) ⊎ (mask.0 ≡ 255)) ((mask.0 ≡ 0) ⊎ (mask.0 ≡ 255) → ⊥) }
{
    mask.0 == 0 || mask.0 == 255
}

impl Drawing {
    // Puts the triangles of a mask into a tray, as those of the cube, and answers how many there are; or tells that there is too
    // little room, and changes nothing. Apart from `lay_cube`, and never put into it: that a patch is made is paid for at once.
    #[inline(never)]
    fn lay_mask<T: Tray>(&self, tray: &mut T, at: CubeAt, mask: Mask) -> Result<u32, Ending>
        requires { Layable at.sides at.low (the-triangles self.now.pair (kinds mask.0)) }
        ensures { MaskLaid T.Tray.holds T.Tray.keeps at.sides at.low (the-triangles self.now.pair (kinds mask.0)) tray.old tray.new result }
    {
        let patch = triangles(mask, self.pair);
        let cube = patch.triangles();
        let free = tray.free();
        if free < cube.len() {
            return Err(Ending::Full {
                triangles: cube.len() as u32,
                free,
            });
        }
        at.lay(cube, tray);
        Ok(cube.len() as u32)
    }

    // Draws one cube whole and answers how many triangles it has; or tells why not, and changes nothing.
    pub(crate) fn lay_cube<S: Scan, T: Tray>(
        &self,
        scan: &S,
        tray: &mut T,
        at: CubeAt,
        left: Option<Mask>,
        number: u32,
    ) -> Result<LaidCube, Ending>
        requires here { (at.sides ≡ self.now.sides) × (at.low ≡ low_of self.now.sides number) }
        requires beside { Beside self.now.test (S.Scan.means scan.now) at.low left }
        ensures laid { CubeLaid T.Tray.holds T.Tray.keeps (S.Scan.means scan.now) self.now number tray.old tray.new (count_of result) }
        ensures read { IfOk result (λ c. CubeRead self.now.test (S.Scan.means scan.now) at.low (Ok c.mask)) }
    {
        let mask = at
            .mask(scan, self.test, left)
            .map_err(|lacking| Ending::Lacking {
                cube: at.low,
                fault: lacking.fault,
            })?;
        // Most cubes of a scan are of one kind, and no triangles are looked up for these.
        if of_one_kind(mask) {
            return Ok(LaidCube { count: 0, mask });
        }
        match self.lay_mask(tray, at, mask) {
            Ok(count) => Ok(LaidCube { count, mask }),
            Err(ending) => Err(ending),
        }
    }
}
