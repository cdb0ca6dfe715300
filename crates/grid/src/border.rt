// The voxels on the border of a scan, one after the other.
ghost use Rattle.std.specs.Prelude.{MatchOption};
ghost use Rattle.grid.specs.Borders.{FirstOnBorder, LastOnBorder, NextOnBorder, NoneOnBorder};
ghost use Rattle.grid.specs.Voxels.{OnBorder};

use crate::sides::Sides;
use crate::voxel::Voxel;
use crate::voxels::ends;

impl Sides {
    // The answer at the voxel of the border, a coordinate 0 or the last, with the lowest number that has one; none
    // if no voxel of the border has one.
    pub fn first_on_border<T, F: Fn(Voxel) -> Option<T>>(self, answer: F) -> Option<T>
        requires { F.IsAlwaysCallable answer }
        ensures { MatchOption result (NoneOnBorder self (F.post answer)) (FirstOnBorder self (F.post answer)) }
    {
        let mut next = Some(Voxel { x: 0, y: 0, z: 0 });
        while let Some(voxel) = next {
            if let Some(found) = answer(voxel) {
                return Some(found);
            }
            next = self.next_on_border(voxel);
        }
        None
    }

    // The voxel of the border that comes next by number; none after the last. A row that has its two ends alone on the border
    // is passed over in one step, and nothing is divided: most voxels of a large scan lie inside, and this is asked of the others.
    fn next_on_border(self, v: Voxel) -> Option<Voxel>
        requires { OnBorder self v }
        ensures { MatchOption result (LastOnBorder self v) (NextOnBorder self v) }
    {
        let Voxel { x, y, z } = v;
        if x + 1 < self.x {
            if ends(y, self.y) || ends(z, self.z) {
                Some(Voxel { x: x + 1, y, z })
            } else {
                Some(Voxel {
                    x: self.x - 1,
                    y,
                    z,
                })
            }
        } else if y + 1 < self.y {
            Some(Voxel { x: 0, y: y + 1, z })
        } else if z + 1 < self.z {
            Some(Voxel {
                x: 0,
                y: 0,
                z: z + 1,
            })
        } else {
            None
        }
    }
}
