// A link between two neighbouring voxels.
ghost use Rattle.std.specs.Prelude.{◌≡◌, ◌+◌, ◌^◌, MatchOption};
ghost use Rattle.grid.specs.Links.{along, upper_of};

use crate::axis::Axis;
use crate::voxel::Voxel;

// Two voxels one apart along an axis, by the lower of them.
#[derive(Clone, Copy, PartialEq, Eq, Debug)]
pub struct Link {
    pub lower: Voxel,
    pub axis: Axis,
}

impl Link {
    // The voxel at the upper end; none if its coordinate passes the largest number.
    pub fn upper(self) -> Option<Voxel>
        ensures { MatchOption result (along self.axis self.lower + 1 ≡ 2 ^ 32) (λ v. v ≡ upper_of self) }
    {
        let Voxel { x, y, z } = self.lower;
        let step = |axis| u32::from(self.axis == axis);
        Some(Voxel {
            x: x.checked_add(step(Axis::X))?,
            y: y.checked_add(step(Axis::Y))?,
            z: z.checked_add(step(Axis::Z))?,
        })
    }
}
