// How far apart the voxels of a scan lie.
ghost use Rattle.std.specs.Prelude.{◌≡◌};
ghost use Rattle.scan.specs.Making.{Step, per_axis};

use crate::lengths::Lengths;
use crate::refusal::Refusal;
use grid::Axis;

// The way from one voxel to the next along each axis, 1 to 10,000 whole micrometres. Apart from sides, though both
// are three bounded numbers: all that they share is that test. Sides count voxels, links and cubes; a spacing is asked along
// an axis.
#[derive(Clone, Copy, PartialEq, Eq, Debug)]
pub struct Spacing {
    x: u32,
    y: u32,
    z: u32,
    ghost fits: { Step x × Step y × Step z },
}

// The spacing of these lengths; refused over the spacing if one of them is outside 1 to 10,000.
impl TryFrom<Lengths> for Spacing {
    ghost use Rattle.scan.specs.Spacings.{GivesSpacing};

    type Error = Refusal;

    ghost try_from_gives = { GivesSpacing };

    fn try_from(lengths: Lengths) -> Result<Spacing, Refusal> {
        let Lengths { x, y, z } = lengths;
        let range = 1..=10_000;
        if range.contains(&x) && range.contains(&y) && range.contains(&z) {
            Ok(Spacing { x, y, z })
        } else {
            Err(Refusal::Spacing)
        }
    }
}

impl Spacing {
    // Micrometres from voxel to voxel along the axis.
    pub fn along(self, axis: Axis) -> u32
        ensures { (result ≡ per_axis axis self.x self.y self.z) × Step result }
    {
        match axis {
            Axis::X => self.x,
            Axis::Y => self.y,
            Axis::Z => self.z,
        }
    }
}
