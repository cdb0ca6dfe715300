// The mask of a cube: which of its eight voxels are solid.
ghost use Rattle.std.specs.Prelude.{◌≡◌, ◌<◌, ◌≤◌, false};
ghost use Rattle.cube.specs.Cube.{kinds, kinds_in, exchange, solid, crossing};

use crate::links::ends;

// Bit i is set where voxel i is solid; voxel dx + 2 dy + 4 dz lies dx, dy, dz from the cube's low voxel. Contracts speak
// both of the number and of its `kinds`, and so name the one that they mean.
#[derive(Clone, Copy, PartialEq, Eq, Debug)]
pub struct Mask(pub u8);

impl Mask {
    // The mask of eight voxels, true where solid.
    pub fn of(voxels: [bool; 8]) -> Mask
        ensures { kinds result.0 ≡ kinds_in voxels }
    {
        let bits = voxels
            .iter()
            .rev()
            .fold(0, |bits, solid| bits << 1 | u8::from(*solid));
        Mask(bits)
    }

    // Whether a voxel is solid; false past the eighth.
    pub fn is_solid(self, voxel: u8) -> bool
        ensures { result ≡ solid (kinds self.0) voxel }
    {
        voxel < 8 && (self.0 >> voxel) % 2 == 1
    }

    // The mask with solid and hollow exchanged.
    pub fn exchanged(self) -> Mask
        ensures { kinds result.0 ≡ exchange (kinds self.0) }
    {
        Mask(255 - self.0)
    }

    // Whether a cube link joins a solid and a hollow voxel; false past the twelfth.
    pub fn carries_corner(self, link: u8) -> bool
        ensures { (link < 12 → result ≡ crossing (kinds self.0) link) × (12 ≤ link → result ≡ false) }
    {
        ends(link).is_some_and(|(lower, upper)| self.is_solid(lower) != self.is_solid(upper))
    }
}
