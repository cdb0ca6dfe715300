// A place on the grid.
ghost use Rattle.std.specs.Prelude.{◌≡◌, Some, [], ◌∷◌};
ghost use Rattle.grid.specs.Texts.{voxel_text};

use std::fmt;

// A place by its three coordinates, which may lie outside any scan. They are named, and what is asked of each is written
// for each, here and in the crates above: a list of three would be made for a question and taken apart again.
#[derive(Clone, Copy, PartialEq, Eq, Debug)]
pub struct Voxel {
    pub x: u32,
    pub y: u32,
    pub z: u32,
}

// The place with these coordinates.
impl From<[u32; 3]> for Voxel {
    ghost from_gives = { λ c v. c ≡ v.x ∷ v.y ∷ v.z ∷ [] };

    fn from(coordinates: [u32; 3]) -> Voxel {
        let [x, y, z] = coordinates;
        Voxel { x, y, z }
    }
}

// The three coordinates, as in (1,2,3).
impl fmt::Display for Voxel {
    ghost output = { λ v. Some (voxel_text v) };

    fn fmt<W: fmt::Write>(&self, f: &mut fmt::Formatter<W>) -> fmt::Result {
        write!(f, "({},{},{})", self.x, self.y, self.z)
    }
}
