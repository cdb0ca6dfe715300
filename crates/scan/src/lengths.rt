// Three lengths as a caller gives them.
ghost use Rattle.std.specs.Prelude.{◌≡◌, [], ◌∷◌};
ghost use Rattle.scan.specs.Making.{GivesSides};

use crate::refusal::Refusal;
use grid::Sides;

// A length along each axis, in any range: sides or a spacing that are yet to be looked at. Three numbers as a
// voxel is, but no place: one type for both would let the one pass for the other.
#[derive(Clone, Copy)]
pub struct Lengths {
    pub x: u32,
    pub y: u32,
    pub z: u32,
}

// The lengths along x, y and z.
impl From<[u32; 3]> for Lengths {
    ghost from_gives = { λ lengths l. lengths ≡ l.x ∷ l.y ∷ l.z ∷ [] };

    fn from(lengths: [u32; 3]) -> Lengths {
        let [x, y, z] = lengths;
        Lengths { x, y, z }
    }
}

// The sides of these lengths; refused over the size if one of them is outside 1 to 256.
impl TryFrom<Lengths> for Sides {
    type Error = Refusal;

    ghost try_from_gives = { GivesSides };

    fn try_from(lengths: Lengths) -> Result<Sides, Refusal> {
        let Lengths { x, y, z } = lengths;
        Sides::new(x, y, z).ok_or(Refusal::Size)
    }
}
