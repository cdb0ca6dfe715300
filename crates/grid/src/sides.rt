// How many voxels a scan has along each axis.
ghost use Rattle.std.specs.Prelude.{◌≡◌, ◌-◌, MatchOption, Some};
ghost use Rattle.grid.specs.Numbers.{Side};

use crate::extent::Extent;
use std::fmt;

// The sides of a scan, each of 1 to 256 voxels.
#[derive(Clone, Copy, PartialEq, Eq, Debug)]
pub struct Sides {
    pub(crate) x: u32,
    pub(crate) y: u32,
    pub(crate) z: u32,
    ghost fits: { Side x × Side y × Side z },
}

impl Sides {
    // The sides x, y and z, or none if one of them is outside 1 to 256. With `if`: sides can be made only where all are inside.
    pub fn new(x: u32, y: u32, z: u32) -> Option<Sides>
        ensures { MatchOption result (Side x × Side y × Side z → ⊥) (λ s. (s.x ≡ x) × (s.y ≡ y) × (s.z ≡ z)) }
    {
        let range = 1..=256;
        if range.contains(&x) && range.contains(&y) && range.contains(&z) {
            Some(Sides { x, y, z })
        } else {
            None
        }
    }

    // How many voxels lie along x. Three calls by name: with the axis to be named, each use would write it and match it.
    pub fn x(self) -> u32
        ensures { (result ≡ self.x) × Side result }
    {
        self.x
    }

    // How many voxels lie along y.
    pub fn y(self) -> u32
        ensures { (result ≡ self.y) × Side result }
    {
        self.y
    }

    // How many voxels lie along z.
    pub fn z(self) -> u32
        ensures { (result ≡ self.z) × Side result }
    {
        self.z
    }

    // The box of the scan's voxels.
    pub(crate) fn voxels(self) -> Extent
        ensures { (result.x ≡ self.x) × (result.y ≡ self.y) × (result.z ≡ self.z) }
    {
        Extent {
            x: self.x,
            y: self.y,
            z: self.z,
        }
    }

    // The box of the scan's cubes, one fewer than its voxels along each axis: the two boxes by name, and not by that number.
    pub(crate) fn cubes(self) -> Extent
        ensures { (result.x ≡ self.x - 1) × (result.y ≡ self.y - 1) × (result.z ≡ self.z - 1) }
    {
        Extent {
            x: self.x - 1,
            y: self.y - 1,
            z: self.z - 1,
        }
    }
}

// The three lengths, as in 3 x 4 x 5.
impl fmt::Display for Sides {
    ghost use Rattle.grid.specs.Texts.{sides_text};

    ghost output = { λ s. Some (sides_text s) };

    fn fmt<W: fmt::Write>(&self, f: &mut fmt::Formatter<W>) -> fmt::Result {
        write!(f, "{} x {} x {}", self.x, self.y, self.z)
    }
}
