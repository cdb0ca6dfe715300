// What an open drawing is of.
ghost use Rattle.std.specs.Prelude.{◌≡◌};

use crate::drawing::Drawing;
use crate::letter::SolidTest;
use cube::Pair;
use grid::Sides;

impl Drawing {
    // The sides that the scan had when it was opened.
    pub fn sides(&self) -> Sides
        ensures { result ≡ self.now.sides }
    {
        self.sides
    }

    // The test of what is solid.
    pub fn test(&self) -> SolidTest
        ensures { result ≡ self.now.test }
    {
        self.test
    }

    // The connectedness of solid and of hollow.
    pub fn pair(&self) -> Pair
        ensures { result ≡ self.now.pair }
    {
        self.pair
    }
}
