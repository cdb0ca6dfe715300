// A box of one value, as phantoms are painted with.
ghost use Rattle.std.specs.Prelude.{◌≡◌, MatchBool};
ghost use Rattle.scan.specs.Phantoms.{CornerFits, Covers, ShapeFits};

use grid::Voxel;

// A box between two corners, both included, and the reading that it gives. One whose low corner lies above
// its high corner holds nothing.
#[derive(Clone, Copy)]
pub struct Shape {
    pub low: Voxel,
    pub high: Voxel,
    pub value: u32,
}

impl Shape {
    // The box between two corners, and the reading that it gives.
    pub fn new(low: Voxel, high: Voxel, value: u32) -> Shape
        ensures { (result.low ≡ low) × (result.high ≡ high) × (result.value ≡ value) }
    {
        Shape { low, high, value }
    }

    // Whether the voxel lies in the box. By axis.
    pub fn covers(self, v: Voxel) -> bool
        ensures { MatchBool result (Covers self v) (Covers self v → ⊥) }
    {
        (self.low.x..=self.high.x).contains(&v.x)
            && (self.low.y..=self.high.y).contains(&v.y)
            && (self.low.z..=self.high.z).contains(&v.z)
    }

    // Whether a phantom may have the shape: a value of at most 65,534, the largest reading, and coordinates of at most 255,
    // the last of the largest scan. The rules state both in these numbers.
    pub fn fits(self) -> bool
        ensures { MatchBool result (ShapeFits self) (ShapeFits self → ⊥) }
    {
        self.value <= 65_534 && corner_fits(self.low) && corner_fits(self.high)
    }
}

// Whether a shape may have that corner. By axis.
fn corner_fits(v: Voxel) -> bool
    ensures { MatchBool result (CornerFits v) (CornerFits v → ⊥) }
{
    v.x <= 255 && v.y <= 255 && v.z <= 255
}
