// What a list of shapes reads at a voxel.
ghost use Rattle.std.specs.Prelude.{◌≡◌};
ghost use Rattle.scan.specs.Phantoms.{phantom_reads, shapes_fit};

use crate::shape::Shape;
use grid::Voxel;

// The most shapes that a phantom has.
const MOST_SHAPES: usize = 64;

// Whether a phantom may have these shapes: not too many, and each in range.
pub(crate) fn all_fit(shapes: &[Shape]) -> bool
    ensures { result ≡ shapes_fit shapes.now }
{
    shapes.len() <= MOST_SHAPES && shapes.iter().all(|shape| shape.fits())
}

// The value of the first shape that covers the voxel, or 0.
pub(crate) fn reading(shapes: &[Shape], place: Voxel) -> u32
    ensures { result ≡ phantom_reads shapes.now place }
{
    let first = shapes.iter().find(|shape| shape.covers(place));
    first.map_or(0, |shape| shape.value)
}
