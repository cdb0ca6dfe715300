// Where a corner lies, in micrometres.
ghost use Rattle.std.specs.Prelude.{◌<◌};
ghost use Rattle.corner.specs.Fractions.{IsProper};
ghost use Rattle.corner.specs.Points.{IsPoint, fraction_of};

use crate::coordinate::{along, at};
use crate::corner::Place;
use grid::{Axis, Voxel};
use scan::Spacing;

// A point in micrometres, from the centre of the scan's first voxel.
#[derive(Clone, Copy, PartialEq, Debug)]
pub struct Point {
    pub x: f32,
    pub y: f32,
    pub z: f32,
}

// The point at a place on the link that begins at this voxel.
pub(crate) fn point_at(spacing: Spacing, lower: Voxel, place: Place) -> Point
    requires few { (lower.x < 256) × (lower.y < 256) × (lower.z < 256) }
    requires proper { IsProper (fraction_of place) }
    ensures { IsPoint spacing lower place result }
{
    let (x, y, z) = (
        spacing.along(Axis::X),
        spacing.along(Axis::Y),
        spacing.along(Axis::Z),
    );
    let voxel = Point {
        x: at(x, lower.x),
        y: at(y, lower.y),
        z: at(z, lower.z),
    };
    match place {
        Place::X(fraction) => Point {
            x: along(x, lower.x, fraction),
            ..voxel
        },
        Place::Y(fraction) => Point {
            y: along(y, lower.y, fraction),
            ..voxel
        },
        Place::Z(fraction) => Point {
            z: along(z, lower.z, fraction),
            ..voxel
        },
    }
}
