// Where a corner lies.
ghost use Rattle.std.specs.Prelude.{◌≡◌};
ghost use Rattle.corner.specs.Points.{axis_of, fraction_of};

use crate::point::Point;
use grid::Axis;

// The axis of a corner's link, with the fraction of the way from the link's lower end to its upper.
#[derive(Clone, Copy, PartialEq, Debug)]
pub enum Place {
    X(f32),
    Y(f32),
    Z(f32),
}

impl Place {
    // The place that lies this fraction of the way along a link of that axis.
    pub(crate) fn on(axis: Axis, fraction: f32) -> Place
        ensures { (axis_of result ≡ axis) × (fraction_of result ≡ fraction) }
    {
        match axis {
            Axis::X => Place::X(fraction),
            Axis::Y => Place::Y(fraction),
            Axis::Z => Place::Z(fraction),
        }
    }
}

// Where a corner lies on its link, and where in the scan.
#[derive(Clone, Copy, PartialEq, Debug)]
pub struct Corner {
    pub place: Place,
    pub point: Point,
}
