// The three axes of a scan.
ghost use Rattle.std.specs.Prelude.{◌≡◌, Some};
ghost use Rattle.grid.specs.Links.{NamesAxis, axis_number};
ghost use Rattle.grid.specs.Texts.{no_axis_text};

use std::error::Error;
use std::fmt;

// A direction in which voxels lie one after the other.
#[derive(Clone, Copy, PartialEq, Eq, Debug)]
pub enum Axis {
    X,
    Y,
    Z,
}

// The axis's number: x has 0, y has 1 and z has 2.
impl From<Axis> for u32 {
    ghost from_gives = { λ axis n. n ≡ axis_number axis };

    fn from(axis: Axis) -> u32 {
        match axis {
            Axis::X => 0,
            Axis::Y => 1,
            Axis::Z => 2,
        }
    }
}

// A number that no axis has.
#[derive(Clone, Copy, PartialEq, Eq, Debug)]
pub struct NoAxis(pub u32);

// The axis with that number; an error from 3 on.
impl TryFrom<u32> for Axis {
    type Error = NoAxis;

    ghost try_from_gives = { NamesAxis };

    fn try_from(number: u32) -> Result<Axis, NoAxis> {
        match number {
            0 => Ok(Axis::X),
            1 => Ok(Axis::Y),
            2 => Ok(Axis::Z),
            _ => Err(NoAxis(number)),
        }
    }
}

impl fmt::Display for NoAxis {
    ghost output = { λ e. Some (no_axis_text e) };

    fn fmt<W: fmt::Write>(&self, f: &mut fmt::Formatter<W>) -> fmt::Result {
        write!(f, "no axis has the number {}", self.0)
    }
}

impl Error for NoAxis {}
