// Why a scan is not made.
ghost use Rattle.std.specs.Prelude.{◌≡◌, Some};
ghost use Rattle.scan.specs.Making.{number};
ghost use Rattle.scan.specs.Texts.{refusal_text};

use std::error::Error;
use std::fmt;

// What stands against making a block or a phantom, in the order in which it is looked at.
#[derive(Clone, Copy, PartialEq, Eq, Debug)]
pub enum Refusal {
    // A side is outside 1 to 256, or a block's list is not as long as it has voxels.
    Size,
    // A spacing is outside 1 to 10,000.
    Spacing,
    // There are over 64 shapes, or one is out of range.
    Shapes,
}

// The refusal's number.
impl From<Refusal> for u8 {
    ghost from_gives = { λ refusal n. n ≡ number refusal };

    fn from(refusal: Refusal) -> u8 {
        match refusal {
            Refusal::Size => 1,
            Refusal::Spacing => 2,
            Refusal::Shapes => 3,
        }
    }
}

// The refusal by its number, as in refused with 1.
impl fmt::Display for Refusal {
    ghost output = { λ refusal. Some (refusal_text refusal) };

    fn fmt<W: fmt::Write>(&self, f: &mut fmt::Formatter<W>) -> fmt::Result {
        write!(f, "refused with {}", u8::from(*self))
    }
}

impl Error for Refusal {}
