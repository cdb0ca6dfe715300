// Why a drawing stays open.
ghost use Rattle.std.specs.Prelude.{◌≡◌, Some};
ghost use Rattle.drawing.specs.Closings.{unfinished_number};
ghost use Rattle.drawing.specs.Texts.{unfinished_text};

use std::error::Error;
use std::fmt;

// Cubes are left.
#[derive(Clone, Copy, PartialEq, Eq, Debug)]
pub struct Unfinished;

// The refusal's number.
impl From<Unfinished> for u8 {
    ghost from_gives = { λ refusal n. n ≡ unfinished_number refusal };

    fn from(_refusal: Unfinished) -> u8 {
        13
    }
}

// The refusal's number and the reason.
impl fmt::Display for Unfinished {
    ghost output = { λ x. Some (unfinished_text x) };

    fn fmt<W: fmt::Write>(&self, f: &mut fmt::Formatter<W>) -> fmt::Result {
        write!(f, "refused with {}, cubes are left", u8::from(*self))
    }
}

impl Error for Unfinished {}
