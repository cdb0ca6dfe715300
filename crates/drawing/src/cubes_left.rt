// The refusal to close a drawing.
ghost use Rattle.std.specs.Prelude.{◌≡◌, Some};
ghost use Rattle.drawing.specs.Closings.{close_number};
ghost use Rattle.drawing.specs.Texts.{left_text};

use crate::drawing::Drawing;
use crate::unfinished::Unfinished;
use std::fmt;

// Why a drawing is not closed: cubes are left. It hands the drawing back as it was.
#[derive(Drop)]
pub struct CubesLeft {
    pub drawing: Drawing,
}

impl CubesLeft {
    // The refusal's number; a method, since a conversion would take the drawing that the refusal holds.
    pub fn number(&self) -> u8
        ensures { result ≡ close_number self.now }
    {
        u8::from(Unfinished)
    }
}

// The refusal's number and the reason.
impl fmt::Display for CubesLeft {
    ghost output = { λ x. Some (left_text x) };

    fn fmt<W: fmt::Write>(&self, f: &mut fmt::Formatter<W>) -> fmt::Result {
        write!(f, "{}", Unfinished)
    }
}
