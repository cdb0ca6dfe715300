// Which readings are solid.
ghost use Rattle.std.specs.Prelude.{◌≡◌, Some};
ghost use Rattle.drawing.specs.Solids.{is_solid, exchanged};
ghost use Rattle.drawing.specs.Texts.{letter_text};

use std::fmt;

// H calls readings solid from the threshold upward, L those below it.
#[derive(Clone, Copy, PartialEq, Eq, Debug)]
pub enum Letter {
    H,
    L,
}

impl fmt::Display for Letter {
    ghost output = { λ x. Some (letter_text x) };

    fn fmt<W: fmt::Write>(&self, f: &mut fmt::Formatter<W>) -> fmt::Result {
        f.write_str(match self {
            Letter::H => "H",
            Letter::L => "L",
        })
    }
}

// The test of what is solid: a threshold and a letter.
#[derive(Clone, Copy, PartialEq, Eq, Debug)]
pub struct SolidTest {
    pub threshold: u16,
    pub letter: Letter,
}

impl SolidTest {
    // Whether a voxel with that reading is solid; else it is hollow. By the letter: two comparisons, each said by the rules.
    pub fn is_solid(self, reading: u16) -> bool
        ensures { result ≡ is_solid self reading }
    {
        match self.letter {
            Letter::H => reading >= self.threshold,
            Letter::L => reading < self.threshold,
        }
    }

    // The test with the other letter at the same threshold.
    pub fn exchanged(self) -> SolidTest
        ensures { result ≡ exchanged self }
    {
        let letter = match self.letter {
            Letter::H => Letter::L,
            Letter::L => Letter::H,
        };
        SolidTest { letter, ..self }
    }
}
