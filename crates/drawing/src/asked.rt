// What is asked of an opening.
ghost use Rattle.std.specs.Prelude.{Some};
ghost use Rattle.drawing.specs.Opening.{GivesPair};
ghost use Rattle.drawing.specs.Texts.{asked_text};

use crate::letter::SolidTest;
use crate::refusal::OpenRefusal;
use cube::Pair;
use grid::Sides;
use std::fmt;

// The test of what is solid, and the two numbers of a pair, that of solid first; they may be those of no pair.
#[derive(Clone, Copy, PartialEq, Eq, Debug)]
pub struct Asked {
    pub test: SolidTest,
    pub s: u16,
    pub h: u16,
}

impl Asked {
    // The pair that is asked for, for a scan with these sides, whatever its readings are; refused over the first of these that
    // applies: a side of 1, a threshold of 0, two numbers of no pair.
    pub fn pair(self, sides: Sides) -> Result<Pair, OpenRefusal>
        ensures { GivesPair sides self result }
    {
        // By axis: the sides are three named lengths.
        if sides.x() == 1 || sides.y() == 1 || sides.z() == 1 {
            return Err(OpenRefusal::ThinSide);
        }
        if self.test.threshold == 0 {
            return Err(OpenRefusal::ZeroThreshold);
        }
        Ok(Pair::try_from((self.s, self.h))?)
    }
}

impl fmt::Display for Asked {
    ghost output = { λ x. Some (asked_text x) };

    fn fmt<W: fmt::Write>(&self, f: &mut fmt::Formatter<W>) -> fmt::Result {
        let SolidTest { threshold, letter } = self.test;
        write!(
            f,
            "threshold {threshold}, {letter}, ({},{})",
            self.s, self.h
        )
    }
}
