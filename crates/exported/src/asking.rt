// What a caller asks.
ghost use Rattle.std.specs.Prelude.{◌≡◌, MatchResult};
ghost use Rattle.exported.specs.Askings.{Refused, WellAsked, asked_of, sides_of};

use crate::refusal::Refusal;
use drawing::{Asked, Letter, SolidTest};
use grid::Sides;
use scan::Lengths;

// The sides, the budget of each draw, the threshold, the two numbers of a pair, and whether the letter is L.
#[repr(C)]
#[derive(Clone, Copy)]
pub struct Asking {
    pub x: u32,
    pub y: u32,
    pub z: u32,
    pub budget: u32,
    pub threshold: u16,
    pub s: u16,
    pub h: u16,
    pub below: bool,
}

impl Asking {
    // The sides that are asked for.
    pub(crate) fn sides(&self) -> Lengths
        ensures { result ≡ sides_of self.now }
    {
        Lengths {
            x: self.x,
            y: self.y,
            z: self.z,
        }
    }

    // What is asked of the opening.
    pub(crate) fn opening(&self) -> Asked
        ensures { result ≡ asked_of self.now }
    {
        let letter = if self.below { Letter::L } else { Letter::H };
        Asked {
            test: SolidTest {
                threshold: self.threshold,
                letter,
            },
            s: self.s,
            h: self.h,
        }
    }

    // Decides all that needs no memory; refused, the first that applies, where the readings make no block, over a side of 1, the
    // threshold and the pair.
    pub(crate) fn check(&self, readings: &[u16]) -> Result<(), Refusal>
        ensures { MatchResult result (λ _. WellAsked self.now readings.now) (λ e. Refused self.now readings.now e × (WellAsked self.now readings.now → ⊥)) }
    {
        let sides = Sides::try_from(self.sides())?;
        if readings.len() != sides.voxel_count() as usize {
            return Err(scan::Refusal::Size.into());
        }
        self.opening().pair(sides)?;
        Ok(())
    }
}
