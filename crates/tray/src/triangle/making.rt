// Making a triangle, asking for its corners, and the refusal.
ghost use Rattle.std.specs.Prelude.{◌≡◌, MatchResult, Some};
ghost use Rattle.tray.specs.Corners.{Corners};
ghost use Rattle.tray.specs.Refusals.{refusal_number, refused_text};

use crate::triangle::Triangle;
use std::error::Error;
use std::fmt;

// A link number is below this: the bound of links in the largest scan, written here since trays stand on no other crate.
const LINKS: u32 = 50_331_648;

// Why no triangle was made of three numbers: one case, since one refusal stands for both.
#[derive(Clone, Copy, PartialEq, Eq, Debug)]
pub enum TriangleRefusal {
    // Two of the numbers are equal, or one is 50,331,648 or more.
    EqualOrTooLarge,
}

// The number by which a refusal is told.
impl From<TriangleRefusal> for u8 {
    ghost from_gives = { λ refusal number. number ≡ refusal_number refusal };

    fn from(refusal: TriangleRefusal) -> u8 {
        match refusal {
            TriangleRefusal::EqualOrTooLarge => 19,
        }
    }
}

impl fmt::Display for TriangleRefusal {
    ghost output = { λ refusal. Some (refused_text refusal) };

    fn fmt<W: fmt::Write>(&self, f: &mut fmt::Formatter<W>) -> fmt::Result {
        write!(f, "refused with {}", u8::from(*self))
    }
}

impl Error for TriangleRefusal {}

impl Triangle {
    // The triangle with these corners in this order; refused where two are equal or one is too large.
    pub fn new(first: u32, second: u32, third: u32) -> Result<Triangle, TriangleRefusal>
        ensures { MatchResult result (λ t. (t.first ≡ first) × (t.second ≡ second) × (t.third ≡ third)) (λ _. Corners first second third → ⊥) }
    {
        if first >= LINKS || second >= LINKS || third >= LINKS {
            return Err(TriangleRefusal::EqualOrTooLarge);
        }
        if first == second || second == third || third == first {
            return Err(TriangleRefusal::EqualOrTooLarge);
        }
        Ok(Triangle {
            first,
            second,
            third,
        })
    }

    // The link of its first corner. Three calls by name: a list of three would be made for one of them.
    pub fn first(&self) -> u32
        ensures value { result ≡ self.now.first }
    {
        self.first
    }

    // The link of its second corner.
    pub fn second(&self) -> u32
        ensures value { result ≡ self.now.second }
    {
        self.second
    }

    // The link of its third corner.
    pub fn third(&self) -> u32
        ensures value { result ≡ self.now.third }
    {
        self.third
    }
}
