// What a draw answers, and why it is refused.
ghost use Rattle.std.specs.Prelude.{◌≡◌, Some};
ghost use Rattle.drawing.specs.Endings.{draw_number, ending_number};
ghost use Rattle.drawing.specs.Texts.{draw_text, ending_text, progress_text};

use grid::Voxel;
use scan::Fault;
use std::error::Error;
use std::fmt;

// The numbers of the two endings that stop a draw before its budget.
const LACKING: u8 = 11;

const FULL: u8 = 12;

// How a draw ended.
#[derive(Clone, Copy, PartialEq, Eq, Debug)]
pub enum Ending {
    // No cube is left.
    Done,
    // The budget is used up, and cubes are left.
    Budget,
    // The next cube, told by its low voxel, lacks a reading; the fault is that of the first of its voxels that does.
    Lacking { cube: Voxel, fault: Fault },
    // The next cube has more triangles than the tray has free places.
    Full { triangles: u32, free: usize },
}

impl Ending {
    // The number by which an ending is told that stopped the draw before its budget; none for the other two, so that it is
    // no conversion.
    pub fn number(self) -> Option<u8>
        ensures { result ≡ ending_number self }
    {
        match self {
            Ending::Done => None,
            Ending::Budget => None,
            Ending::Lacking { .. } => Some(LACKING),
            Ending::Full { .. } => Some(FULL),
        }
    }
}

// The number, if it has one, and the reason.
impl fmt::Display for Ending {
    ghost output = { λ x. Some (ending_text x) };

    fn fmt<W: fmt::Write>(&self, f: &mut fmt::Formatter<W>) -> fmt::Result {
        match self {
            Ending::Done => write!(f, "done"),
            Ending::Budget => write!(f, "the budget is used up"),
            Ending::Lacking { cube, .. } => {
                write!(
                    f,
                    "stopped with {LACKING}, no reading in the cube at {cube}"
                )
            }
            Ending::Full { triangles, free } => write!(
                f,
                "stopped with {FULL}, the next cube has {triangles} triangles, free places: {free}"
            ),
        }
    }
}

// What one draw did: the cubes drawn and the triangles laid by it, the cubes left, and how it ended.
#[derive(Clone, Copy, PartialEq, Eq, Debug)]
pub struct Progress {
    pub drawn: u32,
    pub laid: u32,
    pub left: u32,
    pub ending: Ending,
}

impl fmt::Display for Progress {
    ghost output = { λ x. Some (progress_text x) };

    fn fmt<W: fmt::Write>(&self, f: &mut fmt::Formatter<W>) -> fmt::Result {
        let Progress {
            drawn,
            laid,
            left,
            ending,
        } = self;
        write!(f, "{drawn} cubes, {laid} triangles, {left} left, {ending}")
    }
}

// What stands against a draw, in the order in which it is looked at.
#[derive(Clone, Copy, PartialEq, Eq, Debug)]
pub enum DrawRefusal {
    // The scan has other sides than it had when it was opened.
    OtherSides,
    // The budget is 0.
    ZeroBudget,
}

// The refusal's number.
impl From<DrawRefusal> for u8 {
    ghost from_gives = { λ refusal n. n ≡ draw_number refusal };

    fn from(refusal: DrawRefusal) -> u8 {
        match refusal {
            DrawRefusal::OtherSides => 9,
            DrawRefusal::ZeroBudget => 10,
        }
    }
}

// The refusal's number and the reason.
impl fmt::Display for DrawRefusal {
    ghost output = { λ x. Some (draw_text x) };

    fn fmt<W: fmt::Write>(&self, f: &mut fmt::Formatter<W>) -> fmt::Result {
        let reason = match self {
            DrawRefusal::OtherSides => "it has other sides",
            DrawRefusal::ZeroBudget => "the budget is 0",
        };
        write!(f, "refused with {}, {reason}", u8::from(*self))
    }
}

impl Error for DrawRefusal {}
