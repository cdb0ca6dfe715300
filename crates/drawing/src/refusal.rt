// Why a drawing is not opened.
ghost use Rattle.std.specs.Prelude.{◌≡◌, Some};
ghost use Rattle.drawing.specs.Opening.{number};
ghost use Rattle.drawing.specs.Texts.{open_text};
ghost use Rattle.drawing.specs.declared.refusal.OpenRefusal.TheVariants.{Lacking, NoPair};

use grid::Voxel;
use scan::Fault;
use std::error::Error;
use std::fmt;

// What stands against opening, in the order in which it is looked at.
#[derive(Clone, Copy, PartialEq, Eq, Debug)]
pub enum OpenRefusal {
    // A side is 1.
    ThinSide,
    // The threshold is 0.
    ZeroThreshold,
    // The two numbers are those of none of the four pairs.
    NoPair,
    // This voxel on the border lacks a reading; no lower one on the border does. Its two values by name, as in the other cases.
    Lacking { voxel: Voxel, fault: Fault },
    // This voxel on the border is unlike voxel 0; no lower one on the border is.
    Mixed { voxel: Voxel },
}

// Two numbers are those of no pair.
impl From<cube::NoPair> for OpenRefusal {
    ghost from_gives = { λ _ refusal. refusal ≡ NoPair };

    fn from(_numbers: cube::NoPair) -> OpenRefusal {
        OpenRefusal::NoPair
    }
}

// A voxel on the border lacks a reading.
impl From<scan::Lacking> for OpenRefusal {
    ghost from_gives = { λ lacking refusal. refusal ≡ Lacking lacking.voxel lacking.fault };

    fn from(lacking: scan::Lacking) -> OpenRefusal {
        let scan::Lacking { voxel, fault } = lacking;
        OpenRefusal::Lacking { voxel, fault }
    }
}

// The refusal's number.
impl From<OpenRefusal> for u8 {
    ghost from_gives = { λ refusal n. n ≡ number refusal };

    fn from(refusal: OpenRefusal) -> u8 {
        match refusal {
            OpenRefusal::ThinSide => 4,
            OpenRefusal::ZeroThreshold => 5,
            OpenRefusal::NoPair => 6,
            OpenRefusal::Lacking { .. } => 7,
            OpenRefusal::Mixed { .. } => 8,
        }
    }
}

// The refusal's number, the reason, and the voxel that it tells.
impl fmt::Display for OpenRefusal {
    ghost output = { λ x. Some (open_text x) };

    fn fmt<W: fmt::Write>(&self, f: &mut fmt::Formatter<W>) -> fmt::Result {
        let number = u8::from(*self);
        match self {
            OpenRefusal::ThinSide => write!(f, "refused with {number}, a side is 1"),
            OpenRefusal::ZeroThreshold => write!(f, "refused with {number}, the threshold is 0"),
            OpenRefusal::NoPair => write!(f, "refused with {number}, no pair has these numbers"),
            OpenRefusal::Lacking { voxel, .. } => {
                write!(f, "refused with {number}, no reading at {voxel}")
            }
            OpenRefusal::Mixed { voxel } => {
                write!(
                    f,
                    "refused with {number}, the border changes kind at {voxel}"
                )
            }
        }
    }
}

impl Error for OpenRefusal {}
