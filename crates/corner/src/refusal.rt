// Why a corner has no place.
ghost use Rattle.std.specs.Prelude.{◌≡◌, Some};
ghost use Rattle.corner.specs.Placing.{number};
ghost use Rattle.corner.specs.Texts.{place_text};

use std::error::Error;
use std::fmt;

// What stands against placing, in the order in which it is looked at.
#[derive(Clone, Copy, PartialEq, Eq, Debug)]
pub enum PlaceRefusal {
    // The scan has other sides than it had when it was opened.
    OtherSides,
    // No link of the scan has that number.
    NoLink,
    // An end of the link lacks a reading.
    Lacking,
    // Both ends of the link are solid, or both are hollow.
    OneKind,
}

// The refusal's number.
impl From<PlaceRefusal> for u8 {
    ghost from_gives = { λ refusal n. n ≡ number refusal };

    fn from(refusal: PlaceRefusal) -> u8 {
        match refusal {
            PlaceRefusal::OtherSides => 9,
            PlaceRefusal::NoLink => 14,
            PlaceRefusal::Lacking => 15,
            PlaceRefusal::OneKind => 16,
        }
    }
}

// The refusal's number and the reason.
impl fmt::Display for PlaceRefusal {
    ghost output = { λ refusal. Some (place_text refusal) };

    fn fmt<W: fmt::Write>(&self, f: &mut fmt::Formatter<W>) -> fmt::Result {
        let number = u8::from(*self);
        match self {
            PlaceRefusal::OtherSides => write!(
                f,
                "refused with {number}, the scan has other sides"
            ),
            PlaceRefusal::NoLink => write!(f, "refused with {number}, no link has this number"),
            PlaceRefusal::Lacking => write!(f, "refused with {number}, an end lacks a reading"),
            PlaceRefusal::OneKind => {
                write!(f, "refused with {number}, both ends are of one kind")
            }
        }
    }
}

impl Error for PlaceRefusal {}
