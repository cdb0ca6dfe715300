// Why an input is not read.
ghost use Rattle.listing.specs.Refusals.{refusal_number, told_by, unread_line, unread_text};
ghost use Rattle.listing.specs.declared.unread.Unread.TheVariants.{Memory};
ghost use Rattle.std.specs.Prelude.{◌≡◌, Some};

use crate::closing_lines::refusal_line;
use std::alloc::AllocError;
use std::error::Error;
use std::fmt;

// What stands against an input, in the order in which it is looked at; memory comes last, for an input that is in form.
#[derive(Clone, Copy, PartialEq, Eq, Debug)]
pub enum Unread {
    // It is longer than 32,768 bytes.
    TooLong,
    // This line, counted from 1, is the first out of form.
    Line(u32),
    // There is no memory for the readings, or for the output.
    Memory,
}

impl From<AllocError> for Unread {
    ghost from_gives = { λ _ unread. unread ≡ Memory };

    fn from(_error: AllocError) -> Unread {
        Unread::Memory
    }
}

impl Unread {
    // The number of the refusal; want of memory is none.
    pub fn refusal(self) -> Option<u8>
        ensures { result ≡ refusal_number self }
    {
        match self {
            Unread::TooLong => Some(17),
            Unread::Line(_) => Some(18),
            Unread::Memory => None,
        }
    }

    // What the refusal tells: the line, if it is that; else zero.
    pub fn told(self) -> u32
        ensures { result ≡ told_by self }
    {
        match self {
            Unread::Line(line) => line,
            Unread::TooLong | Unread::Memory => 0,
        }
    }

    // The line of the refusal; none for want of memory, or where the number of the line told has more than eight digits.
    pub fn line(self) -> Option<[u8; 14]>
        ensures { result ≡ unread_line self }
    {
        refusal_line(self.refusal()?, self.told())
    }
}

impl fmt::Display for Unread {
    ghost output = { λ unread. Some (unread_text unread) };

    fn fmt<W: fmt::Write>(&self, f: &mut fmt::Formatter<W>) -> fmt::Result {
        match *self {
            Unread::TooLong => write!(f, "refused with 17, the input is over 32768 bytes"),
            Unread::Line(line) => write!(f, "refused with 18, line {line} is out of form"),
            Unread::Memory => write!(f, "no memory for the readings or the output"),
        }
    }
}

impl Error for Unread {}
