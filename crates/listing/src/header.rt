// The header of an input: what its first line writes.
ghost use Rattle.std.specs.Prelude.{◌≡◌, ◌≤◌, IfSome};
ghost use Rattle.listing.specs.Cutting.{pieces};
ghost use Rattle.listing.specs.Fields.{header_of, letter_named};
ghost use Rattle.listing.specs.Lines.{header_of_line};

use crate::line::Line;
use crate::pieces::Pieces;
use drawing::{Asked, Letter, SolidTest};

// The letter of this character; none for another.
pub(crate) fn letter_named(letter: char) -> Option<Letter>
    ensures { result ≡ letter_named letter }
{
    match letter {
        'H' => Some(Letter::H),
        'L' => Some(Letter::L),
        _ => None,
    }
}

// The sides of a scan, and what is asked of its opening.
#[derive(Clone, Copy, PartialEq, Eq, Debug)]
pub struct Header {
    pub nx: u32,
    pub ny: u32,
    pub nz: u32,
    pub asked: Asked,
}

// The header that a line writes; none where it is no header line.
#[tactic(auto, unfolding(crate::specs::Lines::header_of_line))]
pub(crate) fn header_of_line(line: &[u8]) -> Option<Header>
    ensures read { result ≡ header_of_line line.now }
    ensures sides { IfSome result (λ h. (h.ny ≤ 256) × (h.nz ≤ 256)) }
{
    match Line::of(line)? {
        Line::Header { rest, .. } => header_of_fields(rest),
        Line::Row { .. } => None,
    }
}

// The header that fields parted by commas write.
#[tactic(auto, unfolding(crate::specs::Fields::header_of))]
fn header_of_fields(rest: &[u8]) -> Option<Header>
    ensures read { result ≡ header_of (pieces 44 rest.now) }
    ensures sides { IfSome result (λ h. (h.ny ≤ 256) × (h.nz ≤ 256)) }
{
    let mut fields = Pieces::new(rest, b',');
    let header = Header {
        nx: fields.side()?,
        ny: fields.side()?,
        nz: fields.side()?,
        asked: Asked {
            test: SolidTest {
                threshold: fields.number()?,
                letter: fields.letter()?,
            },
            s: fields.number()?,
            h: fields.number()?,
        },
    };
    match fields.next() {
        None => Some(header),
        Some(_) => None,
    }
}
