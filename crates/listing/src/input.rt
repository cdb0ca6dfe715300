// The input of the program, read whole.
ghost use Rattle.std.specs.Prelude.{◌≡◌, MatchResult, Ok};
ghost use Rattle.listing.specs.Inputs.{Accepted, OneAnswer, Refused};
ghost use Rattle.listing.specs.Lines.{LineTold, input_of};

use crate::header::{Header, header_of_line};
use crate::pieces::Pieces;
use crate::rows::read_rows;
use crate::unread::Unread;
use std::alloc::Global;

// What an input says.
#[derive(Drop, Debug)]
pub struct Input {
    pub header: Header,
    pub readings: Vec<u16>,
}

// The most bytes that an input may have.
pub(crate) const LIMIT: usize = 32_768;

// The number of the first line.
const FIRST: u32 = 1;

// Reads an input; refused where it is too long, else over its first line out of form, and last over memory.
pub fn read(heap: Global, bytes: &[u8]) -> Result<Input, Unread>
    ensures told { MatchResult result (λ x. Accepted bytes.now x.header x.readings.items) (Refused bytes.now) }
    ensures once { OneAnswer bytes.now }
{
    if bytes.len() > LIMIT {
        return Err(Unread::TooLong);
    }
    read_lines(heap, bytes)
}

// Reads the lines of an input of any length.
#[tactic(auto, unfolding(crate::specs::Lines::input_of))]
fn read_lines(heap: Global, bytes: &[u8]) -> Result<Input, Unread>
    ensures { MatchResult result (λ x. input_of bytes.now ≡ Ok (x.header, x.readings.items)) (LineTold (input_of bytes.now)) }
{
    let mut lines = Pieces::new(bytes, b'\n');
    let line = lines.ended().ok_or(Unread::Line(FIRST))?;
    let header = header_of_line(line).ok_or(Unread::Line(FIRST))?;
    let readings = read_rows(heap, lines, header)?;
    Ok(Input { header, readings })
}
