// The work of the program: from the bytes of a reader to those of a writer.
ghost use Rattle.listing.specs.Running.{Answered, Ran, Uninterrupted, Written};

use crate::input::LIMIT;
use crate::outcome::Outcome;
use crate::output::listing;
use crate::reading::read_into;
use crate::run_error::RunError;
use crate::writing::write_whole;
use std::alloc::Global;
use std::io::{Read, Write};

// One byte more than an input may have, so that a longer one shows.
const BYTES: usize = LIMIT + 1;

// Reads an input, writes its output behind what the writer holds, and answers how the output ends. No more than 32,769 bytes
// are taken from the reader. It fails only over memory, reading or writing: where writing fails a front of the output is
// written, and else nothing.
pub fn run<R: Read, W: Write>(heap: Global, from: &mut R, to: &mut W) -> Result<Outcome, RunError>
    ensures bytes { Ran (R.remaining from.old) (R.remaining from.new) (W.contents to.old) (W.contents to.new) result }
    ensures retried { Uninterrupted result }
{
    let mut buffer = [0; BYTES];
    match read_into(from, &mut buffer) {
        Ok(count) => answer(heap, &buffer[..count], to),
        Err(error) => Err(RunError::Reading(error)),
    }
}

// Writes the output of an input, or the line of the refusal of one that is not read.
fn answer<W: Write>(heap: Global, input: &[u8], to: &mut W) -> Result<Outcome, RunError>
    ensures bytes { Answered input.now (W.contents to.old) (W.contents to.new) result }
    ensures retried { Uninterrupted result }
{
    match listing(heap, input) {
        Ok(output) => write_output(output.bytes.as_slice(), output.outcome, to),
        Err(unread) => match unread.line() {
            Some(line) => write_output(&line, Outcome::Refused, to),
            None => Err(RunError::Memory),
        },
    }
}

// Writes the bytes of an output, and answers how it ends.
fn write_output<W: Write>(bytes: &[u8], outcome: Outcome, to: &mut W) -> Result<Outcome, RunError>
    ensures bytes { Written bytes.now outcome (W.contents to.old) (W.contents to.new) result }
    ensures retried { Uninterrupted result }
{
    match write_whole(to, bytes) {
        Ok(()) => Ok(outcome),
        Err(error) => Err(RunError::Writing(error)),
    }
}
