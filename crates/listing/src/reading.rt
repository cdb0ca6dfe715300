// Reading with a bound, and what a read that fails leaves.
ghost use Rattle.std.specs.Prelude.{◌≢◌, IfErr};
ghost use Rattle.std.specs.IoError.{error_kind};
ghost use Rattle.std.specs.Io.KnownBytes.{ReadConsumes};
ghost use Rattle.std.specs.Io.{ReadsAtMost};
ghost use Rattle.listing.specs.Streams.{ReadInto};

use std::io::{self, ErrorKind, Read};

// Reads until the buffer is full or nothing is left, and answers how many bytes stand at its front.
pub(crate) fn read_into<R: Read>(from: &mut R, buffer: &mut [u8]) -> io::Result<usize>
    ensures bytes { ReadInto (R.remaining from.old) (R.remaining from.new) result buffer.new }
    ensures retried { IfErr result (λ e. error_kind e ≢ ErrorKind.Interrupted) }
{
    let mut count = 0;
    while count < buffer.len() {
        let more = read_once(from, &mut buffer[count..])?;
        if more == 0 {
            return Ok(count);
        }
        count += more;
    }
    Ok(count)
}

// One read, tried again as often as it is interrupted. The loop is counted so that it ends: after 2^64 - 1 interruptions it
// tells a time-out.
fn read_once<R: Read>(from: &mut R, room: &mut [u8]) -> io::Result<usize>
    ensures bound { ReadsAtMost result room.new }
    ensures bytes { ReadConsumes (R.remaining from.old) (R.remaining from.new) result room.new }
    ensures retried { IfErr result (λ e. error_kind e ≢ ErrorKind.Interrupted) }
{
    for _ in 0..u64::MAX {
        match from.read(room) {
            Ok(count) => return Ok(count),
            Err(error) => match error.kind() {
                ErrorKind::Interrupted => {}
                _ => return Err(error),
            },
        }
    }
    Err(ErrorKind::TimedOut.into())
}
