// Writing whole, and what a write that fails leaves.
ghost use Rattle.std.specs.Prelude.{◌<◌, ◌≢◌, length, IfErr, IfOk};
ghost use Rattle.std.specs.IoError.{error_kind};
ghost use Rattle.std.specs.Io.KnownBytes.{WriteAppends};
ghost use Rattle.std.specs.Io.{WritesAtMost};
ghost use Rattle.listing.specs.Streams.{WrittenWhole};

use std::io::{self, ErrorKind, Write};

// Writes all of the bytes behind what the writer holds.
pub(crate) fn write_whole<W: Write>(to: &mut W, bytes: &[u8]) -> io::Result<()>
    ensures bytes { WrittenWhole (W.contents to.old) (W.contents to.new) result bytes.now }
    ensures retried { IfErr result (λ e. error_kind e ≢ ErrorKind.Interrupted) }
{
    let mut rest = bytes;
    while !rest.is_empty() {
        let count = write_some(to, rest)?;
        rest = &rest[count..];
    }
    Ok(())
}

// Writes some bytes of the front, at least one; tried again as often as it is interrupted, by a loop that is counted as that
// of a read.
fn write_some<W: Write>(to: &mut W, bytes: &[u8]) -> io::Result<usize>
    requires { 0 < length bytes.now }
    ensures bound { WritesAtMost result bytes.now }
    ensures some { IfOk result (λ n. 0 < n) }
    ensures bytes { WriteAppends (W.contents to.old) (W.contents to.new) result bytes.now }
    ensures retried { IfErr result (λ e. error_kind e ≢ ErrorKind.Interrupted) }
{
    for _ in 0..u64::MAX {
        match to.write(bytes) {
            Ok(0) => return Err(ErrorKind::WriteZero.into()),
            Ok(count) => return Ok(count),
            Err(error) => match error.kind() {
                ErrorKind::Interrupted => {}
                _ => return Err(error),
            },
        }
    }
    Err(ErrorKind::TimedOut.into())
}
