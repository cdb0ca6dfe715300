// Why a run gives no whole output.
ghost use Rattle.listing.specs.Running.{run_error_text};

use std::error::Error;
use std::{fmt, io};

// What failed. Nothing was written where memory lacked or reading failed.
#[derive(Clone, Copy, Debug)]
pub enum RunError {
    // There was no memory for the readings of the input or for its output.
    Memory,
    // The reader failed before the whole input was read.
    Reading(io::Error),
    // The writer failed before the whole output was written.
    Writing(io::Error),
}

impl fmt::Display for RunError {
    ghost output = { run_error_text };

    fn fmt<W: fmt::Write>(&self, f: &mut fmt::Formatter<W>) -> fmt::Result {
        match self {
            RunError::Memory => write!(f, "no memory for the readings or the output"),
            RunError::Reading(error) => write!(f, "reading failed: {error}"),
            RunError::Writing(error) => write!(f, "writing failed: {error}"),
        }
    }
}

impl Error for RunError {}
