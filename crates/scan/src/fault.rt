// What a scan tells of a place that has no reading.
ghost use Rattle.std.specs.Prelude.{◌≡◌, Some};
ghost use Rattle.scan.specs.Faults.{cause_number, own_fault, passed_up};
ghost use Rattle.scan.specs.Texts.{fault_text};

use grid::Voxel;
use std::error::Error;
use std::fmt;

// Why a place has no reading.
#[derive(Clone, Copy, PartialEq, Eq, Debug)]
pub enum Cause {
    // The voxel lies in the scan, and nothing was measured there.
    NoReading,
    // The place lies outside the scan.
    Outside,
}

// The cause's number: 1 where the voxel has no reading, 2 outside.
impl From<Cause> for u8 {
    ghost from_gives = { λ cause n. n ≡ cause_number cause };

    fn from(cause: Cause) -> u8 {
        match cause {
            Cause::NoReading => 1,
            Cause::Outside => 2,
        }
    }
}

// A place with no reading, as the scan where the fault arose saw it, and how many scans passed it up.
#[derive(Clone, Copy, PartialEq, Eq, Debug)]
pub struct Fault {
    pub cause: Cause,
    pub at: Voxel,
    // How many scans passed the fault up; it stays at 255.
    pub passed: u8,
}

impl Fault {
    // A fault that arises at this place, and that no scan has passed up yet.
    pub fn own(cause: Cause, at: Voxel) -> Fault
        ensures { result ≡ own_fault cause at }
    {
        Fault {
            cause,
            at,
            passed: 0,
        }
    }

    // The same fault, passed up by one more scan.
    pub fn pass_up(self) -> Fault
        ensures { result ≡ passed_up self }
    {
        Fault {
            passed: self.passed.saturating_add(1),
            ..self
        }
    }
}

// The fault by its cause's number, as in fault 1 at (1,2,3), passed up by 0.
impl fmt::Display for Fault {
    ghost output = { λ fault. Some (fault_text fault) };

    fn fmt<W: fmt::Write>(&self, f: &mut fmt::Formatter<W>) -> fmt::Result {
        let cause = u8::from(self.cause);
        write!(
            f,
            "fault {cause} at {}, passed up by {}",
            self.at, self.passed
        )
    }
}

impl Error for Fault {}
