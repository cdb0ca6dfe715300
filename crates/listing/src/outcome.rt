// How an output ends.
ghost use Rattle.std.specs.Prelude.{◌≡◌};
ghost use Rattle.std.specs.Process.{exit_status};
ghost use Rattle.listing.specs.Outcomes.{status};

use std::process::ExitCode;

// An output ends with the line of an end, or with that of a refusal, which stands alone or after the triangles laid.
#[derive(Clone, Copy, PartialEq, Eq, Debug)]
pub enum Outcome {
    Finished,
    Refused,
}

// The exit status of the program: 0 after a finished list, 1 after a refusal.
impl From<Outcome> for ExitCode {
    ghost from_gives = { λ outcome code. exit_status code ≡ status outcome };

    fn from(outcome: Outcome) -> ExitCode {
        match outcome {
            Outcome::Finished => ExitCode::SUCCESS,
            Outcome::Refused => ExitCode::FAILURE,
        }
    }
}
