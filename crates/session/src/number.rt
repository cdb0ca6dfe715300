// The numbers of refusals among the answers.
ghost use Rattle.std.specs.Prelude.{◌≡◌};
ghost use Rattle.session.specs.Numbers.{answer_number};

use crate::call::Answer;

impl Answer {
    // The number of the refusal that it tells, or of what stopped a draw; none for the other answers, so that it is no
    // conversion.
    pub fn number(self) -> Option<u8>
        ensures { result ≡ answer_number self }
    {
        match self {
            Answer::Opened(opened) => opened.err().map(u8::from),
            Answer::Drawn(Ok(progress)) => progress.ending.number(),
            Answer::Drawn(Err(refusal)) => Some(refusal.into()),
            Answer::Closed(closed) => closed.err().map(u8::from),
            Answer::Emptied => None,
        }
    }
}
