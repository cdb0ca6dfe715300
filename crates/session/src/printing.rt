// Calls and their answers in words.
ghost use Rattle.std.specs.Prelude.{Some};
ghost use Rattle.session.specs.Texts.{answer_text, call_text, entry_text};

use crate::call::{Answer, Call, Entry};
use std::fmt;

// What is asked.
impl fmt::Display for Call {
    ghost output = { λ x. Some (call_text x) };

    fn fmt<W: fmt::Write>(&self, f: &mut fmt::Formatter<W>) -> fmt::Result {
        match self {
            Call::Open(asked) => write!(f, "open at {asked}"),
            Call::Draw { tray, budget } => {
                write!(f, "draw at most {budget} cubes into tray {tray}")
            }
            Call::DrawOther { tray, budget, .. } => write!(
                f,
                "draw at most {budget} cubes of another scan into tray {tray}"
            ),
            Call::Close => write!(f, "close"),
            Call::Empty { tray } => write!(f, "empty tray {tray}"),
        }
    }
}

// What came of it.
impl fmt::Display for Answer {
    ghost output = { λ x. Some (answer_text x) };

    fn fmt<W: fmt::Write>(&self, f: &mut fmt::Formatter<W>) -> fmt::Result {
        match self {
            Answer::Opened(Ok(())) => write!(f, "opened"),
            Answer::Opened(Err(refusal)) => write!(f, "{refusal}"),
            Answer::Drawn(Ok(progress)) => write!(f, "{progress}"),
            Answer::Drawn(Err(refusal)) => write!(f, "{refusal}"),
            Answer::Closed(Ok(report)) => write!(f, "{report} in all"),
            Answer::Closed(Err(refusal)) => write!(f, "{refusal}"),
            Answer::Emptied => write!(f, "emptied"),
        }
    }
}

// A call with its answer.
impl fmt::Display for Entry {
    ghost output = { λ x. Some (entry_text x) };

    fn fmt<W: fmt::Write>(&self, f: &mut fmt::Formatter<W>) -> fmt::Result {
        match self.answer {
            Some(answer) => write!(f, "{}: {answer}", self.call),
            None => write!(f, "{}: cannot be made here", self.call),
        }
    }
}
