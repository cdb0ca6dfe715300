// The calls that can be listed, and their answers.
use drawing::{Asked, DrawRefusal, OpenRefusal, Progress, Report, Unfinished};

// One call. A tray, and a scan other than the one that is drawn, goes by its place in a list: a list of calls cannot hold the
// trays that it changes. Tray and budget are two numbers, and a struct of them would have no use but here.
#[derive(Clone, Copy, PartialEq, Eq, Debug)]
pub enum Call {
    // Opens the scan.
    Open(Asked),
    // Draws at most so many cubes into a tray.
    Draw {
        tray: usize,
        budget: u32,
    },
    // Tries the same with another scan, which has other sides: a case of its own, since it is refused or not made.
    DrawOther {
        other: usize,
        tray: usize,
        budget: u32,
    },
    // Closes the drawing.
    Close,
    // Empties a tray.
    Empty {
        tray: usize,
    },
}

// What a call answered.
#[derive(Clone, Copy, PartialEq, Eq, Debug)]
pub enum Answer {
    // The scan is open for drawing, or refused.
    Opened(Result<(), OpenRefusal>),
    // The draw did so much, or was refused.
    Drawn(Result<Progress, DrawRefusal>),
    // The drawing is closed and reports its totals, or cubes are left.
    Closed(Result<Report, Unfinished>),
    // The tray is empty.
    Emptied,
}

// A call, with its answer once it is made; none where it cannot be made, which changes nothing.
#[derive(Clone, Copy, PartialEq, Eq, Debug)]
pub struct Entry {
    pub call: Call,
    pub answer: Option<Answer>,
}
