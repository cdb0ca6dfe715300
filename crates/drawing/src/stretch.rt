// How far a draw came.
use crate::progress::Ending;

// The cubes drawn and the triangles laid, and why the next cube could not be drawn, if it was tried.
#[derive(Clone, Copy)]
pub(crate) struct Stretch {
    pub(crate) drawn: u32,
    pub(crate) laid: u32,
    pub(crate) stop: Option<Ending>,
}
