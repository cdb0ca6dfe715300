// How far a list of calls has come.
use drawing::{Closed, Drawing};

// What the calls so far have made of the scan.
#[derive(Drop)]
pub enum State {
    // No opening was accepted yet.
    Unopened,
    // The scan is open for drawing.
    Opened(Drawing),
    // The drawing is closed.
    Finished(Closed),
}
