// The graph of a cube: its loops, and which of its voxels are joined.
#![tactic(auto)]

mod joining;
mod laws;
mod solid;
mod trace;
mod walk;
mod walks;

pub use joining::{connected, joined};
pub use laws::all_looped;
pub use trace::loops;
