// Scans: readings on a grid of voxels, as blocks, phantoms and cut-outs.
#![tactic(auto)]

mod block;
mod border;
mod clip;
mod cutout;
mod fault;
mod lengths;
mod measured;
mod painted;
mod phantom;
mod refusal;
mod scan;
mod shape;
mod spacing;

pub use block::Block;
pub use border::{Lacking, lowest_lacking};
pub use cutout::Cutout;
pub use fault::{Cause, Fault};
pub use lengths::Lengths;
pub use measured::MeasuredScan;
pub use phantom::Phantom;
pub use refusal::Refusal;
pub use scan::Scan;
pub use shape::Shape;
pub use spacing::Spacing;
