// Sides, voxels, links and cubes of a scan, and their numbers.
#![tactic(auto)]

mod axis;
mod border;
mod cubes;
mod extent;
mod link;
mod links;
mod sides;
mod voxel;
mod voxels;

pub use axis::{Axis, NoAxis};
pub use link::Link;
pub use sides::Sides;
pub use voxel::Voxel;
