// The surface inside one cube of eight voxels.
#![tactic(auto)]

mod links;
mod mask;
mod numbers;
mod pair;
mod patch;
mod rows;
mod surface;
mod table;
mod texts;
mod triangle;
mod tube;
mod turned;

pub use links::ends;
pub use mask::Mask;
pub use numbers::NoPair;
pub use pair::{Connectedness, Pair};
pub use patch::Patch;
pub use surface::{samples, triangles};
pub use triangle::CubeTriangle;
