// The solid voxels of a cube.
use cube::{Connectedness, Mask};

// Which voxels are solid, and how far apart two solid voxels may be and still touch. It is made by its fields: a maker
// would say no more than they.
#[derive(Clone, Copy)]
pub struct Solid {
    pub mask: Mask,
    pub connectedness: Connectedness,
}
