// The walks round a face of the cube.

// The four voxels in the order of the walk, and the links that its second, third and fourth step pass.
#[derive(Clone, Copy)]
pub struct Walk {
    pub a: u8,
    pub b: u8,
    pub c: u8,
    pub d: u8,
    pub bc: u8,
    pub cd: u8,
    pub da: u8,
}

// The walks whose first step passes one link: up from its lower voxel to its upper, and down.
#[derive(Clone, Copy)]
pub struct BothWays {
    pub up: Walk,
    pub down: Walk,
}
