// A triangle inside one cube, by the numbers of the cube links that carry its corners.

// The corners in order: the first is the lowest, and the order gives the side that the triangle faces.
#[derive(Clone, Copy, PartialEq, Eq, Debug)]
pub struct CubeTriangle(pub u8, pub u8, pub u8);
