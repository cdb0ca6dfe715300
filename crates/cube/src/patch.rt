// The triangles that one cube lays.
ghost use Rattle.std.specs.Prelude.{◌≤◌};

use crate::triangle::CubeTriangle;

// At most six triangles, in the order in which they are laid; what stands behind the last of them says nothing.
// With a count beside the places: with an ArrayVec in their stead the patches of all masks took three times as long.
// Contracts say what a patch lays by one word, `laid`.
#[derive(Clone, Copy)]
pub struct Patch {
    pub(crate) count: u8,
    pub(crate) places: [CubeTriangle; 6],
    ghost few: { count ≤ 6 },
}
