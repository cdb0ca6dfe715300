// What is asked of a patch, and a patch turned over.
ghost use Rattle.std.specs.Prelude.{◌≡◌, ◌≤◌, map, length};
ghost use Rattle.cube.specs.Patches.{laid};
ghost use Rattle.cube.specs.Triangles.{turn_over};

use crate::patch::Patch;
use crate::triangle::CubeTriangle;

impl CubeTriangle {
    // The triangle turned over: its last two corners exchanged.
    pub fn turned_over(self) -> CubeTriangle
        ensures { result ≡ turn_over self }
    {
        CubeTriangle(self.0, self.2, self.1)
    }
}

impl Patch {
    // The triangles, in the order in which they are laid; six at the most.
    pub fn triangles(&self) -> &[CubeTriangle]
        ensures value { result.now ≡ laid self.now }
        ensures few { length result.now ≤ 6 }
    {
        &self.places[..self.count as usize]
    }

    // The patch with each of its triangles turned over, in the same order.
    pub fn turned_over(self) -> Patch
        ensures { laid result ≡ map turn_over (laid self) }
    {
        let Patch { count, mut places } = self;
        for triangle in places.iter_mut() {
            *triangle = triangle.turned_over();
        }
        Patch { count, places }
    }
}
