// A triangle of the surface, by the numbers of the three links that carry its corners.
ghost use Rattle.tray.specs.Corners.{Below, Differ};

pub mod making;

// Three different link numbers, each below 50,331,648. A link joins two neighbouring voxels, and its number names the corner on it.
#[derive(Clone, Copy, PartialEq, Eq, Debug)]
pub struct Triangle {
    first: u32,
    second: u32,
    third: u32,
    ghost below: { Below first second third },
    ghost differ: { Differ first second third },
}
