// A drawing that is open: plain numbers, with scan and tray lent at each call.
ghost use Rattle.std.specs.Prelude.{◌*◌, ◌≤◌};
ghost use Rattle.grid.specs.Cubes.{cube_count};

use crate::letter::SolidTest;
use cube::Pair;
use grid::Sides;

// What was opened, how many cubes have been drawn, and how many triangles they laid: at most six for each.
#[derive(Drop)]
pub struct Drawing {
    pub(crate) sides: Sides,
    pub(crate) test: SolidTest,
    pub(crate) pair: Pair,
    pub(crate) cubes: u32,
    pub(crate) triangles: u32,
    ghost within: { cubes ≤ cube_count sides },
    ghost few: { triangles ≤ 6 * cubes },
}
