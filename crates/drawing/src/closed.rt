// A drawing that is closed.
ghost use Rattle.std.specs.Prelude.{◌≡◌};
ghost use Rattle.grid.specs.Cubes.{cube_count};

use crate::drawing::Drawing;

// A drawing of which every cube is drawn. It can only be asked for its report.
#[derive(Drop)]
pub struct Closed {
    pub(crate) drawing: Drawing,
    ghost whole: { drawing.cubes ≡ cube_count drawing.sides },
}
