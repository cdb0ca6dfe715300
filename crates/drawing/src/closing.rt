// Closing a drawing, and the report of a closed one.
ghost use Rattle.std.specs.Prelude.{◌≡◌};
ghost use Rattle.drawing.specs.Closings.{Closes, report_of};

use crate::closed::Closed;
use crate::cubes_left::CubesLeft;
use crate::drawing::Drawing;
use crate::report::Report;

impl Drawing {
    // The drawing closed; refused, with the drawing handed back as it was, where cubes are left.
    pub fn close(self) -> Result<Closed, CubesLeft>
        ensures { Closes self result }
    {
        if self.cubes < self.sides.cube_count() {
            return Err(CubesLeft { drawing: self });
        }
        Ok(Closed { drawing: self })
    }
}

impl Closed {
    // The total of cubes drawn and of triangles laid.
    pub fn report(&self) -> Report
        ensures { result ≡ report_of self.now }
    {
        Report {
            cubes: self.drawing.cubes,
            triangles: self.drawing.triangles,
        }
    }
}
