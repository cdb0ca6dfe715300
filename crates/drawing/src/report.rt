// What a closed drawing reports.
ghost use Rattle.std.specs.Prelude.{Some};
ghost use Rattle.drawing.specs.Texts.{report_text};

use std::fmt;

// How many cubes were drawn, and how many triangles they laid.
#[derive(Clone, Copy, PartialEq, Eq, Debug)]
pub struct Report {
    pub cubes: u32,
    pub triangles: u32,
}

impl fmt::Display for Report {
    ghost output = { λ x. Some (report_text x) };

    fn fmt<W: fmt::Write>(&self, f: &mut fmt::Formatter<W>) -> fmt::Result {
        write!(f, "{} cubes and {} triangles", self.cubes, self.triangles)
    }
}
