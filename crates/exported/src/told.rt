// What is told of drawing a scan.
ghost use Rattle.std.specs.Prelude.{◌≡◌};
ghost use Rattle.exported.specs.Drawings.{nothing_told};
ghost use Rattle.exported.specs.Refusals.{number};

use crate::refusal::Refusal;

// The number of the refusal or ending, or 0; the cubes drawn, by how many draws, and the triangles laid.
#[repr(C)]
#[derive(Clone, Copy)]
pub struct Told {
    pub refusal: u32,
    pub cubes: u32,
    pub draws: u32,
    pub triangles: usize,
}

// Nothing was drawn, for this reason.
impl From<Refusal> for Told {
    ghost from_gives = { λ refusal told. told ≡ nothing_told (number refusal) };

    fn from(refusal: Refusal) -> Told {
        Told {
            refusal: u8::from(refusal).into(),
            cubes: 0,
            draws: 0,
            triangles: 0,
        }
    }
}
