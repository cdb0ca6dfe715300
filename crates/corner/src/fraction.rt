// How far along its link a corner lies.
ghost use Rattle.std.specs.Prelude.{◌≢◌};
ghost use Rattle.corner.specs.Fractions.{IsFraction};
ghost use Rattle.corner.specs.Levels.{twice_level};
ghost use Rattle.drawing.specs.Solids.{is_solid};

use crate::level::twice_level;
use drawing::SolidTest;

// The part of the way from the lower end of a link to the upper at which its readings, one solid and one hollow, pass the
// level of the test.
pub(crate) fn fraction(test: SolidTest, low: u16, high: u16) -> f32
    requires { is_solid test low ≢ is_solid test high }
    ensures { IsFraction (twice_level test) low high result }
{
    let to_level = twice_level(test).abs_diff(2 * u32::from(low));
    let whole_way = 2 * u32::from(high.abs_diff(low));
    to_level as f32 / whole_way as f32
}
