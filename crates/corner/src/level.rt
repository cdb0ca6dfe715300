// The level that a surface lies at between two readings.
ghost use Rattle.std.specs.Prelude.{◌≡◌, ◌<◌};
ghost use Rattle.corner.specs.Levels.{twice_level};

use drawing::SolidTest;

// Twice the level under a test of what is solid: half a step below the threshold, so that no reading is level with the
// surface.
pub(crate) fn twice_level(test: SolidTest) -> u32
    requires { 0 < test.threshold }
    ensures { result ≡ twice_level test }
{
    2 * u32::from(test.threshold) - 1
}
