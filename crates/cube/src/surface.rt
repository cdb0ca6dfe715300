// The surface inside one cube: its triangles under each pair, and the worked cases.
ghost use Rattle.std.specs.Prelude.{◌≡◌};
ghost use Rattle.cube.specs.Cube.{kinds};
ghost use Rattle.cube.specs.Laws.{Lawful};
ghost use Rattle.cube.specs.Patches.{laid};
ghost use Rattle.cube.specs.Samples.{Samples};
ghost use Rattle.cube.specs.Triangles.{triangles as the-triangles};

use crate::mask::Mask;
use crate::pair::Pair;
use crate::patch::Patch;
use crate::table::row_of;
use crate::tube::with_tube;

// The triangles by the rules: from the table, with the tube, or from the exchanged mask under the swapped pair. A line for
// each pair, as the rules have it; apart from `triangles`, whose laws are proved from this.
fn by_pair(mask: Mask, pair: Pair) -> Patch
    ensures { laid result ≡ the-triangles pair (kinds mask.0) }
{
    match pair {
        Pair::S18H6 => row_of(mask),
        Pair::S26H6 => with_tube(mask),
        Pair::S6H18 => row_of(mask.exchanged()).turned_over(),
        Pair::S6H26 => with_tube(mask.exchanged()).turned_over(),
    }
}

// The triangles that a cube lays under a pair, in order. A mask and a pair go side by side: nothing else is asked of both.
pub fn triangles(mask: Mask, pair: Pair) -> Patch
    ensures value { laid result ≡ the-triangles pair (kinds mask.0) }
    ensures laws { Lawful pair (kinds mask.0) (laid result) }
{
    by_pair(mask, pair)
}

// The worked cases of the rules, shown together from the definitions.
pub fn samples()
    ensures { Samples }
{}
