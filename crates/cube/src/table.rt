// The table of 256 rows, looked up.
ghost use Rattle.std.specs.Prelude.{◌≡◌};
ghost use Rattle.cube.specs.Cube.{kinds};
ghost use Rattle.cube.specs.Patches.{laid};
ghost use Rattle.cube.specs.Rows.{Ruled};
ghost use Rattle.cube.specs.Triangles.{cut_all};

use crate::mask::Mask;
use crate::pair::Connectedness;
use crate::patch::Patch;
use crate::rows::{NONE, ROWS, Row};

// The triangles of a mask in any table that has the rules' triangles at every mask, which is the place of its row. Apart
// from `row_of`, so that its proof does not compute with the rows.
fn pick(table: &[Row; 256], mask: Mask) -> Patch
    requires { Ruled table.now }
    ensures { laid result ≡ cut_all Connectedness.Eighteen (kinds mask.0) }
{
    let Row {
        count,
        first,
        second,
        third,
        fourth,
        fifth,
    } = table[mask.0 as usize];
    Patch {
        count,
        places: [first, second, third, fourth, fifth, NONE],
    }
}

// The triangles of a mask where solid is 18-connected and hollow 6-connected.
pub fn row_of(mask: Mask) -> Patch
    ensures { laid result ≡ cut_all Connectedness.Eighteen (kinds mask.0) }
{
    pick(&ROWS, mask)
}
